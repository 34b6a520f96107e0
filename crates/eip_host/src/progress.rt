ghost use Rattle.std.specs.Prelude.{◌≡◌, ◌+◌, ◌-◌, ◌^◌, ◌≤◌, IfSome, min};
ghost use Rattle.std.specs.Time.{instant_nanos};

use crate::output::put_all;
use eip_text::decimal;
use std::alloc::Global;
use std::io::Write;
use std::time::{Clock, Duration, Instant};

/// The least time between two showings, in milliseconds: the count is shown at most ten times a second.
const PAUSE: u64 = 100;

/// How many items a run has taken so far, which is shown on a terminal while the run goes on.
#[derive(Drop)]
pub struct Progress<C, W> {
    alloc: Global,
    clock: C,
    terminal: W,
    /// When it was last shown, and not wiped since.
    shown: Option<Instant>,
    /// How many items were taken, or the greatest number where there were more.
    pub count: u64,
}

impl<C: Clock, W: Write> Progress<C, W> {
    /// No item was taken yet, and nothing is shown. It takes no memory.
    pub fn new(alloc: Global, clock: C, terminal: W) -> Progress<C, W>
        ensures { result.count ≡ 0 }
    {
        Progress {
            alloc,
            clock,
            terminal,
            shown: None,
            count: 0,
        }
    }

    /// Counts an item, and shows the count where the last showing is long enough ago. Where the clock fails, the terminal
    /// does, or memory is wanting, the count is not shown.
    pub fn taken(&mut self)
        ensures { self.new.count ≡ min (self.old.count + 1) (2 ^ 64 - 1) }
    {
        self.count = self.count.saturating_add(1);
        if let Some(now) = self.due() {
            self.shown = Some(now);
            self.show();
        }
    }

    /// Takes what is shown off the terminal's line (ECMA-48, *Erase in Line*).
    pub fn wipe(&mut self)
        ensures { self.new.count ≡ self.old.count }
    {
        if self.shown.is_some() {
            self.shown = None;
            let _ = put_all(&mut self.terminal, b"\r\x1b[K");
        }
    }

    /// The time, where the count may be shown now.
    fn due(&self) -> Option<Instant>
        ensures { IfSome result (λ now. IfSome self.now.shown (λ before. instant_nanos before + 100000000 ≤ instant_nanos now)) }
    {
        let now = Instant::now(&self.clock).ok()?;
        let Some(before) = self.shown else {
            return Some(now);
        };
        if now.duration_since(before) < Duration::from_millis(PAUSE) {
            return None;
        }
        Some(now)
    }

    /// Writes the count over what the terminal's line shows.
    fn show(&mut self)
        ensures { self.new.count ≡ self.old.count }
    {
        let Ok(digits) = decimal(self.alloc, self.count) else {
            return;
        };
        let terminal = &mut self.terminal;
        let _ = put_all(terminal, b"\r")
            && put_all(terminal, digits.bytes())
            && put_all(terminal, b" taken");
    }
}
