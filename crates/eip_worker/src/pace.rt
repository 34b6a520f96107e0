use crate::worker::Round;
use eip_frames::Request;
use eip_shared::{Look, SharedRun};
use eip_turnstile::Seat;
use std::sync::Wait;
use std::sync::atomic::Ordering;
use std::thread::{Parker, yield_now};
use std::time::Duration;

/// Behind so many glances in a row that saw nobody at a turn, an idle worker takes one: some 10 microseconds.
const QUIET: u32 = 20;

/// Behind so many glances that saw others at a turn it sleeps.
const BUSY: u32 = 10;

/// Behind so many glances of either kind it sleeps too.
const GLANCES: u32 = 100;

/// How long it sleeps then, in microseconds, before it glances again.
const PAUSE: u64 = 50;

/// Behind so many sleeps it looks at the run in any case.
const PAUSES: u32 = 8;

/// So much oftener than not others are in a worker's way before it makes way for them.
const CROWDED: u32 = 8;

/// Behind so many looks in a row that found nothing to do, a worker ends its round if another one is not at work: where that one could
/// not be started, the caller does its work behind the others, which must not wait for it for ever.
const LOOKS_WITHOUT_ALL: u32 = 200;

/// How a worker gets on among the others. It decides when the worker takes turns, and not what it does in them.
#[derive(Drop)]
pub(crate) struct Pace {
    /// So many looks in a row found nothing to do.
    fruitless: u32,
    /// How much oftener than not another one had the turn when the worker came with what a call had brought.
    crowding: u32,
    /// Whether the worker makes way for others before it looks again.
    makes_way: bool,
}

impl Pace {
    pub(crate) fn new() -> Pace {
        Pace {
            fruitless: 0,
            crowding: 0,
            makes_way: false,
        }
    }

    /// Notes what a look told. Where nobody else could do that, since it is a pull or a call of a lane or an inlet that the worker owns,
    /// it does not make way for others soon.
    fn saw(&mut self, what: &Look) {
        self.fruitless = match what {
            Look::Nothing => self.fruitless.saturating_add(1),
            _ => 0,
        };
        match what {
            Look::Pull(_) => self.crowding = 0,
            Look::Call { ticket, told: _ } => match &ticket.request {
                Request::Process { .. } | Request::Test { .. } => {}
                _ => self.crowding = 0,
            },
            _ => {}
        }
    }

    /// Notes whether nobody has the turn when the worker comes with what a call brought. It answers whether the worker makes way for
    /// others behind that turn: it does where they are in its way time and again, since then turns take longer than calls, and the run
    /// is at its fastest where few take turns.
    pub(crate) fn meets(&mut self, is_free: bool) -> bool {
        self.crowding = if is_free {
            self.crowding.saturating_sub(1)
        } else {
            self.crowding.saturating_add(1)
        };
        if self.crowding >= CROWDED {
            self.crowding = 0;
            self.makes_way = true;
        }
        self.makes_way
    }
}

impl<R, G> Round<'_, R, G> {
    /// Whether a worker goes on behind a look that told this. It doesn't where the run has stopped or there was no memory, nor where
    /// there was nothing to do for long while not all are at work.
    pub(crate) fn goes_on(&self, what: &Look, pace: &mut Pace) -> bool {
        pace.saw(what);
        match what {
            Look::Did | Look::Call { .. } | Look::Pull(_) => true,
            Look::Nothing => {
                pace.fruitless <= LOOKS_WITHOUT_ALL
                    || self.present.load(Ordering::SeqCst) >= self.workers
            }
            Look::NoMemory | Look::Stopped => false,
        }
    }

    /// Watches the others, without a turn: whether nobody takes one for a short while and, where a number is given, there are more entries
    /// than that.
    fn is_wanted(&self, seen: Option<u64>) -> bool {
        let mut length = self.lock.length();
        let mut quiet: u32 = 0;
        let mut busy: u32 = 0;
        for _ in 0..GLANCES {
            let now = self.lock.length();
            if now == length && self.lock.is_free() {
                quiet = quiet.saturating_add(1);
            } else {
                quiet = 0;
                busy = busy.saturating_add(1);
            }
            length = now;
            if busy >= BUSY {
                return false;
            }
            if quiet >= QUIET && seen != Some(length) {
                return true;
            }
            yield_now();
        }
        false
    }

    /// Where the last look found nothing to do, or the worker makes way, it lets others work until they have done something and are
    /// quiet, or for a short while.
    pub(crate) fn rest<W: Wait>(
        &self,
        rt: &W,
        parker: &Parker,
        pace: &mut Pace,
        seat: &Seat<SharedRun>,
    ) {
        if pace.fruitless == 0 && !pace.makes_way {
            return;
        }
        let seen = if pace.makes_way {
            None
        } else {
            Some(seat.seen())
        };
        pace.makes_way = false;
        for _ in 0..PAUSES {
            if self.is_wanted(seen) {
                return;
            }
            parker.park_timeout(rt, Duration::from_micros(PAUSE));
        }
    }
}
