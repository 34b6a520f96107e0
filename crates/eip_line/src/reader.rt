ghost use Rattle.std.specs.Prelude.{◌≡◌, ◌+◌, ◌<◌, [], length, take, drop, IfOk, IfErr, IsErrOf};
ghost use Rattle.std.specs.Io.KnownBytes.{prepend_known};
ghost use Rattle.eip_text.specs.Causes.{Rises};
ghost use Rattle.eip_endpoint.specs.Pulls.{IsFair};
ghost use Rattle.eip_line.specs.Lines.{Endless as AnEndless, next_line, without_return, HasLine};
ghost use Rattle.eip_line.specs.Readers.{IsLine, TookLine, TookLast, TookKnown, link_failure_in};

use crate::buffer::{LONGEST, LineBuffer};
use crate::link::{Link, LinkFault};
use eip_endpoint::{Pulled, Refusal};
use eip_exchange::Message;
use eip_text::{NoMemory, Text, TextFault, decimal};
use eip_uri::Uri;
use std::alloc::Global;

/// The most bytes that a body may have, 65,536.
const LONGEST_BODY: usize = 65_536;

/// Why a reader gave no line.
#[derive(Clone, Copy, Debug, PartialEq, Eq)]
pub enum LineFault {
    /// The link failed.
    Failed,
    /// 1,048,576 bytes came and hold no LF.
    Endless,
    /// There was no memory, and no line was taken.
    NoMemory,
}

/// The line without one CR at its end.
pub fn without_return(line: &[u8]) -> &[u8]
    ensures { result.now ≡ without_return line.now }
{
    match line.split_last() {
        Some((b'\r', front)) => front,
        _ => line,
    }
}

/// The line with this number: an item with the number as its name and the line as its body. It is refused as
/// `TooLong` exactly where it has more than 65,536 bytes, and else as `NotText` exactly where it is not UTF-8.
pub fn pulled_of(alloc: Global, number: u64, line: &[u8]) -> Result<Pulled, NoMemory>
    ensures line { IfOk result (IsLine number line.now) }
    ensures fair { IfOk result IsFair }
{
    let item = decimal(alloc, number)?;
    if line.len() > LONGEST_BODY {
        let cause = Refusal::TooLong;
        return Ok(Pulled::Refused { item, cause });
    }
    match Text::read(alloc, line) {
        Ok(body) => {
            let message = Message::of_body(alloc, body);
            Ok(Pulled::Item { item, message })
        }
        Err(TextFault::NotText) => {
            let cause = Refusal::NotText;
            Ok(Pulled::Refused { item, cause })
        }
        Err(TextFault::NoMemory) => Err(NoMemory),
    }
}

/// Cuts the bytes of a link into lines: each line that an LF ends, without one CR before the LF, and a last line
/// without LF where it is not empty.
#[derive(Drop)]
pub struct LineReader {
    /// The bytes that came and were not given.
    pub buffer: LineBuffer,
    /// How many lines were given, the refused ones among them.
    pub lines: u64,
}

impl LineReader {
    /// A reader before the first line.
    pub fn new(alloc: Global) -> Result<LineReader, NoMemory>
        ensures { IfOk result (λ r. r ≡ record { buffer = []; lines = 0 }) }
    {
        let buffer = LineBuffer::new(alloc)?;
        Ok(LineReader { buffer, lines: 0 })
    }

    /// Gives the line in front of the LF at this index of the buffer.
    fn give_ended(&mut self, alloc: Global, end: usize) -> Result<Pulled, LineFault>
        requires { end < length self.old.buffer }
        ensures took { TookLine self.old.lines self.old.buffer (without_return (take end self.old.buffer)) (drop (end + 1) self.old.buffer) result self.new.lines self.new.buffer }
        ensures fair { IfOk result IsFair }
    {
        let number = self.lines.saturating_add(1);
        let line = without_return(&self.buffer.bytes()[..end]);
        let Ok(pulled) = pulled_of(alloc, number, line) else {
            return Err(LineFault::NoMemory);
        };
        self.buffer.take_front(end + 1);
        self.lines = number;
        Ok(pulled)
    }

    /// Gives all of the buffer as the last line, or the end where it is empty.
    fn give_last(&mut self, alloc: Global) -> Result<Pulled, LineFault>
        ensures took { TookLast self.old.lines self.old.buffer result self.new.lines self.new.buffer }
        ensures fair { IfOk result IsFair }
    {
        let line = self.buffer.bytes();
        let count = line.len();
        if count == 0 {
            return Ok(Pulled::End);
        }
        let number = self.lines.saturating_add(1);
        let Ok(pulled) = pulled_of(alloc, number, line) else {
            return Err(LineFault::NoMemory);
        };
        self.buffer.take_front(count);
        self.lines = number;
        Ok(pulled)
    }

    /// Gives the next line of what the link has for this endpoint, or the end where no byte is left. `Failed` comes
    /// where the link failed, `Endless` where 1,048,576 bytes
    /// came and hold no LF, and neither where a line is in the buffer already. No line is lost by a fault.
    pub fn next<L: Link>(
        &mut self,
        alloc: Global,
        link: &mut L,
        from: &Uri,
    ) -> Result<Pulled, LineFault>
        ensures ready { HasLine self.old.buffer → IfErr result (λ f. f ≡ LineFault.NoMemory) }
        ensures endless { IsErrOf result LineFault.Endless → next_line self.new.buffer ≡ AnEndless }
        ensures took { TookKnown self.old.lines (prepend_known self.old.buffer (L.unread link.old)) result self.new.lines (prepend_known self.new.buffer (L.unread link.new)) }
        ensures fair { IfOk result IsFair }
        ensures written { L.written link.new ≡ L.written link.old }
        ensures faults { Rises (link_failure_in result) (L.link_faults link.old) (L.link_faults link.new) }
    {
        let end = match self.buffer.gather(link, from) {
            Ok(end) => end,
            Err(LinkFault::Failed) => return Err(LineFault::Failed),
            Err(LinkFault::NoMemory) => return Err(LineFault::NoMemory),
        };
        if end >= LONGEST {
            return Err(LineFault::Endless);
        }
        if end < self.buffer.bytes().len() {
            return self.give_ended(alloc, end);
        }
        self.give_last(alloc)
    }
}
