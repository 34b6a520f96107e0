use eip_endpoint::{PullFault, Pulled, Refusal, Source};
use eip_text::NoMemory;
use eip_uri::Uri;
use std::alloc::Global;

/// What a pull is to give.
#[derive(Clone, Copy)]
pub enum Wanted {
    /// An item of this name with this body.
    Item(&'static str, &'static str),
    /// An item of this name with a body of this length.
    Long(&'static str, usize),
    /// An item of this name that is refused for this cause.
    Refused(&'static str, Refusal),
    End,
    Failed,
}

impl Wanted {
    /// Whether a pull gave it.
    pub fn is(self, given: &Result<Pulled, PullFault>) -> bool {
        match (self, given) {
            (Wanted::Item(name, body), Ok(Pulled::Item { item, message })) => {
                item.as_str() == name && message.body.as_str() == body
            }
            (Wanted::Long(name, length), Ok(Pulled::Item { item, message })) => {
                item.as_str() == name && message.body.bytes().len() == length
            }
            (Wanted::Refused(name, reason), Ok(Pulled::Refused { item, cause })) => {
                item.as_str() == name && *cause == reason
            }
            (Wanted::End, Ok(Pulled::End)) => true,
            (Wanted::Failed, Err(PullFault::Failed)) => true,
            _ => false,
        }
    }
}

/// Whether these are given, one by each pull from an endpoint.
pub fn gives_from<S: Source>(source: &mut S, from: &Uri, wanted: &[Wanted]) -> bool {
    for next in wanted {
        if !next.is(&source.pull(from)) {
            return false;
        }
    }
    true
}

/// Whether these are given, one by each pull from standard input.
pub fn gives<S: Source>(source: &mut S, wanted: &[Wanted]) -> bool {
    gives_from(source, &Uri::StreamIn, wanted)
}

/// So many times `x` between a front and an end.
pub fn long(alloc: Global, front: &[u8], count: usize, end: &[u8]) -> Result<Vec<u8>, NoMemory> {
    let middle = vec![in alloc; b'x'; count]?;
    let mut bytes = Vec::new(alloc);
    bytes.extend_from_slice(front)?;
    bytes.extend_from_slice(middle.as_slice())?;
    bytes.extend_from_slice(end)?;
    Ok(bytes)
}

/// Five lines, of which the last one doesn't end.
pub static FIVE_LINES: &[u8] = b"a\r\nbc\n\n\r\r\nd\r";

/// What is given of them.
pub static OF_FIVE_LINES: [Wanted; 7] = [
    Wanted::Item("1", "a"),
    Wanted::Item("2", "bc"),
    Wanted::Item("3", ""),
    Wanted::Item("4", "\r"),
    Wanted::Item("5", "d\r"),
    Wanted::End,
    Wanted::End,
];

/// A line that is long, by its front, the count of `x` behind that, its end and the size of the pieces that it comes in,
/// with what is to be given of it and how many pulls are to meet a line without end.
pub type Long = (
    &'static [u8],
    usize,
    &'static [u8],
    usize,
    &'static [Wanted],
    u64,
);

/// A body of as many bytes as one may have, and of one more.
pub static BODIES: [Long; 2] = [
    (
        b"",
        65_536,
        b"\r\n",
        50_000,
        &[Wanted::Long("1", 65_536)],
        0,
    ),
    (
        b"\xff",
        65_536,
        b"\r\n",
        50_000,
        &[Wanted::Refused("1", Refusal::TooLong)],
        0,
    ),
];

/// A line that ends within the bytes that one may have, and one that doesn't.
pub static LINES: [Long; 2] = [
    (
        b"",
        1_048_575,
        b"\nb\n",
        50_000,
        &[
            Wanted::Refused("1", Refusal::TooLong),
            Wanted::Item("2", "b"),
        ],
        0,
    ),
    (
        b"",
        1_048_576,
        b"\nb\n",
        60_000,
        &[Wanted::Failed, Wanted::Failed],
        2,
    ),
];
