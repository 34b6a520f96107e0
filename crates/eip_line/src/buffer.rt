ghost use Rattle.std.specs.Prelude.{◌≡◌, ◌≤◌, ◌<◌, ◌++◌, [], length, drop, vec_len, IfOk, IsOk};
ghost use Rattle.eip_line.specs.Known.{Refilled};
ghost use Rattle.eip_text.specs.Causes.{Rises};
ghost use Rattle.eip_line.specs.Lines.{line_length, Gathered};
ghost use Rattle.eip_line.specs.Links.{link_failure};

use crate::link::{Link, LinkFault};
use crate::reading::{new_piece, read_behind};
use eip_text::NoMemory;
use eip_uri::Uri;
use memchr::memchr;
use std::alloc::Global;
use std::marker::Model;

/// The number of bytes, 1,048,576, within which a line must end.
pub const LONGEST: usize = 1_048_576;

/// The bytes that came from a link and belong to no line yet.
#[derive(Drop)]
pub struct LineBuffer {
    bytes: Vec<u8>,
    /// How many of the bytes were taken already.
    start: usize,
    /// How many bytes behind them are known to hold no LF, so that none is looked at twice.
    searched: usize,
    piece: Vec<u8>,
}

impl Model for LineBuffer {
    ghost use Rattle.std.specs.Prelude.{List, ℕ, ◌≤◌, ◌<◌, drop, vec_len};
    ghost use Rattle.eip_line.specs.Lines.{line_length};

    ghost Value = { List ℕ };

    ghost view = { λ b. drop b.start b.bytes.items };

    ghost invariant = { λ b. (b.start ≤ vec_len b.bytes) × (b.searched ≤ line_length (drop b.start b.bytes.items)) × (0 < vec_len b.piece) };
}

/// How many bytes stand before the first LF, or all of them where there is none. The first `searched` hold none.
fn line_length_behind(bytes: &[u8], searched: usize) -> usize
    requires { searched ≤ line_length bytes.now }
    ensures { result ≡ line_length bytes.now }
{
    let (_, unseen) = bytes.split_at(searched);
    match memchr(b'\n', unseen) {
        Some(index) => searched + index,
        None => bytes.len(),
    }
}

/// Drops the first `count` bytes, in a time that grows with all of them.
fn drop_front(bytes: &mut Vec<u8>, count: usize)
    requires { count ≤ vec_len bytes.old }
    ensures { bytes.new.items ≡ drop count bytes.old.items }
{
    let kept = bytes.len() - count;
    bytes.rotate_left(count);
    bytes.truncate(kept);
}

impl LineBuffer {
    /// An empty buffer.
    pub fn new(alloc: Global) -> Result<LineBuffer, NoMemory>
        ensures { IfOk result (λ b. b ≡ []) }
    {
        Ok(LineBuffer {
            bytes: Vec::new(alloc),
            start: 0,
            searched: 0,
            piece: new_piece(alloc)?,
        })
    }

    /// The bytes, the oldest first.
    pub fn bytes(&self) -> &[u8]
        ensures { result.now ≡ self.now }
    {
        &self.bytes.as_slice()[self.start..]
    }

    /// How many bytes stand before the first LF, or all of them where there is none.
    fn line_length(&mut self) -> usize
        ensures length { result ≡ line_length self.old }
        ensures same { self.new ≡ self.old }
    {
        let bytes = &self.bytes.as_slice()[self.start..];
        let length = line_length_behind(bytes, self.searched);
        self.searched = length;
        length
    }

    /// Takes the first `count` bytes out.
    pub fn take_front(&mut self, count: usize)
        requires { count ≤ length self.old }
        ensures { self.new ≡ drop count self.old }
    {
        self.start += count;
        self.searched = 0;
    }

    /// Uses the room of the bytes that were taken again, once they are more than half of all.
    fn reuse_room(&mut self)
        ensures { self.new ≡ self.old }
    {
        if self.start > self.bytes.len() / 2 {
            drop_front(&mut self.bytes, self.start);
            self.start = 0;
        }
    }

    /// Reads once, and puts what came behind the bytes: whether any came, which at the end of what the link has is
    /// false.
    fn refill<L: Link>(&mut self, link: &mut L, from: &Uri) -> Result<bool, LinkFault>
        ensures refilled { Refilled self.old (L.unread link.old) result self.new (L.unread link.new) }
        ensures written { L.written link.new ≡ L.written link.old }
        ensures faults { Rises (link_failure result) (L.link_faults link.old) (L.link_faults link.new) }
    {
        self.reuse_room();
        read_behind(&mut self.bytes, self.piece.as_mut_slice(), link, from)
    }

    /// Reads until an LF, 1,048,576 bytes or the end of what the link has came, and answers how many bytes stand
    /// before the first LF, or all of them where there is none. An LF that is there already is found without a
    /// reading. `Failed` comes where the link failed; what came stays.
    pub fn gather<L: Link>(&mut self, link: &mut L, from: &Uri) -> Result<usize, LinkFault>
        ensures gathered { Gathered self.old (L.unread link.old) result self.new (L.unread link.new) }
        ensures ready { line_length self.old < length self.old → IsOk result }
        ensures written { L.written link.new ≡ L.written link.old }
        ensures faults { Rises (link_failure result) (L.link_faults link.old) (L.link_faults link.new) }
    {
        'pieces: loop {
            let length = self.line_length();
            if length < self.bytes().len() || length >= LONGEST {
                return Ok(length);
            }
            match self.refill(link, from) {
                Ok(true) => {}
                Ok(false) => return Ok(length),
                Err(fault) => return Err(fault),
            }
        }
    }
}
