use std::io::{Error, ErrorKind, Read};

/// A reader in memory that gives at most `size` bytes at once. The call with the number `failing`, from 1, fails.
#[derive(Drop)]
pub struct Pieces<'a> {
    pub bytes: &'a [u8],
    size: usize,
    failing: u64,
    calls: u64,
}

impl<'a> Pieces<'a> {
    pub fn new(bytes: &'a [u8], size: usize, failing: u64) -> Pieces<'a> {
        Pieces {
            bytes,
            size,
            failing,
            calls: 0,
        }
    }
}

impl Read for Pieces<'_> {
    fn read(&mut self, buf: &mut [u8]) -> Result<usize, Error> {
        self.calls = self.calls.saturating_add(1);
        if self.calls == self.failing {
            return Err(Error::from(ErrorKind::Other));
        }
        let count = self.size.min(self.bytes.len()).min(buf.len());
        let (front, rest) = self.bytes.split_at(count);
        buf[..count].copy_from_slice(front);
        self.bytes = rest;
        Ok(count)
    }
}
