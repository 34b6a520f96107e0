ghost use Rattle.std.specs.Prelude.{◌≡◌, ◌≤◌, ◌-◌, length, drop as dropped};

use eip_text::NoMemory;
use std::alloc::Global;
use std::marker::Model;

/// Bytes of which those in front are read and not needed any more. Contracts see those that are left.
#[derive(Drop)]
pub struct Rest {
    bytes: Vec<u8>,
    // How many of them were read.
    at: usize,
}

impl Model for Rest {
    ghost use Rattle.std.specs.Prelude.{List, ℕ, drop as dropped, length, ◌≤◌};

    ghost Value = { List ℕ };

    ghost view = { λ r. dropped r.at r.bytes.items };

    ghost invariant = { λ r. r.at ≤ length r.bytes.items };
}

impl Rest {
    /// All of these bytes are left.
    pub fn new(bytes: Vec<u8>) -> Rest
        ensures { result ≡ bytes.items }
    {
        Rest { bytes, at: 0 }
    }

    /// The bytes that are left.
    pub fn bytes(&self) -> &[u8]
        ensures { result.now ≡ self.now }
    {
        &self.bytes[self.at..]
    }

    /// Only the last ones are left, so many. Where these are less than half of the bytes that are held, the others are given up. On
    /// `NoMemory` the same are left.
    pub fn leave(&mut self, alloc: Global, left: usize) -> Result<(), NoMemory>
        requires { left ≤ length self.old }
        ensures { self.new ≡ dropped (length self.old - left) self.old }
    {
        self.at = self.bytes.len() - left;
        if left < self.at {
            let fewer = Vec::from_slice(alloc, &self.bytes[self.at..])?;
            self.bytes = fewer;
            self.at = 0;
        }
        Ok(())
    }
}
