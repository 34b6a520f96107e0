ghost use Rattle.std.specs.Prelude.{◌≡◌, ◌++◌, [], ◌∷◌, IfOk, OnOk, OnErr};

use eip_turnstile::Chronicle;
use std::alloc::{AllocError, Global};

/// What the tests lock: numbers, each with that of the seat that wrote it, under a name that stays.
#[derive(Drop)]
pub struct Log {
    pub name: u64,
    pub entries: Vec<(u32, u64)>,
}

impl Chronicle for Log {
    type Entry = u64;

    type Base = u64;

    ghost entries = { λ log. log.entries.items };

    ghost base = { λ log. log.name };

    fn length(&self) -> u64 {
        self.entries.len() as u64
    }
}

impl Log {
    /// There is room for so many entries, so that none of them is refused.
    pub fn new(alloc: Global, name: u64, room: usize) -> Result<Log, AllocError>
        ensures { IfOk result (λ log. (log.name ≡ name) × (log.entries.items ≡ [])) }
    {
        let mut entries = Vec::new(alloc);
        entries.reserve(room)?;
        Ok(Log { name, entries })
    }

    pub fn append(&mut self, number: u32, entry: u64) -> Result<(), AllocError>
        ensures name { self.new.name ≡ self.old.name }
        ensures ok { OnOk result (self.new.entries.items ≡ self.old.entries.items ++ (number, entry) ∷ []) }
        ensures err { OnErr result (self.new.entries.items ≡ self.old.entries.items) }
    {
        self.entries.push((number, entry))?;
        Ok(())
    }
}
