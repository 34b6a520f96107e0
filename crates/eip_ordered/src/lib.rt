// Ordered maps from numbers, as tables keep their rows. The lemmas on what ordered maps and sets tell are of this crate too.
#![tactic(auto)]

ghost use Rattle.std.specs.Prelude.{◌≡◌, OnOk, OnErr, IfNone, Some, None};
ghost use Rattle.eip_ordered.specs.Numbered.{value_at, Puts};

use eip_text::NoMemory;
use std::collections::BTreeMap;

/// Puts a value at a number.
pub fn put<T: Drop>(map: &mut BTreeMap<u64, T>, number: u64, value: T) -> Result<(), NoMemory>
    ensures ok { OnOk result (Puts map.old.entries map.new.entries number (Some value)) }
    ensures err { OnErr result (map.new.entries ≡ map.old.entries) }
{
    drop(map.insert(number, value)?);
    Ok(())
}

/// Takes the value at a number out, where there is one. It takes no memory.
pub fn take<T>(map: &mut BTreeMap<u64, T>, number: u64) -> Option<T>
    ensures value { result ≡ value_at map.old.entries number }
    ensures rest { Puts map.old.entries map.new.entries number None }
    ensures none { IfNone result (map.new.entries ≡ map.old.entries) }
{
    map.remove(&number)
}
