ghost use Rattle.std.specs.Prelude.{◌≡◌, ◌+◌, ◌<◌, ◌≤◌, IfSome};
ghost use Rattle.eip_tables.specs.Numbers.{IsNumberOf, AreRising};
ghost use Rattle.eip_tables.specs.Parts.{rows_behind, ready_behind};

use crate::rows::Rows;
use eip_tables::rising::RisingNumbers;

/// The parent whose last part has ended, where there is one, may act again; for its number there is room that was reserved.
pub fn wake(rows: &mut Rows, ready: &mut RisingNumbers, woken: Option<u64>)
    requires within { IfSome woken (λ y. IsNumberOf rows.old.items y) }
    requires room { 0 < ready.old.spare }
    requires rising { AreRising ready.old.numbers }
    ensures rows { rows.new.items ≡ rows_behind woken rows.old.items }
    ensures spare { rows.old.spare ≤ rows.new.spare }
    ensures numbers { ready.new.numbers ≡ ready_behind woken ready.old.numbers }
    ensures room { ready.old.spare ≤ ready.new.spare + 1 }
{
    if let Some(parent) = woken {
        rows.wake(parent);
        ready.put_in(parent);
    }
}
