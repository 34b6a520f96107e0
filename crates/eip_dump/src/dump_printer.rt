ghost use Rattle.std.specs.Prelude.{◌≡◌, ◌++◌, IfOk, OnOk, string_bytes};
ghost use Rattle.eip_dump.specs.Dump.{lines, dump_text};

use crate::entry_printer::push_entry;
use crate::first_line::{First, push_first};
use eip_ledger::{Entry, Journal};
use eip_text::{NoMemory, Text};
use std::alloc::Global;

/// Appends the lines of entries. Where memory is wanting, a front part of them may stand there.
fn push_entries(out: &mut String, entries: &[Entry]) -> Result<(), NoMemory>
    ensures { OnOk result (string_bytes out.new ≡ string_bytes out.old ++ lines entries.now) }
{
    for entry in entries {
        push_entry(out, entry)?;
    }
    Ok(())
}

/// The text of a journal, in version 2: the line `eip-journal 2 WORKERS TURNS COUNT` with the number of entries, and then the
/// line of each entry, as `print_entry` prints it. `read_dump` reads the same journal from it.
#[tactic(auto, unfolding(crate::specs::Dump::dump_text))]
pub fn dump(alloc: Global, journal: &Journal) -> Result<Text, NoMemory>
    ensures { IfOk result (λ t. t ≡ dump_text journal.now) }
{
    let entries = journal.entries();
    let first = First {
        workers: journal.workers(),
        turns: journal.turns(),
        count: Some(entries.len() as u64),
    };
    let mut out = String::new(alloc);
    push_first(&mut out, first)?;
    push_entries(&mut out, entries)?;
    Ok(Text::of(out))
}
