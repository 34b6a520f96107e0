ghost use Rattle.std.specs.Prelude.{◌≡◌, ◌++◌, IfOk, OnOk, string_bytes};
ghost use Rattle.eip_endbook.specs.Texts.{log_of};

use crate::lines::push_note;
use eip_hub::Hub;
use eip_text::{NoMemory, Text};
use std::alloc::Global;

/// The log of a run: for each answer to a step `log`, in the journal's order, a line `log N NAME: TEXT` with the exchange's number,
/// the log's name, and the text escaped (Camel manual, *Log* component).
pub fn log_text(alloc: Global, hub: &Hub) -> Result<Text, NoMemory>
    ensures { IfOk result (λ t. t ≡ log_of hub.now) }
{
    let mut out = String::new(alloc);
    push_log(&mut out, hub)?;
    Ok(Text::of(out))
}

/// Appends the log of a run. Where memory is wanting, a front part may stand in `out`.
pub fn push_log(out: &mut String, hub: &Hub) -> Result<(), NoMemory>
    ensures { OnOk result (string_bytes out.new ≡ string_bytes out.old ++ log_of hub.now) }
{
    for note in hub.notes() {
        push_note(out, note)?;
    }
    Ok(())
}
