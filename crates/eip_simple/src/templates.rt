ghost use Rattle.std.specs.Prelude.{◌≡◌, ◌≤◌, ◌<◌, ◌++◌, length, string_bytes, IfOk, IsErrOf, OnOk};
ghost use Rattle.eip_simple.specs.Views.{seen};
ghost use Rattle.eip_simple.specs.Values.{part_value, template_value};

use crate::functions::function_value;
use crate::values::ValueFault;
use crate::view::View;
use eip_simple_read::{Part, Template};
use eip_text::Text;
use std::alloc::Global;

/// The value of a template, of at most so many bytes.
#[tactic(auto, unfolding(crate::specs::Values::template_value))]
pub fn joined(
    alloc: Global,
    template: &Template,
    view: &View,
    limit: usize,
) -> Result<Text, ValueFault>
    ensures value { IfOk result (λ t. t ≡ template_value template.now (seen view.now)) }
    ensures fits { IfOk result (λ t. length t ≤ limit) }
    ensures too_long { IsErrOf result ValueFault.TooLong → limit < length (template_value template.now (seen view.now)) }
{
    let mut out = String::new(alloc);
    for part in template.parts.items() {
        push_part(alloc, &mut out, part, view, limit)?;
    }
    Ok(Text::of(out))
}

/// Appends a part's text.
fn push_part(
    alloc: Global,
    out: &mut String,
    part: &Part,
    view: &View,
    limit: usize,
) -> Result<(), ValueFault>
    requires { length (string_bytes out.old) ≤ limit }
    ensures pushed { OnOk result (string_bytes out.new ≡ string_bytes out.old ++ part_value (seen view.now) part.now) }
    ensures fits { OnOk result (length (string_bytes out.new) ≤ limit) }
    ensures too_long { IsErrOf result ValueFault.TooLong → limit < length (string_bytes out.old ++ part_value (seen view.now) part.now) }
{
    match part {
        Part::Plain(text) => push(out, text.as_str(), limit),
        Part::Call(function) => match function_value(alloc, function, view)? {
            Some(text) => push(out, text.as_str(), limit),
            None => Ok(()),
        },
    }
}

/// Appends a text, unless there are then more bytes than the limit.
fn push(out: &mut String, text: &str, limit: usize) -> Result<(), ValueFault>
    requires { length (string_bytes out.old) ≤ limit }
    ensures pushed { OnOk result (string_bytes out.new ≡ string_bytes out.old ++ text.now) }
    ensures fits { OnOk result (length (string_bytes out.new) ≤ limit) }
    ensures too_long { IsErrOf result ValueFault.TooLong → limit < length (string_bytes out.old ++ text.now) }
{
    if text.len() > limit - out.len() {
        return Err(ValueFault::TooLong);
    }
    out.push_str(text)?;
    Ok(())
}
