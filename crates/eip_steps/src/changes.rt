ghost use Rattle.std.specs.Prelude.{◌≡◌, IfOk};
ghost use Rattle.eip_meaning.specs.Values.{with_body, with_property, without_the_header};
ghost use Rattle.eip_progress.specs.declared.tried.Tried.TheVariants as tried;
ghost use Rattle.eip_progress.specs.FirstTry.{value_tried, header_tried};
ghost use Rattle.eip_parts.specs.Effects.{tried_of};

use crate::steps::is_too_long;
use eip_exchange::{Fault, HeaderFault, Message};
use eip_parts::Effect;
use eip_text::{NoMemory, Text};
use std::alloc::Global;

// What the steps do that only change the message.

/// The value is the body (Camel manual, *Set Body EIP*).
pub fn set_body(
    alloc: Global,
    value: Option<Text>,
    message: &mut Message,
) -> Result<Effect, NoMemory>
    ensures { IfOk result (λ e. tried_of e message.new ≡ value_tried value message.old (λ v. tried.Goes (with_body message.old v))) }
{
    let Some(value) = value else {
        return is_too_long(alloc);
    };
    message.body = value;
    Ok(Effect::Goes)
}

/// The value is that of the header with this name (Camel manual, *Set Header EIP*).
pub fn set_header(
    alloc: Global,
    name: &Text,
    value: Option<Text>,
    message: &mut Message,
) -> Result<Effect, NoMemory>
    ensures { IfOk result (λ e. tried_of e message.new ≡ value_tried value message.old (λ v. header_tried name.now v message.old)) }
{
    match value {
        Some(value) => put_header(alloc, name, value, message),
        None => is_too_long(alloc),
    }
}

fn put_header(
    alloc: Global,
    name: &Text,
    value: Text,
    message: &mut Message,
) -> Result<Effect, NoMemory>
    ensures { IfOk result (λ e. tried_of e message.new ≡ header_tried name.now value message.old) }
{
    match message.headers.set(name.copy()?, value) {
        Ok(()) => Ok(Effect::Goes),
        Err(HeaderFault::TooManyHeaders) => {
            let fault = Fault {
                kind: Text::of_str(alloc, "TooManyHeaders")?,
                text: name.copy()?,
            };
            Effect::faulting(alloc, fault, false)
        }
        Err(HeaderFault::NoMemory) => Err(NoMemory),
    }
}

/// The value is that of the property with this name (Camel manual, *Set Property EIP*).
pub fn set_property(
    alloc: Global,
    name: &Text,
    value: Option<Text>,
    message: &mut Message,
) -> Result<Effect, NoMemory>
    ensures { IfOk result (λ e. tried_of e message.new ≡ value_tried value message.old (λ v. tried.Goes (with_property message.old name.now v))) }
{
    let Some(value) = value else {
        return is_too_long(alloc);
    };
    message.properties.set(name.copy()?, value)?;
    Ok(Effect::Goes)
}

/// The header with this name is taken off (Camel manual, *Remove Header EIP*).
pub fn remove_header(name: &Text, message: &mut Message) -> Result<Effect, NoMemory>
    ensures { IfOk result (λ e. tried_of e message.new ≡ tried.Goes (without_the_header message.old name.now)) }
{
    let _ = message.headers.remove(name.bytes())?;
    Ok(Effect::Goes)
}
