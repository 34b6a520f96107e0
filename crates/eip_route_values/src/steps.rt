#![tactic(auto, using(eip_text::proofs::Levels::json_levels))]

ghost use Rattle.std.specs.Prelude.{◌≡◌, [], IfOk, option_map};
ghost use Rattle.eip_text.specs.Json.{members_json};
ghost use Rattle.eip_route_grammar.specs.Texts as texts;
ghost use Rattle.eip_route_grammar.specs.Objects as objects;
ghost use Rattle.eip_route_values.specs.Leaves as leaves;
ghost use Rattle.eip_route_values.specs.Nesting.{leaf_said, text_said};
ghost use Rattle.eip_route_values.specs.Parts as parts;

use crate::leaves::{text_at, text_of};
use crate::parts::{delimiter_in, endpoint, endpoint_in, expr_in, fan_in, template};
use eip_route::Step;
use eip_route_grammar::keys::Key;
use eip_route_grammar::objects::value_at;
use eip_route_grammar::texts::{last_segment, unhashed};
use eip_text::{NoMemory, Text, Tree};
use std::alloc::Global;

/// `setBody`: the value replaces the body.
fn set_body(alloc: Global, members: &[(Text, Tree)]) -> Result<Step, NoMemory>
    ensures { let ms = members_json members.now in
        IfOk result (λ s. s ≡ Step.SetBody (parts.expr_in ms)) }
{
    let value = expr_in(alloc, members)?;
    Ok(Step::SetBody(value))
}

/// `setHeader`: the value becomes the header of a name.
fn set_header(alloc: Global, members: &[(Text, Tree)]) -> Result<Step, NoMemory>
    ensures { let ms = members_json members.now in
        let name = leaves.text_at Key.Name ms in
        IfOk result (λ s. s ≡ Step.SetHeader name (parts.expr_in ms)) }
{
    let name = Text::of_str(alloc, text_at(Key::Name, members))?;
    let value = expr_in(alloc, members)?;
    Ok(Step::SetHeader { name, value })
}

/// `setProperty`: the value becomes the exchange property of a name.
fn set_property(alloc: Global, members: &[(Text, Tree)]) -> Result<Step, NoMemory>
    ensures { let ms = members_json members.now in
        let name = leaves.text_at Key.Name ms in
        IfOk result (λ s. s ≡ Step.SetProperty name (parts.expr_in ms)) }
{
    let name = Text::of_str(alloc, text_at(Key::Name, members))?;
    let value = expr_in(alloc, members)?;
    Ok(Step::SetProperty { name, value })
}

/// A header's name as a text.
fn remove_header_text(alloc: Global, name: &str) -> Result<Step, NoMemory>
    ensures { IfOk result (λ s. s ≡ Step.RemoveHeader name.now) }
{
    let name = Text::of_str(alloc, name)?;
    Ok(Step::RemoveHeader(name))
}

/// `removeHeader`: the header of a name goes.
fn remove_header(alloc: Global, members: &[(Text, Tree)]) -> Result<Step, NoMemory>
    ensures { let name = leaves.text_at Key.Name (members_json members.now) in
        IfOk result (λ s. s ≡ Step.RemoveHeader name) }
{
    remove_header_text(alloc, text_at(Key::Name, members))
}

/// What stands for no step, in a file with a fault.
pub fn nothing(alloc: Global) -> Result<Step, NoMemory>
    ensures { IfOk result (λ s. s ≡ Step.RemoveHeader []) }
{
    remove_header_text(alloc, "")
}

fn to_text(alloc: Global, text: &str) -> Result<Step, NoMemory>
    ensures { IfOk result (λ s. s ≡ Step.To (parts.endpoint text.now [])) }
{
    let uri = endpoint(alloc, text, &[])?;
    Ok(Step::To(uri))
}

/// `to`: the message goes to an endpoint.
fn to(alloc: Global, members: &[(Text, Tree)]) -> Result<Step, NoMemory>
    ensures { let ms = members_json members.now in
        IfOk result (λ s. s ≡ Step.To (parts.endpoint_in ms)) }
{
    let uri = endpoint_in(alloc, members)?;
    Ok(Step::To(uri))
}

fn log_text(alloc: Global, text: &str) -> Result<Step, NoMemory>
    ensures { IfOk result (λ s. s ≡ Step.Log None (parts.template text.now)) }
{
    let message = template(alloc, text)?;
    let name = None;
    Ok(Step::Log { name, message })
}

fn log_name(alloc: Global, members: &[(Text, Tree)]) -> Result<Option<Text>, NoMemory>
    ensures { IfOk result (λ n. n
        ≡ option_map leaves.text_of (objects.value_at Key.LogName (members_json members.now))) }
{
    match value_at(Key::LogName, members) {
        None => Ok(None),
        Some(tree) => Ok(Some(Text::of_str(alloc, text_of(tree))?)),
    }
}

/// `log`: a line of the log.
fn log(alloc: Global, members: &[(Text, Tree)]) -> Result<Step, NoMemory>
    ensures { let ms = members_json members.now in
        let name = option_map leaves.text_of (objects.value_at Key.LogName ms) in
        let message = parts.template (leaves.text_at Key.Message ms) in
        IfOk result (λ s. s ≡ Step.Log name message) }
{
    let name = log_name(alloc, members)?;
    let message = template(alloc, text_at(Key::Message, members))?;
    Ok(Step::Log { name, message })
}

/// `throwException`: a fault whose kind is the last segment of the exception's type.
fn throw(alloc: Global, members: &[(Text, Tree)]) -> Result<Step, NoMemory>
    ensures { let ms = members_json members.now in
        let kind = texts.last_segment (leaves.text_at Key.ExceptionType ms) in
        let message = parts.template (leaves.text_at Key.Message ms) in
        IfOk result (λ s. s ≡ Step.Throw kind message) }
{
    let kind = Text::of_str(alloc, last_segment(text_at(Key::ExceptionType, members)))?;
    let message = template(alloc, text_at(Key::Message, members))?;
    Ok(Step::Throw { kind, message })
}

fn process_text(alloc: Global, name: &str) -> Result<Step, NoMemory>
    ensures { IfOk result (λ s. s ≡ Step.Process (texts.unhashed name.now)) }
{
    let name = Text::of_str(alloc, unhashed(name))?;
    Ok(Step::Process(name))
}

/// `process`: the message is handed to a processor.
fn process(alloc: Global, members: &[(Text, Tree)]) -> Result<Step, NoMemory>
    ensures { let name = texts.unhashed (leaves.text_at Key.Ref (members_json members.now)) in
        IfOk result (λ s. s ≡ Step.Process name) }
{
    process_text(alloc, text_at(Key::Ref, members))
}

/// `recipientList`: a copy goes to each endpoint that a list names.
fn recipients(alloc: Global, members: &[(Text, Tree)]) -> Result<Step, NoMemory>
    ensures { let ms = members_json members.now in
        let delimiter = parts.delimiter_given (objects.value_at Key.Delimiter ms) in
        IfOk result (λ s. s ≡ Step.Recipients (parts.expr_in ms) delimiter (parts.fan_in ms)) }
{
    let list = expr_in(alloc, members)?;
    let delimiter = delimiter_in(alloc, members)?;
    let fan = fan_in(alloc, members)?;
    Ok(Step::Recipients {
        list,
        delimiter,
        fan,
    })
}

/// The step that an object says of a kind of step that holds no others (Camel manual, *YAML DSL*).
pub fn leaf_said(alloc: Global, step: Key, members: &[(Text, Tree)]) -> Result<Step, NoMemory>
    ensures { IfOk result (λ s. s ≡ leaf_said step (members_json members.now)) }
{
    match step {
        Key::SetBody => set_body(alloc, members),
        Key::SetHeader => set_header(alloc, members),
        Key::SetProperty => set_property(alloc, members),
        Key::RemoveHeader => remove_header(alloc, members),
        Key::To => to(alloc, members),
        Key::Log => log(alloc, members),
        Key::ThrowException => throw(alloc, members),
        Key::Process => process(alloc, members),
        Key::RecipientList => recipients(alloc, members),
        _ => nothing(alloc),
    }
}

/// The step that a text says of a kind of step.
pub fn text_said(alloc: Global, step: Key, text: &str) -> Result<Step, NoMemory>
    ensures { IfOk result (λ s. s ≡ text_said step text.now) }
{
    match step {
        Key::RemoveHeader => remove_header_text(alloc, text),
        Key::To => to_text(alloc, text),
        Key::Log => log_text(alloc, text),
        Key::Process => process_text(alloc, text),
        _ => nothing(alloc),
    }
}
