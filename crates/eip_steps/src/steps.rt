ghost use Rattle.std.specs.Prelude.{◌≡◌, IfOk};
ghost use Rattle.eip_exchange.specs.declared.message.Message.{Message as AMessage};
ghost use Rattle.eip_meaning.specs.Meaning.{steps_of};
ghost use Rattle.eip_meaning.specs.Values.{too_long};
ghost use Rattle.eip_meaning.specs.Steps.{log_name, thrown, no_key, no_message_id};
ghost use Rattle.eip_progress.specs.FirstTry.{asks, faults, value_tried, not_empty, key_tried, listed_tried, first_tried};
ghost use Rattle.eip_meaning.specs.FanOuts.{listed};
ghost use Rattle.eip_parts.specs.Effects.{tried_of};

use crate::changes::{remove_header, set_body, set_header, set_property};
use crate::sends::{asks, try_to};
use eip_exchange::{Fault, Message};
use eip_frames::Request;
use eip_meaning::Context;
use eip_parts::checks::{choose, filter};
use eip_parts::fans::{multicast, recipient_list, split};
use eip_parts::faults::{bare_fault, too_long};
use eip_parts::values::{empty, evaluated, route_id, value_of};
use eip_parts::{Effect, part};
use eip_route::{Fan, RouteSet, Step};
use eip_text::{NoMemory, Text};
use std::alloc::Global;

/// The steps of a block; a block that isn't there has none.
pub fn steps_of(set: &RouteSet, block: u32) -> &[Step]
    ensures { result.now ≡ steps_of set.now block }
{
    match set.blocks.items().get(block as usize) {
        Some(found) => found.steps.items(),
        None => &[],
    }
}

/// One try of a step on a message, which stays in its place.
pub fn try_step(
    alloc: Global,
    set: &RouteSet,
    context: Context,
    step: &Step,
    message: &mut Message,
) -> Result<Effect, NoMemory>
    ensures { IfOk result (λ e. tried_of e message.new ≡ first_tried set.now context step.now message.old) }
{
    match step {
        Step::SetBody(value) => {
            let value = value_of(alloc, set, context, value, message)?;
            set_body(alloc, value, message)
        }
        Step::SetHeader { name, value } => {
            let value = value_of(alloc, set, context, value, message)?;
            set_header(alloc, name, value, message)
        }
        Step::SetProperty { name, value } => {
            let value = value_of(alloc, set, context, value, message)?;
            set_property(alloc, name, value, message)
        }
        Step::RemoveHeader(name) => remove_header(name, message),
        Step::To(uri) => try_to(alloc, set, context, uri, message),
        Step::Log {
            name,
            message: template,
        } => {
            let text = evaluated(alloc, set, context, template, message)?;
            log(alloc, log_name(alloc, set, context, name)?, text)
        }
        Step::Throw {
            kind,
            message: template,
        } => {
            let text = evaluated(alloc, set, context, template, message)?;
            Effect::faulting(alloc, thrown(alloc, kind, text)?, false)
        }
        Step::Process(name) => process(alloc, name, message),
        Step::Choice { cases, otherwise } => {
            choose(alloc, set, context, cases.items(), *otherwise, 0, message)
        }
        Step::Filter { check, block } => filter(alloc, set, context, check, *block, message),
        Step::Split { how, fan, block } => split(alloc, context, how, fan, *block, message),
        Step::Multicast { fan, blocks } => multicast(alloc, context, fan, blocks.items(), message),
        Step::Recipients {
            list,
            delimiter,
            fan,
        } => {
            let value = value_of(alloc, set, context, list, message)?;
            recipients(alloc, context, fan, delimiter, value, message)
        }
        Step::Aggregate(aggregate) => {
            let key = value_of(alloc, set, context, &aggregate.key, message)?;
            arrive(alloc, aggregate.block, key, message)
        }
        Step::Idempotent {
            key,
            repository,
            eager,
            remove,
            ..
        } => {
            let key = value_of(alloc, set, context, key, message)?;
            offer_key(alloc, repository, *eager, *remove, key)
        }
        Step::Try { block, .. } => part(alloc, 0, None, *block, message.copy(alloc)?),
    }
}

/// A line of the log is asked for (Camel manual, *Log EIP*).
fn log(alloc: Global, name: Text, text: Option<Text>) -> Result<Effect, NoMemory>
    ensures { IfOk result (λ e. (m : AMessage) → tried_of e m ≡ value_tried text m (λ v. asks (Request.Log name v) m)) }
{
    match text {
        Some(text) => asks(alloc, Request::Log { name, text }),
        None => is_too_long(alloc),
    }
}

/// A value is too long.
pub fn is_too_long(alloc: Global) -> Result<Effect, NoMemory>
    ensures { IfOk result (λ e. (m : AMessage) → tried_of e m ≡ faults too_long m) }
{
    Effect::faulting(alloc, too_long(alloc)?, false)
}

/// The name of a step's log: its own, or the route's.
fn log_name(
    alloc: Global,
    set: &RouteSet,
    context: Context,
    name: &Option<Text>,
) -> Result<Text, NoMemory>
    ensures { IfOk result (λ t. t ≡ log_name set.now context name.now) }
{
    match name {
        Some(name) => name.copy(),
        None => route_id(set, context.route, &empty(alloc)).copy(),
    }
}

/// The fault that is thrown.
fn thrown(alloc: Global, kind: &Text, text: Option<Text>) -> Result<Fault, NoMemory>
    ensures { IfOk result (λ f. f ≡ thrown kind.now text) }
{
    match text {
        Some(text) => Ok(Fault {
            kind: kind.copy()?,
            text,
        }),
        None => too_long(alloc),
    }
}

fn process(alloc: Global, name: &Text, message: &Message) -> Result<Effect, NoMemory>
    ensures { IfOk result (λ e. (m : AMessage) → tried_of e m ≡ asks (Request.Process name.now message.now) m) }
{
    let request = Request::Process {
        name: name.copy()?,
        message: message.copy(alloc)?,
    };
    asks(alloc, request)
}

fn recipients(
    alloc: Global,
    context: Context,
    fan: &Fan,
    delimiter: &Text,
    value: Option<Text>,
    message: &mut Message,
) -> Result<Effect, NoMemory>
    ensures { IfOk result (λ e. tried_of e message.new ≡ value_tried value message.old (λ v. listed_tried (listed delimiter.now v) context fan.now message.old)) }
{
    match value {
        Some(value) => recipient_list(alloc, context, fan, delimiter, &value, message),
        None => is_too_long(alloc),
    }
}

/// A copy joins the group of its key (Camel manual, *Aggregate EIP*).
fn arrive(
    alloc: Global,
    block: u32,
    key: Option<Text>,
    message: &Message,
) -> Result<Effect, NoMemory>
    ensures { IfOk result (λ e. (m : AMessage) → tried_of e m ≡ key_tried no_key key m (λ k. asks (Request.Arrive block k message.now) m)) }
{
    match key {
        Some(key) => arrive_by(alloc, block, key, message),
        None => is_too_long(alloc),
    }
}

#[tactic(auto, using(crate::proofs::Keys::empty_key, crate::proofs::Keys::filled_key))]
fn arrive_by(alloc: Global, block: u32, key: Text, message: &Message) -> Result<Effect, NoMemory>
    ensures { IfOk result (λ e. (m : AMessage) → tried_of e m ≡ not_empty no_key key m (λ k. asks (Request.Arrive block k message.now) m)) }
{
    if key.bytes().is_empty() {
        let fault = bare_fault(alloc, "InvalidCorrelationKey")?;
        return Effect::faulting(alloc, fault, false);
    }
    let copy = message.copy(alloc)?;
    let request = Request::Arrive {
        aggregator: block,
        key,
        message: copy,
    };
    asks(alloc, request)
}

/// A key is offered to a repository (Camel manual, *Idempotent Consumer EIP*).
#[tactic(auto, using(crate::proofs::Keys::empty_key, crate::proofs::Keys::filled_key))]
fn offer_key(
    alloc: Global,
    repository: &Text,
    eager: bool,
    remove: bool,
    key: Option<Text>,
) -> Result<Effect, NoMemory>
    ensures { IfOk result (λ e. (m : AMessage) → tried_of e m ≡ key_tried no_message_id key m (λ k. asks (Request.Idem repository.now k eager remove) m)) }
{
    let Some(key) = key else {
        return is_too_long(alloc);
    };
    if key.bytes().is_empty() {
        let fault = bare_fault(alloc, "NoMessageId")?;
        return Effect::faulting(alloc, fault, false);
    }
    let request = Request::Idem {
        repository: repository.copy()?,
        key,
        eager,
        remove,
    };
    asks(alloc, request)
}
