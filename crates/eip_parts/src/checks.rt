ghost use Rattle.std.specs.Prelude.{◌≡◌, ℕ, Bool, IfOk, drop};
ghost use Rattle.eip_exchange.specs.declared.message.Message.{Message as AMessage};
ghost use Rattle.eip_progress.specs.declared.tried.Progress.{Progress as AProgress};
ghost use Rattle.eip_progress.specs.declared.tried.Tried.{Tried as ATried};
ghost use Rattle.eip_simple.specs.Holding.{predicate_holds};
ghost use Rattle.eip_meaning.specs.Values.{seen_in};
ghost use Rattle.eip_meaning.specs.Checks.{held};
ghost use Rattle.eip_progress.specs.FirstTry.{check_tried, nested_if, nested_where, choice_tried};
ghost use Rattle.eip_parts.specs.Effects.{tried_of};
ghost use Rattle.eip_parts.specs.Knowing.{known_tried};

use crate::effect::Effect;
use crate::values::{empty, route_id};
use eip_exchange::Message;
use eip_frames::{Answer, Request};
use eip_meaning::Context;
use eip_progress::Progress;
use eip_route::{Check, RouteSet};
use eip_simple::{View, holds};
use eip_simple_read::Predicate;
use eip_text::NoMemory;
use std::alloc::Global;

/// What is known of a check.
#[derive(Drop)]
pub enum Known {
    /// Whether it holds.
    Is(bool),
    /// This is asked first.
    Asks(Request),
}

/// A check on a message; one that is handed in is asked for.
pub fn checked(
    alloc: Global,
    set: &RouteSet,
    context: Context,
    check: &Check,
    message: &Message,
) -> Result<Known, NoMemory>
    ensures { IfOk result (λ r. (g : AProgress) (m : AMessage) (k : Bool → ATried) → known_tried r g m k ≡ check_tried set.now context check.now g message.now m k) }
{
    match check {
        Check::Simple(predicate) => Ok(Known::Is(simple_holds(
            alloc, set, context, predicate, message,
        )?)),
        Check::Fixed(holds) => Ok(Known::Is(*holds)),
        Check::Stored(name) => Ok(Known::Asks(Request::Test {
            name: name.copy()?,
            message: message.copy(alloc)?,
        })),
    }
}

fn simple_holds(
    alloc: Global,
    set: &RouteSet,
    context: Context,
    predicate: &Predicate,
    message: &Message,
) -> Result<bool, NoMemory>
    ensures { IfOk result (λ b. b ≡ predicate_holds predicate.now (seen_in set.now context message.now)) }
{
    let none = empty(alloc);
    let view = View {
        message,
        number: context.number,
        route: route_id(set, context.route, &none),
    };
    holds(alloc, predicate, &view)
}

/// What is answered of a check that was handed in.
pub fn held(answer: &Answer) -> bool
    ensures { result ≡ held answer.now }
{
    match answer {
        Answer::Holds(holds) => *holds,
        _ => false,
    }
}

/// The block, where the check holds (Camel manual, *Filter EIP*).
pub fn nested_if(holds: bool, block: u32) -> Effect
    ensures { (m : AMessage) → tried_of result m ≡ nested_if holds block m }
{
    if holds {
        Effect::Enters(block)
    } else {
        Effect::Goes
    }
}

pub fn filter(
    alloc: Global,
    set: &RouteSet,
    context: Context,
    check: &Check,
    block: u32,
    message: &Message,
) -> Result<Effect, NoMemory>
    ensures { IfOk result (λ e. tried_of e message.now ≡ check_tried set.now context check.now Progress.First message.now message.now (λ holds. nested_if holds block message.now)) }
{
    match checked(alloc, set, context, check, message)? {
        Known::Is(holds) => Ok(nested_if(holds, block)),
        Known::Asks(request) => Effect::asking(alloc, Progress::First, request, 0),
    }
}

/// The block of the first case from an index on that holds, else the last one (Camel manual, *Choice EIP*).
pub fn choose(
    alloc: Global,
    set: &RouteSet,
    context: Context,
    cases: &[(Check, u32)],
    otherwise: Option<u32>,
    from: usize,
    message: &Message,
) -> Result<Effect, NoMemory>
    ensures { IfOk result (λ e. tried_of e message.now ≡ choice_tried set.now context from (drop from cases.now) otherwise message.now) }
{
    let mut index = from;
    while index < cases.len() {
        let case = &cases[index];
        match checked(alloc, set, context, &case.0, message)? {
            Known::Is(holds) => {
                if holds {
                    return Ok(Effect::Enters(case.1));
                }
            }
            Known::Asks(request) => {
                return Effect::asking(alloc, Progress::Choosing(index), request, 0);
            }
        }
        index += 1;
    }
    Ok(nested_where(otherwise))
}

fn nested_where(block: Option<u32>) -> Effect
    ensures { (m : AMessage) → tried_of result m ≡ nested_where block m }
{
    match block {
        Some(block) => Effect::Enters(block),
        None => Effect::Goes,
    }
}
