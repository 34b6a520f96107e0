ghost use Rattle.std.specs.Prelude.{◌≡◌, ℕ, Bool, false, cond, IfOk, drop, slice_get};
ghost use Rattle.std.specs.List.{list_any};
ghost use Rattle.eip_exchange.specs.declared.message.Message.{Message as AMessage};
ghost use Rattle.eip_progress.specs.declared.tried.Progress.{Progress as AProgress};
ghost use Rattle.eip_progress.specs.declared.tried.Tried.{Tried as ATried};
ghost use Rattle.eip_meaning.specs.Parts.{fault_of_end, or_fault, parts_in};
ghost use Rattle.eip_meaning.specs.Tries.{names_kind};
ghost use Rattle.eip_progress.specs.FirstTry.{part_tried};
ghost use Rattle.eip_progress.specs.Answered.{ends_tried, finally_tried, when_tried, catches_tried, block_left, part_left, only_left, catch_held, try_on};
ghost use Rattle.eip_parts.specs.Effects.{tried_of};
ghost use Rattle.eip_parts.specs.Knowing.{known_tried};

use crate::checks::{Known, checked, held};
use crate::effect::Effect;
use crate::fans::{block_seed, one, waits};
use crate::messages::set_content;
use eip_copies::copy_pending;
use eip_error_handler::last_segment;
use eip_exchange::{Care, End, Ended, Fault, Message};
use eip_frames::{Answer, Request};
use eip_meaning::Context;
use eip_progress::Progress;
use eip_route::{Catch, Check, RouteSet};
use eip_text::{NoMemory, Text};
use std::alloc::Global;

/// A block runs as the part of a doTry with this index: 0 is its block, 1 a catch, 2 the last one.
pub fn part(
    alloc: Global,
    index: u32,
    pending: Option<Fault>,
    block: u32,
    latest: Message,
) -> Result<Effect, NoMemory>
    ensures { IfOk result (λ e. (m : AMessage) → tried_of e m ≡ part_tried index pending block latest m) }
{
    let parts = one(alloc, block_seed(Care::Bare, block, latest))?;
    let progress = Progress::Entering {
        part: index,
        pending,
    };
    Effect::asking(alloc, progress, Request::Spawn { parts }, index)
}

/// What an answer gives at a doTry (Camel manual, *doTry*).
pub fn try_answered(
    alloc: Global,
    set: &RouteSet,
    context: Context,
    catches: &[Catch],
    finish: Option<u32>,
    progress: &Progress,
    message: &mut Message,
    answer: &Answer,
) -> Result<Effect, NoMemory>
    ensures { IfOk result (λ e. tried_of e message.new ≡ try_on set.now context catches.now finish progress.now message.old answer.now) }
{
    match progress {
        Progress::Entering { part, pending } => {
            let progress = leaving(*part, pending)?;
            Effect::asking(alloc, progress, waits(answer), *part)
        }
        Progress::Leaving { part, pending } => {
            let pending = copy_pending(pending)?;
            left(
                alloc, set, context, catches, finish, *part, pending, message, answer,
            )
        }
        Progress::Testing {
            index,
            fault,
            latest,
        } => {
            let fault = fault.copy()?;
            let latest = latest.copy(alloc)?;
            let holds = held(answer);
            caught(
                alloc, set, context, catches, finish, *index, holds, fault, latest, message,
            )
        }
        Progress::First
        | Progress::Choosing(_)
        | Progress::SpawningAll
        | Progress::JoiningAll
        | Progress::Spawning { .. }
        | Progress::Joining { .. } => Ok(Effect::Goes),
    }
}

/// The part at this index is waited for, with this fault pending.
fn leaving(part: u32, pending: &Option<Fault>) -> Result<Progress, NoMemory>
    ensures { IfOk result (λ p. p ≡ Progress.Leaving part pending.now) }
{
    let pending = copy_pending(pending)?;
    Ok(Progress::Leaving { part, pending })
}

/// The one part that was waited for has ended.
fn left(
    alloc: Global,
    set: &RouteSet,
    context: Context,
    catches: &[Catch],
    finish: Option<u32>,
    part: u32,
    pending: Option<Fault>,
    message: &mut Message,
    answer: &Answer,
) -> Result<Effect, NoMemory>
    ensures { IfOk result (λ e. tried_of e message.new ≡ only_left set.now context catches.now finish part pending (parts_in answer.now) message.old) }
{
    let Answer::Joined(parts) = answer else {
        return Ok(Effect::Goes);
    };
    only_left(
        alloc,
        set,
        context,
        catches,
        finish,
        part,
        pending,
        parts.items(),
        message,
    )
}

fn only_left(
    alloc: Global,
    set: &RouteSet,
    context: Context,
    catches: &[Catch],
    finish: Option<u32>,
    part: u32,
    pending: Option<Fault>,
    parts: &[Ended],
    message: &mut Message,
) -> Result<Effect, NoMemory>
    ensures { IfOk result (λ e. tried_of e message.new ≡ only_left set.now context catches.now finish part pending parts.now message.old) }
{
    match parts.first() {
        Some(ended) => {
            let ended = ended.copy(alloc)?;
            part_left(
                alloc, set, context, catches, finish, part, pending, ended, message,
            )
        }
        None => Ok(Effect::Goes),
    }
}

#[tactic(auto, using(crate::proofs::LastParts::last_part))]
fn part_left(
    alloc: Global,
    set: &RouteSet,
    context: Context,
    catches: &[Catch],
    finish: Option<u32>,
    part: u32,
    pending: Option<Fault>,
    ended: Ended,
    message: &mut Message,
) -> Result<Effect, NoMemory>
    ensures { IfOk result (λ e. tried_of e message.new ≡ part_left set.now context catches.now finish part pending ended message.old) }
{
    let Ended {
        end,
        message: latest,
    } = ended;
    let fault = fault_of_end(end);
    match part {
        0 => block_left(alloc, set, context, catches, finish, fault, latest, message),
        1 => finally(alloc, finish, fault, latest, message),
        _ => ends(alloc, or_fault(fault, pending), latest, message),
    }
}

fn fault_of_end(end: End) -> Option<Fault>
    ensures { result ≡ fault_of_end end }
{
    match end {
        End::Completed => None,
        End::Handled => None,
        End::Failed(fault) => Some(fault),
    }
}

fn or_fault(first: Option<Fault>, second: Option<Fault>) -> Option<Fault>
    ensures { result ≡ or_fault first second }
{
    match first {
        Some(fault) => Some(fault),
        None => second,
    }
}

fn block_left(
    alloc: Global,
    set: &RouteSet,
    context: Context,
    catches: &[Catch],
    finish: Option<u32>,
    fault: Option<Fault>,
    latest: Message,
    message: &mut Message,
) -> Result<Effect, NoMemory>
    ensures { IfOk result (λ e. tried_of e message.new ≡ block_left set.now context catches.now finish fault latest message.old) }
{
    match fault {
        Some(fault) => {
            catch_from(
                alloc, set, context, catches, finish, 0, fault, latest, message,
            )
        }
        None => finally(alloc, finish, None, latest, message),
    }
}

/// The check of the catch at this index has been answered.
#[tactic(auto, using(crate::proofs::LastParts::not_there, crate::proofs::LastParts::passed_by))]
fn caught(
    alloc: Global,
    set: &RouteSet,
    context: Context,
    catches: &[Catch],
    finish: Option<u32>,
    index: usize,
    holds: bool,
    fault: Fault,
    latest: Message,
    message: &mut Message,
) -> Result<Effect, NoMemory>
    ensures { IfOk result (λ e. tried_of e message.new ≡ catch_held set.now context catches.now finish index (slice_get catches.now index) holds fault latest message.old) }
{
    if index < catches.len() {
        if holds {
            part(alloc, 1, None, catches[index].block, latest)
        } else {
            catch_from(
                alloc,
                set,
                context,
                catches,
                finish,
                index + 1,
                fault,
                latest,
                message,
            )
        }
    } else {
        Ok(Effect::Goes)
    }
}

/// The first catch from an index on that takes the fault runs; without one the fault is pending.
fn catch_from(
    alloc: Global,
    set: &RouteSet,
    context: Context,
    catches: &[Catch],
    finish: Option<u32>,
    from: usize,
    fault: Fault,
    latest: Message,
    message: &mut Message,
) -> Result<Effect, NoMemory>
    ensures { IfOk result (λ e. tried_of e message.new ≡ catches_tried set.now context finish from (drop from catches.now) fault latest message.old) }
{
    let mut index = from;
    while index < catches.len() {
        let catch = &catches[index];
        match takes(alloc, set, context, catch, &fault, &latest)? {
            Known::Is(holds) => {
                if holds {
                    return part(alloc, 1, None, catch.block, latest);
                }
            }
            Known::Asks(request) => {
                let progress = Progress::Testing {
                    index,
                    fault,
                    latest,
                };
                return Effect::asking(alloc, progress, request, 0);
            }
        }
        index += 1;
    }
    finally(alloc, finish, Some(fault), latest, message)
}

/// Whether a catch takes a fault, with which the block failed on this message.
fn takes(
    alloc: Global,
    set: &RouteSet,
    context: Context,
    catch: &Catch,
    fault: &Fault,
    latest: &Message,
) -> Result<Known, NoMemory>
    ensures { IfOk result (λ r. (g : AProgress) (m : AMessage) (k : Bool → ATried) → known_tried r g m k
        ≡ cond (list_any (names_kind fault.now.kind) catch.now.names) (when_tried set.now context catch.now.when g latest.now m k) (k false)) }
{
    if names_fault(catch.names.items(), &fault.kind) {
        let known = tested(alloc, set, context, &catch.when, latest)?;
        Ok(known)
    } else {
        Ok(Known::Is(false))
    }
}

fn tested(
    alloc: Global,
    set: &RouteSet,
    context: Context,
    when: &Option<Check>,
    latest: &Message,
) -> Result<Known, NoMemory>
    ensures { IfOk result (λ r. (g : AProgress) (m : AMessage) (k : Bool → ATried) → known_tried r g m k ≡ when_tried set.now context when.now g latest.now m k) }
{
    match when {
        Some(check) => {
            let known = checked(alloc, set, context, check, latest)?;
            Ok(known)
        }
        None => Ok(Known::Is(true)),
    }
}

fn names_fault(names: &[Text], kind: &Text) -> bool
    ensures { result ≡ list_any (names_kind kind.now) names.now }
{
    for name in names {
        if names_kind(kind.as_str(), name.as_str()) {
            return true;
        }
    }
    false
}

/// Whether a name's last segment is this kind, or stands for every kind.
fn names_kind(kind: &str, name: &str) -> bool
    ensures { result ≡ names_kind kind.now name.now }
{
    let segment = last_segment(name);
    segment == kind || segment == "Exception"
}

/// The last block runs on the latest message, whatever came before.
fn finally(
    alloc: Global,
    finish: Option<u32>,
    pending: Option<Fault>,
    latest: Message,
    message: &mut Message,
) -> Result<Effect, NoMemory>
    ensures { IfOk result (λ e. tried_of e message.new ≡ finally_tried finish pending latest message.old) }
{
    match finish {
        Some(block) => part(alloc, 2, pending, block, latest),
        None => ends(alloc, pending, latest, message),
    }
}

fn ends(
    alloc: Global,
    pending: Option<Fault>,
    latest: Message,
    message: &mut Message,
) -> Result<Effect, NoMemory>
    ensures { IfOk result (λ e. tried_of e message.new ≡ ends_tried pending latest message.old) }
{
    match pending {
        Some(fault) => Effect::faulting(alloc, fault, false),
        None => {
            set_content(message, latest);
            Ok(Effect::Goes)
        }
    }
}
