ghost use Rattle.std.specs.Prelude.{◌≡◌, ◌++◌, codes, decimal, IfOk, slice_get, unwrap_or};
ghost use Rattle.eip_exchange.specs.declared.message.Message.{Message as AMessage};
ghost use Rattle.eip_exchange.specs.Ends.{fault};
ghost use Rattle.eip_frames.specs.Targets.{target_text};
ghost use Rattle.eip_meaning.specs.Outcomes.{queue_of, queue_in, queue_full, fault_in, is_tried_again};
ghost use Rattle.eip_meaning.specs.Steps.{became, is_fresh};
ghost use Rattle.eip_progress.specs.Answered as on;
ghost use Rattle.eip_progress.specs.declared.tried.Tried.TheVariants as tried;
ghost use Rattle.eip_parts.specs.Effects.{tried_of};

use eip_exchange::{Fault, Message, Strategy};
use eip_frames::{Answer, Request, Target};
use eip_meaning::Context;
use eip_parts::checks::{choose, held, nested_if};
use eip_parts::fans::fan_answered;
use eip_parts::faults::told_fault;
use eip_parts::messages::mark_duplicate;
use eip_parts::{Effect, try_answered};
use eip_progress::Progress;
use eip_route::{Check, Goal, RouteSet, Step};
use eip_text::{NoMemory, Text, decimal};
use eip_uri::Uri;
use std::alloc::Global;

// ---- faults

/// The fault that an answer to a request is.
pub fn fault_of(
    alloc: Global,
    set: &RouteSet,
    request: &Request,
    answer: &Answer,
) -> Result<Option<Fault>, NoMemory>
    ensures { IfOk result (λ f. f ≡ fault_in set.now request.now answer.now) }
{
    match (request, answer) {
        (Request::Send { target, .. }, Answer::SendFailed) => {
            Ok(Some(target_fault(alloc, "SendFailed", target)?))
        }
        (Request::Send { target, .. }, Answer::Exists) => {
            Ok(Some(target_fault(alloc, "FileExists", target)?))
        }
        (Request::Process { .. }, Answer::Raised(fault)) => Ok(Some(fault.get().copy()?)),
        (Request::Offer { queue, .. }, Answer::Full(held)) => {
            Ok(Some(queue_full(alloc, set, *queue, *held)?))
        }
        (Request::Arrive { .. }, Answer::Unfit(fault)) => Ok(Some(fault.get().copy()?)),
        _ => Ok(None),
    }
}

fn target_fault(alloc: Global, kind: &str, target: &Target) -> Result<Fault, NoMemory>
    ensures { IfOk result (λ f. f ≡ fault kind.now (target_text target.now)) }
{
    let text = target_text(alloc, target)?;
    told_fault(alloc, kind, text)
}

/// `file:FOLDER/NAME`, `line:HOST:PORT` or `lane:NAME`.
fn target_text(alloc: Global, target: &Target) -> Result<Text, NoMemory>
    ensures { IfOk result (λ t. t ≡ target_text target.now) }
{
    match target {
        Target::File { folder, name, .. } => {
            let mut text = String::from_str(alloc, "file:")?;
            text.push_str(folder.as_str())?;
            text.push_str("/")?;
            text.push_str(name.as_str())?;
            Ok(Text::of(text))
        }
        Target::Line { host, port } => {
            let mut text = String::from_str(alloc, "line:")?;
            text.push_str(host.as_str())?;
            text.push_str(":")?;
            text.push_str(decimal(alloc, u64::from(*port))?.as_str())?;
            Ok(Text::of(text))
        }
        Target::Lane(name) => {
            let mut text = String::from_str(alloc, "lane:")?;
            text.push_str(name.as_str())?;
            Ok(Text::of(text))
        }
    }
}

/// The queue of this route holds so many copies and takes no more.
fn queue_full(alloc: Global, set: &RouteSet, route: u32, held: u32) -> Result<Fault, NoMemory>
    ensures { IfOk result (λ f. f ≡ queue_full set.now route held) }
{
    let mut text = String::from_str(alloc, "seda:")?;
    text.push_str(queue_name(set, route))?;
    text.push_str(" ")?;
    text.push_str(decimal(alloc, u64::from(held))?.as_str())?;
    told_fault(alloc, "QueueFull", Text::of(text))
}

fn queue_name(set: &RouteSet, route: u32) -> &str
    ensures { result.now ≡ queue_in (slice_get set.now.routes route) }
{
    match set.routes.items().get(route as usize) {
        Some(found) => name_of(&found.from),
        None => "",
    }
}

fn name_of(from: &Uri) -> &str
    ensures { result.now ≡ queue_of from.now }
{
    match from {
        Uri::Seda { name, .. } => name.as_str(),
        _ => "",
    }
}

/// Whether a step whose request faults may be tried again.
pub fn is_tried_again(request: &Request) -> bool
    ensures { result ≡ is_tried_again request.now }
{
    match request {
        Request::Send { .. } => true,
        Request::Offer { .. } => true,
        Request::Process { .. } => true,
        _ => false,
    }
}

// ---- what goes on

/// What an answer that is no fault gives at a step.
pub fn goes_on(
    alloc: Global,
    set: &RouteSet,
    context: Context,
    step: &Step,
    progress: &Progress,
    message: &mut Message,
    answer: &Answer,
) -> Result<Effect, NoMemory>
    ensures { IfOk result (λ e. tried_of e message.new ≡ on.going_on set.now context step.now progress.now message.old answer.now) }
{
    match step {
        Step::To(uri) => Ok(to_answered(set, uri)),
        Step::Process(_) => became(alloc, message, answer),
        Step::Choice { cases, otherwise } => {
            choice_answered(
                alloc,
                set,
                context,
                cases.items(),
                *otherwise,
                progress,
                message,
                answer,
            )
        }
        Step::Filter { block, .. } => Ok(nested_if(held(answer), *block)),
        Step::Split { fan, .. } => {
            let original = Strategy::Original;
            let strategy = or_default(&fan.strategy, &original);
            fan_answered(alloc, strategy, fan.stop, progress, message, answer)
        }
        Step::Multicast { fan, .. } => {
            let latest = Strategy::Latest;
            let strategy = or_default(&fan.strategy, &latest);
            fan_answered(alloc, strategy, fan.stop, progress, message, answer)
        }
        Step::Recipients { fan, .. } => {
            let latest = Strategy::Latest;
            let strategy = or_default(&fan.strategy, &latest);
            fan_answered(alloc, strategy, fan.stop, progress, message, answer)
        }
        Step::Idempotent { skip, block, .. } => {
            key_answered(alloc, *skip, *block, message, answer)
        }
        Step::Try {
            catches,
            finish,
            ..
        } => try_answered(
            alloc,
            set,
            context,
            catches.items(),
            *finish,
            progress,
            message,
            answer,
        ),
        Step::SetBody(_)
        | Step::SetHeader { .. }
        | Step::SetProperty { .. }
        | Step::RemoveHeader(_)
        | Step::Log { .. }
        | Step::Throw { .. }
        | Step::Aggregate(_) => Ok(Effect::Goes),
    }
}

/// What the answer to a send gives: the block of a route that is called runs.
pub fn to_answered(set: &RouteSet, uri: &Uri) -> Effect
    ensures { (m : AMessage) → tried_of result m ≡ on.to_on set.now uri.now m }
{
    goal_answered(set.resolve(uri))
}

fn goal_answered(goal: Goal) -> Effect
    ensures { (m : AMessage) → tried_of result m ≡ on.goal_on goal m }
{
    match goal {
        Goal::Direct(route) => Effect::Calls(route),
        Goal::Queue(_) | Goal::Lane | Goal::Log | Goal::NoConsumer => Effect::Goes,
    }
}

fn became(alloc: Global, message: &mut Message, answer: &Answer) -> Result<Effect, NoMemory>
    ensures { IfOk result (λ e. tried_of e message.new ≡ tried.Goes (became message.old answer.now)) }
{
    if let Answer::Became(new) = answer {
        *message = new.get().copy(alloc)?;
    }
    Ok(Effect::Goes)
}

fn choice_answered(
    alloc: Global,
    set: &RouteSet,
    context: Context,
    cases: &[(Check, u32)],
    otherwise: Option<u32>,
    progress: &Progress,
    message: &mut Message,
    answer: &Answer,
) -> Result<Effect, NoMemory>
    ensures { IfOk result (λ e. tried_of e message.new ≡ on.choice_on set.now context cases.now otherwise progress.now message.old answer.now) }
{
    match progress {
        Progress::Choosing(index) => {
            case_held(
                alloc,
                set,
                context,
                *index,
                cases,
                otherwise,
                held(answer),
                message,
            )
        }
        _ => Ok(Effect::Goes),
    }
}

/// The check of the case at this index has been answered.
fn case_held(
    alloc: Global,
    set: &RouteSet,
    context: Context,
    index: usize,
    cases: &[(Check, u32)],
    otherwise: Option<u32>,
    holds: bool,
    message: &Message,
) -> Result<Effect, NoMemory>
    ensures { IfOk result (λ e. tried_of e message.now ≡ on.case_held set.now context index cases.now otherwise (slice_get cases.now index) holds message.now) }
{
    if index < cases.len() {
        if holds {
            Ok(Effect::Enters(cases[index].1))
        } else {
            choose(alloc, set, context, cases, otherwise, index + 1, message)
        }
    } else {
        Ok(Effect::Goes)
    }
}

fn or_default<'s>(strategy: &'s Option<Strategy>, default: &'s Strategy) -> &'s Strategy
    ensures { result.now ≡ unwrap_or strategy.now default.now }
{
    match strategy {
        Some(strategy) => strategy,
        None => default,
    }
}

fn key_answered(
    alloc: Global,
    skip: bool,
    block: u32,
    message: &mut Message,
    answer: &Answer,
) -> Result<Effect, NoMemory>
    ensures { IfOk result (λ e. tried_of e message.new ≡ on.key_on skip block message.old answer.now) }
{
    if is_fresh(answer) {
        return Ok(Effect::Enters(block));
    }
    mark_duplicate(alloc, message)?;
    if skip {
        Ok(Effect::Goes)
    } else {
        Ok(Effect::Enters(block))
    }
}

fn is_fresh(answer: &Answer) -> bool
    ensures { result ≡ is_fresh answer.now }
{
    match answer {
        Answer::Fresh => true,
        _ => false,
    }
}
