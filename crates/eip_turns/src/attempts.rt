ghost use Rattle.std.specs.Prelude.{◌≡◌, ◌≤◌, ◌+◌, List, Option, None, Some, IfOk, OnOk, MatchOption, slice_get, unwrap_or};
ghost use Rattle.eip_exchange.specs.declared.message.Message.{Message as AMessage};
ghost use Rattle.eip_uri.specs.declared.uri.Uri.{Uri as AUri};
ghost use Rattle.eip_route.specs.declared.route.RouteSet.{RouteSet as ARouteSet};
ghost use Rattle.eip_frames.specs.declared.answer.Answer.{Answer as AnAnswer};
ghost use Rattle.eip_meaning.specs.Values.{redelivered};
ghost use Rattle.eip_meaning.specs.Attempts.{number_of_try};
ghost use Rattle.eip_meaning.specs.Meaning.{steps_of as steps_in_block, block_of_route};
ghost use Rattle.eip_parts.specs.Effects.{tried_of};
ghost use Rattle.eip_progress.specs.Rest.{now_mean, guarded_mean, tried_mean, tries_of, nested_at, call_at, block_at};
ghost use Rattle.eip_turns.specs.Courses.{now_of};
ghost use Rattle.eip_turns.specs.First.{first_at};
ghost use Rattle.eip_turns.specs.Kept.{HasKept};
ghost use Rattle.eip_turns.specs.Weights.{block_weight, nested_block};
ghost use Rattle.eip_turns.specs.Falls.{now_weight, handling_in, tried_weight, try_weight};

use crate::course::Course;
use crate::handling::{faulted, number_of_try, put_back};
use eip_exchange::Message;
use eip_meaning::Context;
use eip_progress::Task;
use eip_route::{RouteSet, Step};
use eip_steps::messages::mark_redelivered;
use eip_steps::{Effect, try_step, try_to};
use eip_text::{Boxed, NoMemory};
use eip_uri::Uri;
use std::alloc::Global;

// ---- behind a try

/// What follows what a try has done; `kept` is the message as it stood at the step, where that isn't the try's.
pub fn after_try(
    alloc: Global,
    set: &RouteSet,
    context: Context,
    task: Task,
    left: u32,
    kept: Option<Message>,
    effect: Effect,
    message: &mut Message,
) -> Result<Course, NoMemory>
    ensures means { IfOk result (λ n. (whole : Option AUri) (m : AMessage) (A : List AnAnswer) → HasKept kept left (tried_of effect message.old) m
        → now_mean set.now whole (now_of n message.new) A ≡ guarded_mean set.now whole context task left m (tried_mean set.now whole context task (tried_of effect message.old) A)) }
    ensures falls { IfOk result (λ n. now_weight set.now (now_of n message.new) ≤ tried_weight set.now context task (tried_of effect message.old)) }
{
    match effect {
        Effect::Goes => Ok(Course::Goes),
        Effect::Faults(fault, again) => {
            let course = faulted(alloc, set, context, task, left, kept, fault, again, message)?;
            Ok(course)
        }
        Effect::Asks(asking) => {
            put_back(message, kept);
            Ok(Course::Asks {
                context,
                task,
                left,
                asking,
            })
        }
        Effect::Enters(block) => Ok(enter(context, block_of(task), block)),
        Effect::Calls(route) => Ok(call(set, context, route)),
    }
}

fn block_of(task: Task) -> u32
    ensures { result ≡ block_at task }
{
    match task {
        Task::Step { block, .. } => block,
        Task::Dead => 0,
        Task::Whole => 0,
    }
}

/// A nested block; only those with greater numbers are run.
fn enter(context: Context, from: u32, block: u32) -> Course
    ensures means { (set : ARouteSet) (whole : Option AUri) (m : AMessage) (A : List AnAnswer) → now_mean set whole (now_of result m) A ≡ nested_at set context from block m A }
    ensures falls { (set : ARouteSet) (m : AMessage) → now_weight set (now_of result m) ≤ 1 + nested_block set (handling_in set context) from block }
{
    if from < block {
        Course::Enters { context, block }
    } else {
        Course::Goes
    }
}

/// The block of a route that is called directly; at most 32 calls are open at one time.
fn call(set: &RouteSet, context: Context, route: u32) -> Course
    ensures means { (whole : Option AUri) (m : AMessage) (A : List AnAnswer) → now_mean set.now whole (now_of result m) A ≡ call_at set.now context route m A }
    ensures falls { (m : AMessage) → now_weight set.now (now_of result m) ≤ 1 + block_weight set.now (handling_in set.now context) (block_of_route set.now route) }
{
    if context.depth < 32 {
        Course::Enters {
            context: context.called(route),
            block: block_of_route(set, route),
        }
    } else {
        Course::Goes
    }
}

fn block_of_route(set: &RouteSet, route: u32) -> u32
    ensures { result ≡ block_of_route set.now route }
{
    match set.routes.items().get(route as usize) {
        Some(found) => found.block,
        None => 4_294_967_295,
    }
}

// ---- tries

/// Makes a message that of a try behind which so many may come, and gives it as it stands at the step, where that isn't the
/// same. Only from the second try on the message is copied.
#[tactic(auto, using(crate::proofs::Trying::first_message))]
pub fn hold(alloc: Global, left: u32, message: &mut Message) -> Result<Option<Message>, NoMemory>
    ensures kept { IfOk result (λ k. unwrap_or k message.new ≡ message.old) }
    ensures tried { OnOk result (message.new ≡ redelivered message.old (number_of_try left)) }
{
    let number = number_of_try(left);
    if number <= 1 {
        return Ok(None);
    }
    let kept = message.copy(alloc)?;
    mark_redelivered(alloc, message, number)?;
    Ok(Some(kept))
}

/// The step of a block at an index.
pub fn step_at(set: &RouteSet, block: u32, index: usize) -> Option<&Step>
    ensures { MatchOption result (slice_get (steps_in_block set.now block) index ≡ None) (λ s. slice_get (steps_in_block set.now block) index ≡ Some s.now) }
{
    match set.blocks.items().get(block as usize) {
        Some(found) => found.steps.items().get(index),
        None => None,
    }
}

/// The first try of the step of a block at an index. One that isn't there lets the message go on.
pub fn first_try(
    alloc: Global,
    set: &RouteSet,
    context: Context,
    block: u32,
    index: usize,
    message: &mut Message,
) -> Result<Effect, NoMemory>
    ensures { IfOk result (λ e. tried_of e message.new ≡ first_at set.now context (slice_get (steps_in_block set.now block) index) message.old) }
{
    match step_at(set, block, index) {
        Some(step) => try_step(alloc, set, context, step, message),
        None => Ok(Effect::Goes),
    }
}

/// A try of a step.
pub fn begin_step(
    alloc: Global,
    set: &RouteSet,
    context: Context,
    block: u32,
    index: usize,
    left: u32,
    message: &mut Message,
) -> Result<Course, NoMemory>
    ensures means { IfOk result (λ n. (whole : Option AUri) (A : List AnAnswer) → now_mean set.now whole (now_of n message.new) A ≡ tries_of set.now whole context (Task.Step block index) left message.old A) }
    ensures falls { IfOk result (λ n. now_weight set.now (now_of n message.new) ≤ try_weight set.now context block (slice_get (steps_in_block set.now block) index)) }
{
    let kept = hold(alloc, left, message)?;
    match step_at(set, block, index) {
        Some(step) => {
            let effect = try_step(alloc, set, context, step, message)?;
            let task = Task::Step { block, index };
            let course = after_try(alloc, set, context, task, left, kept, effect, message)?;
            Ok(course)
        }
        None => Ok(Course::Goes),
    }
}

/// The send to the dead letter endpoint.
pub fn begin_dead(
    alloc: Global,
    set: &RouteSet,
    context: Context,
    left: u32,
    message: &mut Message,
) -> Result<Course, NoMemory>
    ensures means { IfOk result (λ n. (whole : Option AUri) (A : List AnAnswer) → now_mean set.now whole (now_of n message.new) A ≡ tries_of set.now whole context Task.Dead left message.old A) }
    ensures falls { IfOk result (λ n. now_weight set.now (now_of n message.new) ≤ handling_in set.now context) }
{
    let kept = hold(alloc, left, message)?;
    match &set.handler.dead {
        Some(uri) => {
            let effect = try_to(alloc, set, context, uri, message)?;
            let task = Task::Dead;
            let course = after_try(alloc, set, context, task, left, kept, effect, message)?;
            Ok(course)
        }
        None => Ok(Course::Goes),
    }
}

/// The send that is the whole work.
pub fn begin_whole(
    alloc: Global,
    set: &RouteSet,
    whole: &Option<Boxed<Uri>>,
    context: Context,
    left: u32,
    message: &mut Message,
) -> Result<Course, NoMemory>
    ensures { IfOk result (λ n. (A : List AnAnswer) → now_mean set.now whole.now (now_of n message.new) A ≡ tries_of set.now whole.now context Task.Whole left message.old A) }
{
    let kept = hold(alloc, left, message)?;
    match whole {
        Some(uri) => {
            let effect = try_to(alloc, set, context, uri.get(), message)?;
            let task = Task::Whole;
            let course = after_try(alloc, set, context, task, left, kept, effect, message)?;
            Ok(course)
        }
        None => Ok(Course::Goes),
    }
}

/// A try of a task.
pub fn begin(
    alloc: Global,
    set: &RouteSet,
    whole: &Option<Boxed<Uri>>,
    context: Context,
    task: Task,
    left: u32,
    message: &mut Message,
) -> Result<Course, NoMemory>
    ensures { IfOk result (λ n. (A : List AnAnswer) → now_mean set.now whole.now (now_of n message.new) A ≡ tries_of set.now whole.now context task left message.old A) }
{
    match task {
        Task::Step { block, index } => {
            let course = begin_step(alloc, set, context, block, index, left, message)?;
            Ok(course)
        }
        Task::Dead => {
            let course = begin_dead(alloc, set, context, left, message)?;
            Ok(course)
        }
        Task::Whole => {
            let course = begin_whole(alloc, set, whole, context, left, message)?;
            Ok(course)
        }
    }
}
