ghost use Rattle.std.specs.Prelude.{◌≡◌, ◌∷◌, true, List, Option, IfOk};
ghost use Rattle.eip_exchange.specs.declared.message.Message.{Message as AMessage};
ghost use Rattle.eip_uri.specs.declared.uri.Uri.{Uri as AUri};
ghost use Rattle.eip_meaning.specs.declared.context.Context.{Context as AContext};
ghost use Rattle.eip_progress.specs.declared.tried.Progress.{Progress as AProgress};
ghost use Rattle.eip_frames.specs.Fits.{fits};
ghost use Rattle.eip_frames.specs.declared.answer.Answer.{Answer as AnAnswer};
ghost use Rattle.eip_progress.specs.Rest.{now_mean, wait_mean, tried_mean, asking_mean, cont_of, request_of};
ghost use Rattle.eip_parts.specs.Effects.{tried_of};
ghost use Rattle.eip_turns.specs.Kept.{Keeps};
ghost use Rattle.eip_turns.specs.Courses.{now_of};
ghost use Rattle.eip_cursor.specs.Last.{message_of};

use eip_exchange::Message;
use eip_frames::{Answer, Request};
use eip_meaning::Context;
use eip_progress::{Asking, Progress, Task, Wait};
use eip_route::RouteSet;
use eip_text::{Boxed, NoMemory};
use eip_turns::{
    Course, Effect, after_try, begin, fault_of, goes_on, hold, is_tried_again, step_at, to_answered,
};
use eip_uri::Uri;
use std::alloc::Global;

/// What follows the answer to what is waited for, with a copy of the message that waits in its place.
pub fn on_answer(
    alloc: Global,
    set: &RouteSet,
    whole: &Option<Boxed<Uri>>,
    wait: &Wait,
    message: &mut Message,
    answer: &Answer,
) -> Result<Course, NoMemory>
    requires fits { fits (request_of wait.now) answer.now ≡ true }
    requires copied { message.old ≡ message_of wait.now }
    ensures { IfOk result (λ n. (A : List AnAnswer) → now_mean set.now whole.now (now_of n message.new) A ≡ wait_mean set.now whole.now wait.now (answer.now ∷ A)) }
{
    match wait {
        Wait::Trying {
            context,
            task,
            left,
            asking,
            ..
        } => {
            let asking = asking.get();
            let course = try_answered(
                alloc, set, whole, *context, *task, *left, message, asking, answer,
            )?;
            Ok(course)
        }
        Wait::Sleeping {
            context,
            task,
            left,
            ..
        } => {
            let course = begin(alloc, set, whole, *context, *task, *left, message)?;
            Ok(course)
        }
    }
}

fn try_answered(
    alloc: Global,
    set: &RouteSet,
    whole: &Option<Boxed<Uri>>,
    context: Context,
    task: Task,
    left: u32,
    message: &mut Message,
    asking: &Asking,
    answer: &Answer,
) -> Result<Course, NoMemory>
    requires { fits asking.now.request answer.now ≡ true }
    ensures { IfOk result (λ n. (A : List AnAnswer) → now_mean set.now whole.now (now_of n message.new) A ≡ wait_mean set.now whole.now (Wait.Trying context task left message.old asking.now) (answer.now ∷ A)) }
{
    let kept = hold(alloc, left, message)?;
    let effect = answered(alloc, set, whole, context, task, asking, message, answer)?;
    let course = after_try(alloc, set, context, task, left, kept, effect, message)?;
    Ok(course)
}

/// What an answer gives at a try.
fn answered(
    alloc: Global,
    set: &RouteSet,
    whole: &Option<Boxed<Uri>>,
    context: Context,
    task: Task,
    asking: &Asking,
    message: &mut Message,
    answer: &Answer,
) -> Result<Effect, NoMemory>
    requires { fits asking.now.request answer.now ≡ true }
    ensures means { IfOk result (λ e. (A : List AnAnswer) → tried_mean set.now whole.now context task (tried_of e message.new) A ≡ asking_mean set.now whole.now context task asking.now.progress asking.now.request asking.now.index message.old (answer.now ∷ A)) }
    ensures keeps { IfOk result (λ e. Keeps (tried_of e message.new) message.old) }
{
    let request: &Request = &asking.request;
    let found = fault_of(alloc, set, request, answer)?;
    match found {
        Some(fault) => {
            let effect = Effect::faulting(alloc, fault, is_tried_again(request))?;
            Ok(effect)
        }
        None => {
            let progress = &asking.progress;
            let effect = task_answered(
                alloc, set, whole, context, task, progress, message, answer,
            )?;
            Ok(effect)
        }
    }
}

fn task_answered(
    alloc: Global,
    set: &RouteSet,
    whole: &Option<Boxed<Uri>>,
    context: Context,
    task: Task,
    progress: &Progress,
    message: &mut Message,
    answer: &Answer,
) -> Result<Effect, NoMemory>
    ensures means { IfOk result (λ e. (A : List AnAnswer) → tried_mean set.now whole.now context task (tried_of e message.new) A ≡ cont_of set.now whole.now context task progress.now message.old answer.now A) }
    ensures keeps { IfOk result (λ e. Keeps (tried_of e message.new) message.old) }
{
    match task {
        Task::Step { block, index } => {
            let effect = step_answered(
                alloc, set, context, block, index, progress, message, answer,
            )?;
            Ok(effect)
        }
        Task::Dead => Ok(dead_answered(set)),
        Task::Whole => Ok(whole_answered(set, whole)),
    }
}

fn step_answered(
    alloc: Global,
    set: &RouteSet,
    context: Context,
    block: u32,
    index: usize,
    progress: &Progress,
    message: &mut Message,
    answer: &Answer,
) -> Result<Effect, NoMemory>
    ensures means { IfOk result (λ e. (whole : Option AUri) (A : List AnAnswer) → tried_mean set.now whole context (Task.Step block index) (tried_of e message.new) A ≡ cont_of set.now whole context (Task.Step block index) progress.now message.old answer.now A) }
    ensures keeps { IfOk result (λ e. Keeps (tried_of e message.new) message.old) }
{
    match step_at(set, block, index) {
        Some(step) => {
            let effect = goes_on(alloc, set, context, step, progress, message, answer)?;
            Ok(effect)
        }
        None => Ok(Effect::Goes),
    }
}

fn dead_answered(set: &RouteSet) -> Effect
    ensures means { (whole : Option AUri) (c : AContext) (p : AProgress) (m : AMessage) (a : AnAnswer) (A : List AnAnswer) → tried_mean set.now whole c Task.Dead (tried_of result m) A ≡ cont_of set.now whole c Task.Dead p m a A }
    ensures keeps { (m : AMessage) → Keeps (tried_of result m) m }
{
    match &set.handler.dead {
        Some(uri) => to_answered(set, uri),
        None => Effect::Goes,
    }
}

fn whole_answered(set: &RouteSet, whole: &Option<Boxed<Uri>>) -> Effect
    ensures means { (c : AContext) (p : AProgress) (m : AMessage) (a : AnAnswer) (A : List AnAnswer) → tried_mean set.now whole.now c Task.Whole (tried_of result m) A ≡ cont_of set.now whole.now c Task.Whole p m a A }
    ensures keeps { (m : AMessage) → Keeps (tried_of result m) m }
{
    match whole {
        Some(uri) => to_answered(set, uri.get()),
        None => Effect::Goes,
    }
}
