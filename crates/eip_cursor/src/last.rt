ghost use Rattle.std.specs.Prelude.{◌≡◌, ◌∷◌, ℕ, [], List, Option, None, Some, true, IfOk, IfSome};
ghost use Rattle.eip_exchange.specs.declared.message.Message.{Message as AMessage};
ghost use Rattle.eip_uri.specs.declared.uri.Uri.{Uri as AUri};
ghost use Rattle.eip_route.specs.declared.route.RouteSet.{RouteSet as ARouteSet};
ghost use Rattle.eip_frames.specs.Fits.{fits};
ghost use Rattle.eip_frames.specs.declared.answer.Answer.{Answer as AnAnswer};
ghost use Rattle.eip_meaning.specs.declared.context.Context.{Context as AContext};
ghost use Rattle.eip_meaning.specs.Outcomes.{fault_in, Goes};
ghost use Rattle.eip_progress.specs.declared.tried.Progress.{Progress as AProgress};
ghost use Rattle.eip_progress.specs.Rest.{rest, wait_mean, cont_of, cont_of_step, goal_cont, request_of, AnswerFits};
ghost use Rattle.eip_cursor.specs.Last.{message_of, HoldsMessage, EndsWith};

use crate::asked::put_in;
use eip_exchange::{End, Message};
use eip_frames::{Answer, Request};
use eip_progress::{Cursor, State, Task, Wait};
use eip_route::{Goal, RouteSet, Step};
use eip_text::NoMemory;
use eip_turns::step_at;
use std::alloc::Global;
use std::mem;

// The end of an exchange behind the answer to its last step: its message stays where it is, and only the request holds a copy.

/// A copy of the message of an exchange that this answer leads to its end; None where there may be more to do.
pub fn last_message(
    cursor: &Cursor,
    alloc: Global,
    set: &RouteSet,
    answer: &Answer,
) -> Result<Option<Message>, NoMemory>
    requires { AnswerFits (rest set.now cursor.now []) answer.now }
    ensures { IfOk result (λ o. IfSome o (λ m. EndsWith set.now cursor.now answer.now m)) }
{
    match &cursor.state {
        State::Runs(wait) => {
            if !cursor.stack.is_empty() {
                return Ok(None);
            }
            if !passes(set, wait, answer) {
                return Ok(None);
            }
            let message = message_in(wait).copy(alloc)?;
            Ok(Some(message))
        }
        State::Starting(..) | State::Finishing(..) | State::Over(..) => Ok(None),
    }
}

/// The message that waits, as it stood at the step.
pub fn message_in(wait: &Wait) -> &Message
    ensures { result.now ≡ message_of wait.now }
{
    match wait {
        Wait::Trying { message, .. } => message,
        Wait::Sleeping { message, .. } => message,
    }
}

/// Whether an answer lets the message that waits go on as it is, with nothing of its step left to do.
fn passes(set: &RouteSet, wait: &Wait, answer: &Answer) -> bool
    requires { fits (request_of wait.now) answer.now ≡ true }
    ensures { result ≡ true → (whole : Option AUri) (A : List AnAnswer) → wait_mean set.now whole wait.now (answer.now ∷ A) ≡ Goes (message_of wait.now) A }
{
    match wait {
        Wait::Trying {
            task,
            left,
            asking,
            ..
        } => {
            if *left < 1000 {
                return false;
            }
            if !is_taken(&asking.get().request, answer) {
                return false;
            }
            is_left(set, *task)
        }
        Wait::Sleeping { .. } => false,
    }
}

/// Whether what was asked has been done.
fn is_taken(request: &Request, answer: &Answer) -> bool
    ensures { result ≡ true → (set : ARouteSet) → fault_in set request.now answer.now ≡ None }
{
    match (request, answer) {
        (Request::Log { .. }, _) => true,
        (Request::Send { .. }, Answer::Done) => true,
        (Request::Offer { .. }, Answer::Queued(_)) => true,
        _ => false,
    }
}

/// Whether a step is over once what it asked has been done.
fn is_left(set: &RouteSet, task: Task) -> bool
    ensures { result ≡ true → (whole : Option AUri) (c : AContext) (p : AProgress) (m : AMessage) (a : AnAnswer) (A : List AnAnswer) → cont_of set.now whole c task p m a A ≡ Goes m A }
{
    match task {
        Task::Step { block, index } => match step_at(set, block, index) {
            Some(step) => is_left_step(set, step),
            None => true,
        },
        Task::Dead => false,
        Task::Whole => false,
    }
}

fn is_left_step(set: &RouteSet, step: &Step) -> bool
    ensures { result ≡ true → (c : AContext) (b : ℕ) (p : AProgress) (m : AMessage) (a : AnAnswer) (A : List AnAnswer) → cont_of_step set.now c b step.now p m a A ≡ Goes m A }
{
    match step {
        Step::To(uri) => is_left_goal(set.resolve(uri)),
        Step::Log { .. } => true,
        _ => false,
    }
}

fn is_left_goal(goal: Goal) -> bool
    ensures { result ≡ true → (set : ARouteSet) (c : AContext) (m : AMessage) (A : List AnAnswer) → goal_cont set c goal m A ≡ Goes m A }
{
    match goal {
        Goal::Direct(_) => false,
        Goal::Queue(_) | Goal::Lane | Goal::Log | Goal::NoConsumer => true,
    }
}

/// The exchange asks in this place to end with the message that waits, and keeps this copy of it.
pub fn ask_to_end(cursor: &mut Cursor, place: &mut Option<Request>, copy: Message)
    requires { HoldsMessage cursor.old.state copy }
    ensures place { place.new ≡ Some (Request.Finish End.Completed copy cursor.old.commit) }
    ensures cursor { cursor.new ≡ record cursor.old { state = State.Finishing End.Completed copy } }
{
    let commit = cursor.commit;
    let end = State::Finishing(End::Completed, copy);
    match mem::replace(&mut cursor.state, end) {
        State::Runs(wait) => {
            let request = Request::Finish {
                end: End::Completed,
                message: into_message(wait),
                commit,
            };
            put_in(place, Some(request));
        }
        State::Starting(..) | State::Finishing(..) | State::Over(..) => unreachable!(),
    }
}

fn into_message(wait: Wait) -> Message
    ensures { result ≡ message_of wait }
{
    match wait {
        Wait::Trying {
            message,
            asking,
            ..
        } => {
            drop(asking);
            message
        }
        Wait::Sleeping { message, .. } => message,
    }
}
