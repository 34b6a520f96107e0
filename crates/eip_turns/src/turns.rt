ghost use Rattle.std.specs.Prelude.{◌≡◌, ◌≤◌, ◌<◌, ◌+◌, ◌++◌, ◌∷◌, ℕ, [], List, Option, Bool, None, Some, IfOk, OnOk, MatchOption, slice_get, length};
ghost use Rattle.eip_exchange.specs.declared.message.Message.{Message as AMessage};
ghost use Rattle.eip_uri.specs.declared.uri.Uri.{Uri as AUri};
ghost use Rattle.eip_route.specs.declared.route.RouteSet.{RouteSet as ARouteSet};
ghost use Rattle.eip_frames.specs.declared.answer.Answer.{Answer as AnAnswer};
ghost use Rattle.eip_meaning.specs.declared.context.Context.{Context as AContext};
ghost use Rattle.eip_meaning.specs.Checks.{block_or_goes};
ghost use Rattle.eip_meaning.specs.Contexts.{place_in};
ghost use Rattle.eip_meaning.specs.Meaning.{steps_of as steps_in_block, finished};
ghost use Rattle.eip_meaning.specs.Outcomes.{followed, Goes, Outcome as AnOutcome};
ghost use Rattle.eip_parts.specs.Effects.{tried_of};
ghost use Rattle.eip_progress.specs.Rest.{now_mean, frame_mean, behind_all, rest_of, rest_of_block};
ghost use Rattle.eip_turns.specs.Courses.{now_of, state_of, IsLast};
ghost use Rattle.eip_turns.specs.First.{behind_try};
ghost use Rattle.eip_turns.specs.Kept.{HasKept};
ghost use Rattle.eip_turns.specs.Weights.{block_weight, weight_of_option};
ghost use Rattle.eip_turns.specs.Falls.{now_weight, handling_in, tried_weight, frame_weight, stack_weight};

use crate::attempts::{after_try, begin_dead, first_try};
use crate::course::Course;
use eip_exchange::{End, Message};
use eip_meaning::Context;
use eip_progress::{Frame, Task};
use eip_route::RouteSet;
use eip_steps::faults::taken;
use eip_steps::{Effect, steps_of};
use eip_text::NoMemory;
use std::alloc::Global;

/// All turns up to the next request or the end, on what comes behind the part that runs.
pub fn run(
    alloc: Global,
    set: &RouteSet,
    stack: &mut Vec<Frame>,
    message: &mut Message,
    mut course: Course,
) -> Result<Course, NoMemory>
    ensures means { IfOk result (λ x. (commit : Bool) (item : List ℕ) (c : AContext) (whole : Option AUri) (A : List AnAnswer) → rest_of set.now commit item c whole stack.new.items (state_of x message.new) A
        ≡ finished commit item (place_in c 0) (behind_all set.now stack.old.items (now_mean set.now whole (now_of course message.old) A))) }
    ensures last { IfOk result (λ x. IsLast x) }
{
    loop {
        match course {
            Course::Goes => match stack.pop() {
                Some(frame) => course = resume(alloc, set, stack, frame, message)?,
                None => return Ok(Course::Stops(End::Completed)),
            },
            Course::Enters { context, block } => {
                course = resume_rest(alloc, set, stack, context, block, 0, message)?;
            }
            Course::Handles {
                handled,
                continued,
                fault,
                context,
                block,
            } => {
                let frame = Frame::Clause {
                    handled,
                    continued,
                    fault: taken(alloc, fault),
                };
                turn_handles(stack, frame, context, block)?;
                course = Course::Goes;
            }
            Course::Letters { context } => {
                course = turn_letters(alloc, set, stack, context, message)?;
            }
            last => return Ok(last),
        }
    }
}

/// A clause's steps begin, where it has some.
fn turn_handles(
    stack: &mut Vec<Frame>,
    frame: Frame,
    context: Context,
    block: Option<u32>,
) -> Result<(), NoMemory>
    ensures means { OnOk result ((set : ARouteSet) (m : AMessage) (A : List AnAnswer) → behind_all set stack.new.items (Goes m A)
        ≡ behind_all set stack.old.items (followed (block_or_goes (λ j n B. rest_of_block set context j 0 n B) block m A) (λ n B. frame_mean set frame n B))) }
    ensures falls { OnOk result ((set : ARouteSet) → stack_weight set stack.new.items < stack_weight set stack.old.items + frame_weight set frame + 1 + weight_of_option (block_weight set (handling_in set context)) block) }
{
    stack.push(frame)?;
    match block {
        Some(block) => {
            push_block(stack, context, block)?;
            Ok(())
        }
        None => Ok(()),
    }
}

/// The send to the dead letter endpoint begins.
fn turn_letters(
    alloc: Global,
    set: &RouteSet,
    stack: &mut Vec<Frame>,
    context: Context,
    message: &mut Message,
) -> Result<Course, NoMemory>
    ensures means { IfOk result (λ n. (whole : Option AUri) (A : List AnAnswer) → behind_all set.now stack.new.items (now_mean set.now whole (now_of n message.new) A)
        ≡ behind_all set.now stack.old.items (now_mean set.now whole (now_of (Course.Letters context) message.old) A)) }
    ensures falls { IfOk result (λ n. stack_weight set.now stack.new.items + now_weight set.now (now_of n message.new) < stack_weight set.now stack.old.items + 2 + handling_in set.now context) }
{
    stack.push(Frame::Letter)?;
    let course = begin_dead(alloc, set, context, 1000, message)?;
    Ok(course)
}

/// A block begins.
fn push_block(stack: &mut Vec<Frame>, context: Context, block: u32) -> Result<(), NoMemory>
    ensures { OnOk result (stack.new.items ≡ stack.old.items ++ Frame.Rest context block 0 ∷ []) }
{
    stack.push(Frame::Rest {
        context,
        block,
        index: 0,
    })?;
    Ok(())
}

/// What comes behind a frame's part.
fn resume(
    alloc: Global,
    set: &RouteSet,
    stack: &mut Vec<Frame>,
    frame: Frame,
    message: &mut Message,
) -> Result<Course, NoMemory>
    ensures means { IfOk result (λ n. (whole : Option AUri) (A : List AnAnswer) → behind_all set.now stack.new.items (now_mean set.now whole (now_of n message.new) A) ≡ behind_all set.now stack.old.items (frame_mean set.now frame message.old A)) }
    ensures falls { IfOk result (λ n. stack_weight set.now stack.new.items + now_weight set.now (now_of n message.new) < stack_weight set.now stack.old.items + frame_weight set.now frame) }
{
    match frame {
        Frame::Rest {
            context,
            block,
            index,
        } => resume_rest(alloc, set, stack, context, block, index, message),
        Frame::Clause {
            handled,
            continued,
            fault,
        } => {
            if handled {
                Ok(Course::Stops(End::Handled))
            } else if continued {
                Ok(Course::Goes)
            } else {
                Ok(Course::Stops(End::Failed(fault)))
            }
        }
        Frame::Letter => Ok(Course::Stops(End::Handled)),
    }
}

/// The steps of a block from an index on. Behind one that lets the message go on comes the next one at once.
fn resume_rest(
    alloc: Global,
    set: &RouteSet,
    stack: &mut Vec<Frame>,
    context: Context,
    block: u32,
    index: usize,
    message: &mut Message,
) -> Result<Course, NoMemory>
    ensures means { IfOk result (λ n. (whole : Option AUri) (A : List AnAnswer) → behind_all set.now stack.new.items (now_mean set.now whole (now_of n message.new) A) ≡ behind_all set.now stack.old.items (frame_mean set.now (Frame.Rest context block index) message.old A)) }
    ensures falls { IfOk result (λ n. stack_weight set.now stack.new.items + now_weight set.now (now_of n message.new) < stack_weight set.now stack.old.items + frame_weight set.now (Frame.Rest context block index)) }
{
    let mut index = index;
    while let Some(next) = next_index(set, block, index) {
        match first_try(alloc, set, context, block, index, message)? {
            Effect::Goes => index = next,
            effect => {
                let course = behind_step(
                    alloc, set, stack, context, block, index, next, effect, message,
                )?;
                return Ok(course);
            }
        }
    }
    Ok(Course::Goes)
}

/// What follows what the first try of a step has done, and then the steps of its block from the next index on.
fn behind_step(
    alloc: Global,
    set: &RouteSet,
    stack: &mut Vec<Frame>,
    context: Context,
    block: u32,
    index: usize,
    next: usize,
    effect: Effect,
    message: &mut Message,
) -> Result<Course, NoMemory>
    ensures means { IfOk result (λ n. (whole : Option AUri) (m : AMessage) (A : List AnAnswer) → HasKept None 1000 (tried_of effect message.old) m
        → behind_all set.now stack.new.items (now_mean set.now whole (now_of n message.new) A) ≡ behind_all set.now stack.old.items (behind_try set.now whole context block index next m (tried_of effect message.old) A)) }
    ensures falls { IfOk result (λ n. stack_weight set.now stack.new.items + now_weight set.now (now_of n message.new) ≤ stack_weight set.now stack.old.items + frame_weight set.now (Frame.Rest context block next) + tried_weight set.now context (Task.Step block index) (tried_of effect message.old)) }
{
    push_rest(set, stack, context, block, next)?;
    let task = Task::Step { block, index };
    match effect {
        Effect::Asks(asking) => Ok(Course::Asks {
            context,
            task,
            left: 1000,
            asking,
        }),
        effect => {
            let course = after_try(alloc, set, context, task, 1000, None, effect, message)?;
            Ok(course)
        }
    }
}

/// The steps of a block from an index on come behind what runs. Where there are none, nothing does.
fn push_rest(
    set: &RouteSet,
    stack: &mut Vec<Frame>,
    context: Context,
    block: u32,
    index: usize,
) -> Result<(), NoMemory>
    ensures means { OnOk result ((o : AnOutcome) → behind_all set.now stack.new.items o ≡ behind_all set.now stack.old.items (followed o (λ m A. frame_mean set.now (Frame.Rest context block index) m A))) }
    ensures falls { OnOk result (stack_weight set.now stack.new.items ≤ stack_weight set.now stack.old.items + frame_weight set.now (Frame.Rest context block index)) }
{
    match next_index(set, block, index) {
        Some(_) => {
            stack.push(Frame::Rest {
                context,
                block,
                index,
            })?;
            Ok(())
        }
        None => Ok(()),
    }
}

/// The index behind a step that is there.
fn next_index(set: &RouteSet, block: u32, index: usize) -> Option<usize>
    ensures { MatchOption result (slice_get (steps_in_block set.now block) index ≡ None) (λ n. (n ≡ index + 1) × (index < length (steps_in_block set.now block))) }
{
    let steps = steps_of(set, block);
    if index < steps.len() {
        Some(index + 1)
    } else {
        None
    }
}
