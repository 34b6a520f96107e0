ghost use Rattle.std.specs.Prelude.{◌≡◌, ◌∷◌, [], IfOk, OnOk, OnErr};
ghost use Rattle.eip_exchange.specs.declared.message.Message.{Message as AMessage};
ghost use Rattle.eip_exchange.specs.declared.end.End.{End as AnEnd};
ghost use Rattle.eip_frames.specs.Fate.{Ends};
ghost use Rattle.eip_progress.specs.Rest.{rest, IsFirst, AnswerFits};
ghost use Rattle.eip_cursor.specs.Follows.{GoesOn, MayGoOn, Begun, begins};

use crate::asked::{ask, put_in};
use crate::cursor::{answered, first_turns, put};
use crate::ends::is_told_origin;
use crate::last::{ask_to_end, last_message};
use crate::parts::{between_parts, is_between};
use eip_exchange::{Message, Origin, Work};
use eip_frames::{Answer, Request};
use eip_meaning::Context;
use eip_progress::{Cursor, State};
use eip_route::RouteSet;
use eip_text::NoMemory;
use eip_turns::into_state;
use std::alloc::Global;

// An exchange that lives goes on where its cursor and its request lie, so that neither is moved.

/// Puts the cursor of an exchange of this origin into the one place, and what it asks first into the other; its work begins with this
/// message. It is what `start` and the first `advance` give on a birth, without one. On `NoMemory` both places are as before.
#[tactic(auto, unfolding(eip_progress::specs::Rest::rest, eip_progress::specs::Rest::IsFirst, eip_progress::specs::Rest::asked_at))]
pub fn begin(
    place: &mut Option<Cursor>,
    asked: &mut Option<Request>,
    alloc: Global,
    set: &RouteSet,
    context: Context,
    origin: Origin,
    work: &Work,
    mut message: Message,
) -> Result<(), NoMemory>
    requires lives { (e : AnEnd) (m : AMessage) → begins set.now context origin work.now message [] ≡ Ends e m → ⊥ }
    ensures ok { OnOk result (Begun set.now (begins set.now context origin work.now message) place.new asked.new) }
    ensures err { OnErr result ((place.new ≡ place.old) × (asked.new ≡ asked.old)) }
{
    let commit = is_told_origin(set, &origin);
    let mut whole = None;
    let mut stack = Vec::new(alloc);
    let course = first_turns(
        alloc,
        set,
        context,
        work,
        &mut message,
        &mut whole,
        &mut stack,
    )?;
    let state = into_state(course, message);
    ask(alloc, commit, &state, asked)?;
    let cursor = Cursor {
        context,
        commit,
        origin,
        whole,
        stack,
        state,
    };
    put_in(place, Some(cursor));
    Ok(())
}

/// Goes on behind an answer that fits the last request, and puts what is asked next into its place. On `NoMemory` all is as before.
pub fn go_on(
    cursor: &mut Cursor,
    place: &mut Option<Request>,
    alloc: Global,
    set: &RouteSet,
    answer: &Answer,
) -> Result<(), NoMemory>
    requires later { IsFirst cursor.old → ⊥ }
    requires fits { AnswerFits (rest set.now cursor.old []) answer.now }
    requires lives { (e : AnEnd) (m : AMessage) → rest set.now cursor.old (answer.now ∷ []) ≡ Ends e m → ⊥ }
    ensures ok { OnOk result (GoesOn set.now cursor.old (answer.now ∷ []) cursor.new place.new) }
    ensures err { OnErr result ((cursor.new ≡ cursor.old) × (place.new ≡ place.old)) }
{
    if goes_in_turn(cursor, place, alloc, set, answer)? {
        return Ok(());
    }
    go_by_turns(cursor, place, alloc, set, answer)
}

/// From one part of a sequential fan-out to the next, or from the last step to the end, where no more has to be done: the message
/// stays where it is.
fn goes_in_turn(
    cursor: &mut Cursor,
    place: &mut Option<Request>,
    alloc: Global,
    set: &RouteSet,
    answer: &Answer,
) -> Result<bool, NoMemory>
    requires { AnswerFits (rest set.now cursor.old []) answer.now }
    ensures ok { IfOk result (λ b. MayGoOn b set.now cursor.old answer.now cursor.new place.old place.new) }
    ensures err { OnErr result ((cursor.new ≡ cursor.old) × (place.new ≡ place.old)) }
{
    if is_in_turn(&cursor.state) {
        goes_to_next_part(cursor, place, alloc, set, answer)
    } else {
        goes_to_end(cursor, place, alloc, set, answer)
    }
}

fn is_in_turn(state: &State) -> bool {
    match state {
        State::Runs(wait) => is_between(wait),
        State::Starting(..) | State::Finishing(..) | State::Over(..) => false,
    }
}

fn goes_to_next_part(
    cursor: &mut Cursor,
    place: &mut Option<Request>,
    alloc: Global,
    set: &RouteSet,
    answer: &Answer,
) -> Result<bool, NoMemory>
    requires { AnswerFits (rest set.now cursor.old []) answer.now }
    ensures ok { IfOk result (λ b. MayGoOn b set.now cursor.old answer.now cursor.new place.old place.new) }
    ensures err { OnErr result ((cursor.new ≡ cursor.old) × (place.new ≡ place.old)) }
{
    match &mut cursor.state {
        State::Runs(wait) => between_parts(alloc, set, wait, place, answer),
        State::Starting(..) | State::Finishing(..) | State::Over(..) => Ok(false),
    }
}

fn goes_to_end(
    cursor: &mut Cursor,
    place: &mut Option<Request>,
    alloc: Global,
    set: &RouteSet,
    answer: &Answer,
) -> Result<bool, NoMemory>
    requires { AnswerFits (rest set.now cursor.old []) answer.now }
    ensures ok { IfOk result (λ b. MayGoOn b set.now cursor.old answer.now cursor.new place.old place.new) }
    ensures err { OnErr result ((cursor.new ≡ cursor.old) × (place.new ≡ place.old)) }
{
    match last_message(cursor, alloc, set, answer)? {
        Some(message) => {
            ask_to_end(cursor, place, message);
            Ok(true)
        }
        None => Ok(false),
    }
}

/// By turns of the steps up to the next request; what they take is a copy.
#[tactic(auto, unfolding(eip_progress::specs::Rest::rest, eip_progress::specs::Rest::IsFirst, eip_progress::specs::Rest::asked_at))]
fn go_by_turns(
    cursor: &mut Cursor,
    place: &mut Option<Request>,
    alloc: Global,
    set: &RouteSet,
    answer: &Answer,
) -> Result<(), NoMemory>
    requires later { IsFirst cursor.old → ⊥ }
    requires fits { AnswerFits (rest set.now cursor.old []) answer.now }
    requires lives { (e : AnEnd) (m : AMessage) → rest set.now cursor.old (answer.now ∷ []) ≡ Ends e m → ⊥ }
    ensures ok { OnOk result (GoesOn set.now cursor.old (answer.now ∷ []) cursor.new place.new) }
    ensures err { OnErr result ((cursor.new ≡ cursor.old) × (place.new ≡ place.old)) }
{
    let reached = answered(cursor, alloc, set, answer)?;
    ask(alloc, cursor.commit, &reached.state, place)?;
    put(cursor, reached);
    Ok(())
}
