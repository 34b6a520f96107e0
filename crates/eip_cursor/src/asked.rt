ghost use Rattle.std.specs.Prelude.{◌≡◌, ℕ, Bool, [], List, Option, Some, IfOk, OnOk, OnErr};
ghost use Rattle.eip_uri.specs.declared.uri.Uri.{Uri as AUri};
ghost use Rattle.eip_route.specs.declared.route.RouteSet.{RouteSet as ARouteSet};
ghost use Rattle.eip_frames.specs.Fate.{AsksNext};
ghost use Rattle.eip_frames.specs.declared.request.Request.{Request as ARequest};
ghost use Rattle.eip_meaning.specs.declared.context.Context.{Context as AContext};
ghost use Rattle.eip_progress.specs.declared.frame.Frame.{Frame as AFrame};
ghost use Rattle.eip_progress.specs.Rest.{rest_of, IsStarting, next_fate, request_of, state_place};
ghost use Rattle.eip_cursor.specs.Follows.{IsOver};

use eip_copies::copy_request;
use eip_frames::Request;
use eip_progress::{Next, State, Wait};
use eip_text::NoMemory;
use std::alloc::Global;

/// What a state asks, or the end.
pub fn asked(alloc: Global, commit: bool, state: &State) -> Result<Next, NoMemory>
    requires { IsStarting state.now → ⊥ }
    ensures { IfOk result (λ n. (set : ARouteSet) (item : List ℕ) (c : AContext) (whole : Option AUri) (fs : List AFrame) → rest_of set commit item c whole fs state.now [] ≡ next_fate (state_place c state.now) n) }
{
    if let State::Over(end, message) = state {
        let message = message.copy(alloc)?;
        return Ok(Next::Ended(end.copy()?, message));
    }
    let mut place = None;
    ask(alloc, commit, state, &mut place)?;
    match place {
        Some(request) => Ok(Next::Asks(request)),
        None => unreachable!(),
    }
}

/// Puts what a state asks into its place. On `NoMemory` the place is as before.
pub fn ask(
    alloc: Global,
    commit: bool,
    state: &State,
    place: &mut Option<Request>,
) -> Result<(), NoMemory>
    requires later { IsStarting state.now → ⊥ }
    requires lives { IsOver state.now → ⊥ }
    ensures ok { OnOk result ((q : ARequest) × (place.new ≡ Some q) × ((set : ARouteSet) (item : List ℕ) (c : AContext) (whole : Option AUri) (fs : List AFrame) → rest_of set commit item c whole fs state.now [] ≡ AsksNext q (state_place c state.now))) }
    ensures err { OnErr result (place.new ≡ place.old) }
{
    match state {
        State::Starting(_, _) | State::Over(_, _) => unreachable!(),
        State::Runs(wait) => ask_wait(alloc, wait, place),
        State::Finishing(end, message) => {
            let message = message.copy(alloc)?;
            let end = end.copy()?;
            let request = Request::Finish {
                end,
                message,
                commit,
            };
            put_in(place, Some(request));
            Ok(())
        }
    }
}

/// Puts what is waited for into its place.
fn ask_wait(alloc: Global, wait: &Wait, place: &mut Option<Request>) -> Result<(), NoMemory>
    ensures ok { OnOk result (place.new ≡ Some (request_of wait.now)) }
    ensures err { OnErr result (place.new ≡ place.old) }
{
    match wait {
        Wait::Trying { asking, .. } => {
            let request = copy_request(alloc, &asking.get().request)?;
            put_in(place, Some(request));
        }
        Wait::Sleeping { ticks, .. } => put_in(place, Some(Request::Wait { ticks: *ticks })),
    }
    Ok(())
}

/// Puts a value of any type in the place of another. What is dropped there would be looked at for nothing where its type is known.
pub fn put_in<T: Drop>(place: &mut T, value: T)
    ensures { place.new ≡ value }
{
    *place = value;
}
