ghost use Rattle.std.specs.Prelude.{◌≡◌, ◌≢◌, ◌∷◌, ◌<◌, [], List, Bool, Option, Some, None, true, vec_len, vec_capacity, IfSome, IfOk, OnErr, MatchOption, MatchResult};
ghost use Rattle.eip_uri.specs.declared.uri.Uri.{Uri as AUri};
ghost use Rattle.eip_route.specs.declared.route.RouteSet.{RouteSet as ARouteSet};
ghost use Rattle.eip_frames.specs.Fits.{fits};
ghost use Rattle.eip_frames.specs.declared.answer.Answer.{Answer as AnAnswer};
ghost use Rattle.eip_frames.specs.declared.request.Seed.{Seed as ASeed};
ghost use Rattle.eip_meaning.specs.Outcomes.{fault_in};
ghost use Rattle.eip_progress.specs.Rest.{wait_mean, request_of};
ghost use Rattle.eip_progress.specs.declared.tried.Progress.TheVariants.{Joining as joined};
ghost use Rattle.eip_frames.specs.declared.request.Request.TheVariants.{Spawn as spawned};
ghost use Rattle.eip_cursor.specs.InTurn.{stop_in, step_found, TakesNext, WaitMoves, AskingMoves, PartEnds};

use crate::asked::put_in;
use eip_copies::copy_seed;
use eip_exchange::Ended;
use eip_frames::{Answer, Request, Seed};
use eip_progress::{Asking, Progress, Queue, Task, Wait};
use eip_route::{RouteSet, Step};
use eip_text::{NoMemory, Series};
use eip_turns::fans::{one, parts_in, stops, waits};
use eip_turns::step_at;
use std::alloc::Global;
use std::mem;

// A sequential fan-out between two of its parts: its seeds, and the parts that have ended, stay where they are.

/// Whether it is a sequential fan-out's, between two of its parts.
pub fn is_between(wait: &Wait) -> bool {
    match wait {
        Wait::Trying { asking, .. } => is_in_turn(&asking.get().progress),
        Wait::Sleeping { .. } => false,
    }
}

fn is_in_turn(progress: &Progress) -> bool {
    matches!(
        progress,
        Progress::Spawning { .. } | Progress::Joining { .. }
    )
}

/// Goes on from one part to the next, and asks in this place for what comes then. Where there is more to do than that it says so, and
/// all is as before; on `NoMemory` it is as before too.
pub fn between_parts(
    alloc: Global,
    set: &RouteSet,
    wait: &mut Wait,
    place: &mut Option<Request>,
    answer: &Answer,
) -> Result<bool, NoMemory>
    requires { fits (request_of wait.old) answer.now ≡ true }
    ensures ok { IfOk result (λ b. WaitMoves b set.now wait.old answer.now wait.new place.old place.new) }
    ensures err { OnErr result ((wait.new ≡ wait.old) × (place.new ≡ place.old)) }
{
    match wait {
        Wait::Trying { task, asking, .. } => {
            let stop = stop_of(set, *task);
            next_asking(alloc, stop, asking.get_mut(), place, answer)
        }
        Wait::Sleeping { .. } => Ok(false),
    }
}

/// Whether a task stops at a part that failed, where it is a fan-out.
fn stop_of(set: &RouteSet, task: Task) -> Option<bool>
    ensures { result ≡ stop_in (step_found set.now task) }
{
    match task {
        Task::Step { block, index } => match step_at(set, block, index) {
            Some(step) => stop_at(step),
            None => None,
        },
        Task::Dead => None,
        Task::Whole => None,
    }
}

fn stop_at(step: &Step) -> Option<bool>
    ensures { result ≡ stop_in (Some step.now) }
{
    match step {
        Step::Split { fan, .. } => Some(fan.stop),
        Step::Multicast { fan, .. } => Some(fan.stop),
        Step::Recipients { fan, .. } => Some(fan.stop),
        _ => None,
    }
}

/// From what a fan-out that stops so, or not, has asked to what it asks next, which goes into the place.
fn next_asking(
    alloc: Global,
    stop: Option<bool>,
    asking: &mut Asking,
    place: &mut Option<Request>,
    answer: &Answer,
) -> Result<bool, NoMemory>
    ensures ok { IfOk result (λ b. AskingMoves b stop asking.old answer.now asking.new place.old place.new) }
    ensures err { OnErr result ((asking.new ≡ asking.old) × (place.new ≡ place.old)) }
{
    let Some(stop) = stop else {
        return Ok(false);
    };
    if !is_of_parts(&asking.request) {
        return Ok(false);
    }
    match mem::replace(&mut asking.progress, Progress::First) {
        Progress::Spawning { index, ended, left } => {
            put_in(
                &mut asking.progress,
                Progress::Joining { index, ended, left },
            );
            put_in(&mut asking.request, waits(answer));
            asking.index = index;
            put_in(place, Some(waits(answer)));
            Ok(true)
        }
        Progress::Joining { index, ended, left } => {
            part_ended(alloc, stop, asking, index, ended, left, place, answer)
        }
        other => {
            put_in(&mut asking.progress, other);
            Ok(false)
        }
    }
}

/// A request that no answer makes a fault.
fn is_of_parts(request: &Request) -> bool
    ensures { result ≡ true → (set : ARouteSet) (a : AnAnswer) → fault_in set request.now a ≡ None }
{
    match request {
        Request::Spawn { .. } => true,
        Request::Join { .. } => true,
        _ => false,
    }
}

/// The next seed is asked for, where there is one and the fan-out goes on.
fn part_ended(
    alloc: Global,
    stop: bool,
    asking: &mut Asking,
    index: u32,
    ended: Series<Ended>,
    left: Queue<Seed>,
    place: &mut Option<Request>,
    answer: &Answer,
) -> Result<bool, NoMemory>
    requires { (set : ARouteSet) → fault_in set asking.old.request answer.now ≡ None }
    ensures ok { IfOk result (λ b. PartEnds b stop (record asking.old { progress = joined index ended left }) answer.now asking.new place.old place.new) }
    ensures err { OnErr result ((asking.new ≡ record asking.old { progress = joined index ended left }) × (place.new ≡ place.old)) }
{
    let mut ended = ended.into_vec();
    let mut left = left;
    match take_next(alloc, stop, &mut ended, &mut left, answer) {
        Ok(Some((kept, asked))) => {
            let index = index.saturating_add(1);
            let ended = Series::of(ended);
            put_in(
                &mut asking.progress,
                Progress::Spawning { index, ended, left },
            );
            put_in(&mut asking.request, Request::Spawn { parts: kept });
            asking.index = index;
            put_in(place, Some(Request::Spawn { parts: asked }));
            Ok(true)
        }
        Ok(None) => {
            let ended = Series::of(ended);
            put_in(
                &mut asking.progress,
                Progress::Joining { index, ended, left },
            );
            Ok(false)
        }
        Err(NoMemory) => {
            let ended = Series::of(ended);
            put_in(
                &mut asking.progress,
                Progress::Joining { index, ended, left },
            );
            Err(NoMemory)
        }
    }
}

/// Takes the next seed behind the part that ended, where one is left and it isn't stopped: once to be kept, once to be handed out.
fn take_next(
    alloc: Global,
    stop: bool,
    ended: &mut Vec<Ended>,
    left: &mut Queue<Seed>,
    answer: &Answer,
) -> Result<Option<(Series<Seed>, Series<Seed>)>, NoMemory>
    ensures ok { IfOk result (λ o. MatchOption o ((ended.new.items ≡ ended.old.items) × (left.new ≡ left.old))
        (λ t. TakesNext stop ended.old.items left.old answer.now ended.new.items left.new (spawned t.0) × (t.0 ≡ t.1))) }
    ensures err { OnErr result ((ended.new.items ≡ ended.old.items) × (left.new ≡ left.old)) }
{
    let mut parts = parts_in(alloc, answer)?;
    if stops(stop, &parts) {
        return Ok(None);
    }
    match first(left) {
        Some(seed) => {
            let asked = one(alloc, copy_seed(alloc, seed)?)?;
            let room = Vec::with_capacity(alloc, 1)?;
            ended.append(&mut parts)?;
            let kept = first_alone(left, room);
            Ok(Some((kept, asked)))
        }
        None => Ok(None),
    }
}

#[tactic(auto, using(crate::proofs::Staying::first_turned))]
fn first(left: &Queue<Seed>) -> Option<&Seed>
    ensures { IfSome result (λ s. (l : List ASeed) × (left.now ≡ s.now ∷ l)) }
{
    left.turned().last()
}

/// The next seed alone. It takes no memory.
fn first_alone(left: &mut Queue<Seed>, room: Vec<Seed>) -> Series<Seed>
    requires some { left.old ≢ [] }
    requires empty { room.items ≡ [] }
    requires room { vec_len room < vec_capacity room }
    ensures { (x : ASeed) (l : List ASeed) → left.old ≡ x ∷ l → (result ≡ x ∷ []) × (left.new ≡ l) }
{
    let mut alone = room;
    match left.take() {
        Some(seed) => match alone.push(seed) {
            Ok(()) => Series::of(alone),
            Err(_) => unreachable!(),
        },
        None => unreachable!(),
    }
}
