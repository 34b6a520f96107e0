ghost use Rattle.std.specs.Prelude.{◌≡◌, ◌≤◌, ◌&&◌, List, Option, None, Some, IfOk, MatchOption, ltb, nat_le, unwrap_or};
ghost use Rattle.eip_exchange.specs.declared.message.Message.{Message as AMessage};
ghost use Rattle.eip_uri.specs.declared.uri.Uri.{Uri as AUri};
ghost use Rattle.eip_frames.specs.declared.answer.Answer.{Answer as AnAnswer};
ghost use Rattle.eip_error_handler.specs.Redelivery.{maximum_of, delay_of};
ghost use Rattle.eip_meaning.specs.Contexts.{in_handler, has_attempts};
ghost use Rattle.eip_meaning.specs.Values.{redelivered};
ghost use Rattle.eip_meaning.specs.Attempts.{clause_for, policy_for, number_of_try};
ghost use Rattle.eip_meaning.specs.Meaning.{decides, dead_letter, by_clause, handle_in};
ghost use Rattle.eip_progress.specs.Rest.{now_mean, fault_mean};
ghost use Rattle.eip_turns.specs.Courses.{now_of};
ghost use Rattle.eip_turns.specs.Kept.{decider_of};
ghost use Rattle.eip_turns.specs.Falls.{now_weight, clauses_weight, handling_in};

use crate::course::Course;
use eip_error_handler::{choose, delay, may_retry, merged};
use eip_exchange::{Clause, End, Fault, Message, Policy};
use eip_meaning::Context;
use eip_progress::Task;
use eip_route::RouteSet;
use eip_steps::faults::taken;
use eip_steps::messages::set_caught;
use eip_text::{Boxed, NoMemory};
use std::alloc::Global;

/// The clause that takes a fault (Camel manual, *Exception Clause*).
fn clause_of<'s>(set: &'s RouteSet, fault: &Fault) -> Option<&'s Clause>
    ensures { MatchOption result (clause_for set.now fault.now ≡ None) (λ k. clause_for set.now fault.now ≡ Some k.now) }
{
    match choose(set.clauses.items(), fault) {
        Some(index) => set.clauses.items().get(index),
        None => None,
    }
}

/// The clause of a fault that says what is done about it.
fn decider<'s>(set: &'s RouteSet, fault: &Fault) -> Option<&'s Clause>
    ensures { MatchOption result (decider_of (clause_for set.now fault.now) ≡ None) (λ k. decider_of (clause_for set.now fault.now) ≡ Some k.now) }
{
    match clause_of(set, fault) {
        Some(clause) => { if decides(clause) { Some(clause) } else { None } }
        None => None,
    }
}

fn decides(clause: &Clause) -> bool
    ensures { result ≡ decides clause.now }
{
    clause.block.is_some() || clause.handled || clause.continued
}

/// The handler's policy, with what the clause of the fault gives.
fn policy_of(set: &RouteSet, fault: &Fault) -> Policy
    ensures { result ≡ policy_for set.now fault.now }
{
    match clause_of(set, fault) {
        Some(clause) => merged(&clause.policy, &set.handler.policy),
        None => set.handler.policy,
    }
}

/// The number of a try, from 1, behind which so many may come.
pub fn number_of_try(left: u32) -> u32
    ensures { result ≡ number_of_try left }
{
    1001u32.saturating_sub(left)
}

/// Whether the fault of the try with this number is met by one more.
fn tries_again(context: Context, left: u32, number: u32, again: bool, policy: &Policy) -> bool
    ensures { result ≡ (ltb 0 left && (has_attempts context && (again && nat_le number (maximum_of policy.now)))) }
{
    left > 0 && (context.has_attempts() && (again && is_within(policy, number)))
}

fn is_within(policy: &Policy, number: u32) -> bool
    ensures { result ≡ nat_le number (maximum_of policy.now) }
{
    may_retry(policy, number)
}

/// The ticks before the try behind the one with this number.
#[tactic(auto, using(crate::proofs::Faulting::first_delay))]
fn ticks_behind(policy: &Policy, number: u32) -> u64
    ensures { result ≡ delay_of policy.now number }
{
    if number == 0 {
        delay(policy, 1)
    } else {
        delay(policy, number)
    }
}

/// The message as it stood at the step comes back into its place, where it was kept.
pub fn put_back(message: &mut Message, kept: Option<Message>)
    ensures { message.new ≡ unwrap_or kept message.old }
{
    if let Some(kept) = kept {
        *message = kept;
    }
}

/// What follows a fault on the message of its try; `kept` is the message as it stood at the step, where that isn't the same.
#[tactic(auto, using(crate::proofs::Faulting::sleeping_as, crate::proofs::Faulting::handled_as))]
pub fn faulted(
    alloc: Global,
    set: &RouteSet,
    context: Context,
    task: Task,
    left: u32,
    kept: Option<Message>,
    fault: Boxed<Fault>,
    again: bool,
    message: &mut Message,
) -> Result<Course, NoMemory>
    ensures means { IfOk result (λ n. (whole : Option AUri) (m : AMessage) (A : List AnAnswer) → unwrap_or kept message.old ≡ m → message.old ≡ redelivered m (number_of_try left)
        → now_mean set.now whole (now_of n message.new) A ≡ fault_mean set.now whole context task left m fault again A) }
    ensures falls { IfOk result (λ n. now_weight set.now (now_of n message.new) ≤ handling_in set.now context) }
{
    let number = number_of_try(left);
    let policy = policy_of(set, fault.get());
    if tries_again(context, left, number, again, &policy) {
        put_back(message, kept);
        Ok(Course::Sleeps {
            context,
            task,
            left: left - 1,
            ticks: ticks_behind(&policy, number),
        })
    } else {
        let course = handled(alloc, set, context, fault, message)?;
        Ok(course)
    }
}

/// What is done about a fault that has no attempt left.
fn handled(
    alloc: Global,
    set: &RouteSet,
    context: Context,
    fault: Boxed<Fault>,
    message: &mut Message,
) -> Result<Course, NoMemory>
    ensures means { IfOk result (λ n. (whole : Option AUri) (A : List AnAnswer) → now_mean set.now whole (now_of n message.new) A ≡ handle_in set.now context context fault message.old A) }
    ensures falls { IfOk result (λ n. now_weight set.now (now_of n message.new) ≤ handling_in set.now context) }
{
    set_caught(alloc, message, fault.get())?;
    if context.has_handlers() {
        Ok(by_clauses(alloc, set, context, fault))
    } else {
        Ok(Course::Stops(End::Failed(taken(alloc, fault))))
    }
}

/// By the clause of the fault, else by the dead letter endpoint.
#[tactic(auto, using(crate::proofs::Faulting::by_nobody, crate::proofs::Falling::clauses_two))]
fn by_clauses(alloc: Global, set: &RouteSet, context: Context, fault: Boxed<Fault>) -> Course
    ensures means { (whole : Option AUri) (m : AMessage) (A : List AnAnswer) → now_mean set.now whole (now_of result m) A ≡ by_clause set.now (clause_for set.now fault) (in_handler context) fault m A }
    ensures falls { (m : AMessage) → now_weight set.now (now_of result m) ≤ clauses_weight set.now set.now.clauses }
{
    match decider(set, fault.get()) {
        Some(clause) => Course::Handles {
            handled: clause.handled,
            continued: clause.continued,
            fault,
            context: context.in_handler(),
            block: clause.block,
        },
        None => undecided(alloc, set, context, fault),
    }
}

/// By the dead letter endpoint, where there is one (Camel manual, *Dead Letter Channel*).
fn undecided(alloc: Global, set: &RouteSet, context: Context, fault: Boxed<Fault>) -> Course
    ensures means { (whole : Option AUri) (m : AMessage) (A : List AnAnswer) → now_mean set.now whole (now_of result m) A ≡ dead_letter set.now set.now.handler.dead (in_handler context) fault m A }
    ensures falls { (m : AMessage) → now_weight set.now (now_of result m) ≤ 2 }
{
    match &set.handler.dead {
        Some(_) => Course::Letters {
            context: context.in_handler(),
        },
        None => Course::Stops(End::Failed(taken(alloc, fault))),
    }
}
