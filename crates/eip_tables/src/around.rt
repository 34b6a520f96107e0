ghost use Rattle.std.specs.Prelude.{◌≡◌, ◌≤◌, eqb, length, unwrap_or};
ghost use Rattle.std.specs.List.{list_any, position};
ghost use Rattle.eip_route.specs.Faults.{steps_numbers};
ghost use Rattle.eip_route.specs.Nest.{case_numbers, catch_numbers, last_number, step_numbers};
ghost use Rattle.eip_plan.specs.Plan.{outermost, route_around};

use eip_route::{Block, Catch, Check, Route, RouteSet, Step};

// In which route's blocks a block stands.

fn is_among(numbers: &[u32], block: usize) -> bool
    ensures { result ≡ list_any (λ i. eqb i block) numbers.now }
{
    for number in numbers {
        if *number as usize == block {
            return true;
        }
    }
    false
}

fn is_in_cases(cases: &[(Check, u32)], block: usize) -> bool
    ensures { result ≡ list_any (λ i. eqb i block) (case_numbers cases.now) }
{
    for case in cases {
        if case.1 as usize == block {
            return true;
        }
    }
    false
}

fn is_in_catches(catches: &[Catch], block: usize) -> bool
    ensures { result ≡ list_any (λ i. eqb i block) (catch_numbers catches.now) }
{
    for catch in catches {
        if catch.block as usize == block {
            return true;
        }
    }
    false
}

fn is_last(last: Option<u32>, block: usize) -> bool
    ensures { result ≡ list_any (λ i. eqb i block) (last_number last) }
{
    match last {
        Some(number) => number as usize == block,
        None => false,
    }
}

/// Whether this is the number of a block that stands in a step.
#[tactic(auto, unfolding(eip_route::specs::Nest::step_numbers), using(crate::proofs::AnyNumber::any_one, crate::proofs::AnyNumber::any_both))]
fn is_in_step(step: &Step, number: usize) -> bool
    ensures { result ≡ list_any (λ i. eqb i number) (step_numbers step.now) }
{
    match step {
        Step::Choice { cases, otherwise } => {
            is_in_cases(cases.items(), number) || is_last(*otherwise, number)
        }
        Step::Filter { block, .. } | Step::Split { block, .. } | Step::Idempotent { block, .. } => {
            *block as usize == number
        }
        Step::Multicast { blocks, .. } => is_among(blocks.items(), number),
        Step::Aggregate(setting) => setting.block as usize == number,
        Step::Try {
            block,
            catches,
            finish,
        } => {
            *block as usize == number
                || is_in_catches(catches.items(), number)
                || is_last(*finish, number)
        }
        _ => false,
    }
}

fn is_in_steps(steps: &[Step], number: usize) -> bool
    ensures { result ≡ list_any (λ i. eqb i number) (steps_numbers steps.now) }
{
    for step in steps {
        if is_in_step(step, number) {
            return true;
        }
    }
    false
}

/// The number of the outermost block around this one.
fn outermost(blocks: &[Block], block: u32) -> usize
    ensures { result ≡ outermost 0 blocks.now block }
{
    let mut around = block as usize;
    let mut here = blocks.len();
    while here > 0 {
        here -= 1;
        if is_in_steps(blocks[here].steps.items(), around) {
            around = here;
        }
    }
    around
}

/// The first route that runs this block.
fn first_route(routes: &[Route], block: usize) -> usize
    ensures route { result ≡ unwrap_or (position (λ r. eqb r.block block) routes.now) 0 }
    ensures within { result ≤ length routes.now }
{
    for (at, route) in routes.iter().enumerate() {
        if route.block as usize == block {
            return at;
        }
    }
    0
}

/// The route in whose blocks a block stands; one of a clause's blocks is the first route's.
pub fn route_around(set: &RouteSet, block: u32) -> usize
    ensures route { result ≡ route_around set.now block }
    ensures within { result ≤ length set.now.routes }
{
    let outer = outermost(set.blocks.items(), block);
    first_route(set.routes.items(), outer)
}
