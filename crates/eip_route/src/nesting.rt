#![tactic(auto, using(crate::proofs::Firsts::first_some_append, crate::proofs::Firsts::first_some_one, crate::proofs::Firsts::nested_none, crate::proofs::Firsts::nested_in, crate::proofs::Firsts::nested_nowhere))]

ghost use Rattle.std.specs.Prelude.{◌≡◌};
ghost use Rattle.eip_route.specs.Faults as spec;
ghost use Rattle.eip_route.specs.Nest as nest;

use crate::route::{Block, Route, RouteSet};
use crate::step::{Catch, Check, Step};
use eip_exchange::Clause;

/// How deep blocks may be nested, the outermost one included.
const DEPTH: usize = 16;

/// What is looked for among the numbers of blocks.
#[derive(Clone, Copy)]
pub enum Wanted {
    /// A number of no block, or below the least one that may stand there.
    Bad { least: usize },
    /// A block that stands in more blocks than are left.
    Deep { left: usize },
}

/// The first block number that is missing or not greater than that of the block in which its step stands.
pub fn bad_block(set: &RouteSet) -> Option<u32>
    ensures { result ≡ spec.bad_block set.now }
{
    match find_outer(set, Wanted::Bad { least: 0 }) {
        Some(block) => Some(block),
        None => bad_in_blocks(set.blocks.items()),
    }
}

/// The first block that is nested too deep.
pub fn too_nested(set: &RouteSet) -> Option<u32>
    ensures { result ≡ spec.nested_too_deep set.now }
{
    find_outer(set, Wanted::Deep { left: DEPTH })
}

fn bad_in_blocks(blocks: &[Block]) -> Option<u32>
    ensures { result ≡ spec.bad_from blocks.now 0 blocks.now }
{
    for k in 0..blocks.len() {
        let found = find_in_steps(
            blocks,
            Wanted::Bad { least: k + 1 },
            blocks[k].steps.items(),
        );
        if found.is_some() {
            return found;
        }
    }
    None
}

/// Looks at the blocks of the clauses and then at those of the routes.
fn find_outer(set: &RouteSet, wanted: Wanted) -> Option<u32>
    ensures { result ≡ spec.first_some (spec.found set.now.blocks wanted) (spec.outer_numbers set.now) }
{
    let blocks = set.blocks.items();
    match find_in_clauses(blocks, wanted, set.clauses.items()) {
        Some(block) => Some(block),
        None => find_in_routes(blocks, wanted, set.routes.items()),
    }
}

fn find_in_clauses(blocks: &[Block], wanted: Wanted, clauses: &[Clause]) -> Option<u32>
    ensures { result ≡ spec.first_some (spec.found blocks.now wanted) (spec.clauses_numbers clauses.now) }
{
    for clause in clauses {
        let found = find_in_last(blocks, wanted, clause.block);
        if found.is_some() {
            return found;
        }
    }
    None
}

fn find_in_routes(blocks: &[Block], wanted: Wanted, routes: &[Route]) -> Option<u32>
    ensures { result ≡ spec.first_some (spec.found blocks.now wanted) (spec.routes_numbers routes.now) }
{
    for route in routes {
        let found = find(blocks, wanted, route.block);
        if found.is_some() {
            return found;
        }
    }
    None
}

/// Looks at a block, and where it isn't too deep itself at those nested in it.
#[cycle(find)]
fn find(blocks: &[Block], wanted: Wanted, block: u32) -> Option<u32>
    ensures { result ≡ spec.found blocks.now wanted block }
{
    match wanted {
        Wanted::Bad { least } => {
            let number = block as usize;
            if least <= number && number < blocks.len() {
                None
            } else {
                Some(block)
            }
        }
        Wanted::Deep { left } => {
            if left == 0 {
                return Some(block);
            }
            let number = block as usize;
            if number < blocks.len() {
                let inner = Wanted::Deep { left: left - 1 };
                find_in_steps(blocks, inner, blocks[number].steps.items())
            } else {
                None
            }
        }
    }
}

#[cycle(find)]
fn find_in_steps(blocks: &[Block], wanted: Wanted, steps: &[Step]) -> Option<u32>
    ensures { result ≡ spec.first_some (spec.found blocks.now wanted) (spec.steps_numbers steps.now) }
{
    for step in steps {
        let found = find_in_step(blocks, wanted, step);
        if found.is_some() {
            return found;
        }
    }
    None
}

#[cycle(find)]
#[tactic(auto, unfolding(crate::specs::Nest::step_numbers), using(crate::proofs::Firsts::first_some_append, crate::proofs::Firsts::first_some_one))]
fn find_in_step(blocks: &[Block], wanted: Wanted, step: &Step) -> Option<u32>
    ensures { result ≡ spec.first_some (spec.found blocks.now wanted) (nest.step_numbers step.now) }
{
    match step {
        Step::Choice { cases, otherwise } => match find_in_cases(blocks, wanted, cases.items()) {
            Some(block) => Some(block),
            None => find_in_last(blocks, wanted, *otherwise),
        },
        Step::Filter { block, .. } | Step::Split { block, .. } | Step::Idempotent { block, .. } => {
            find(blocks, wanted, *block)
        }
        Step::Aggregate(setting) => find(blocks, wanted, setting.block),
        Step::Multicast {
            blocks: branches,
            ..
        } => find_in_branches(blocks, wanted, branches.items()),
        Step::Try {
            block,
            catches,
            finish,
        } => find_in_try(blocks, wanted, *block, catches.items(), *finish),
        _ => None,
    }
}

/// Looks at a try block, then at those of its catches, then at the last one.
#[cycle(find)]
fn find_in_try(
    blocks: &[Block],
    wanted: Wanted,
    block: u32,
    catches: &[Catch],
    finish: Option<u32>,
) -> Option<u32>
    ensures { result ≡ spec.first_some (spec.found blocks.now wanted) (nest.try_numbers block catches.now finish) }
{
    match find(blocks, wanted, block) {
        Some(block) => Some(block),
        None => match find_in_catches(blocks, wanted, catches) {
            Some(block) => Some(block),
            None => find_in_last(blocks, wanted, finish),
        },
    }
}

#[cycle(find)]
fn find_in_catches(blocks: &[Block], wanted: Wanted, catches: &[Catch]) -> Option<u32>
    ensures { result ≡ spec.first_some (spec.found blocks.now wanted) (nest.catch_numbers catches.now) }
{
    for catch in catches {
        let found = find(blocks, wanted, catch.block);
        if found.is_some() {
            return found;
        }
    }
    None
}

#[cycle(find)]
fn find_in_cases(blocks: &[Block], wanted: Wanted, cases: &[(Check, u32)]) -> Option<u32>
    ensures { result ≡ spec.first_some (spec.found blocks.now wanted) (nest.case_numbers cases.now) }
{
    for (_, block) in cases {
        let found = find(blocks, wanted, *block);
        if found.is_some() {
            return found;
        }
    }
    None
}

#[cycle(find)]
fn find_in_last(blocks: &[Block], wanted: Wanted, last: Option<u32>) -> Option<u32>
    ensures { result ≡ spec.first_some (spec.found blocks.now wanted) (nest.last_number last) }
{
    match last {
        Some(block) => find(blocks, wanted, block),
        None => None,
    }
}

#[cycle(find)]
fn find_in_branches(blocks: &[Block], wanted: Wanted, branches: &[u32]) -> Option<u32>
    ensures { result ≡ spec.first_some (spec.found blocks.now wanted) branches.now }
{
    for block in branches {
        let found = find(blocks, wanted, *block);
        if found.is_some() {
            return found;
        }
    }
    None
}
