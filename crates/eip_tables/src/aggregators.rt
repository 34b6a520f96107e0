ghost use Rattle.std.specs.Prelude.{◌≡◌, IfOk, MatchOption, Some, None};
ghost use Rattle.eip_plan.specs.Plan.{aggregator_of, aggregator_in, aggregator_among, plain_aggregate};

use eip_exchange::Strategy;
use eip_route::{Aggregate, Block, Expr, Step};
use eip_text::{NoMemory, Text};
use std::alloc::Global;

// The settings of a set's aggregators.

/// The aggregator of a step, where its groups run this block.
fn aggregator_of(step: &Step, block: u32) -> Option<&Aggregate>
    ensures { MatchOption result (aggregator_of block step.now ≡ None) (λ g. aggregator_of block step.now ≡ Some g.now) }
{
    match step {
        Step::Aggregate(setting) => {
            if setting.block == block {
                Some(setting)
            } else {
                None
            }
        }
        _ => None,
    }
}

fn aggregator_in(steps: &[Step], block: u32) -> Option<&Aggregate>
    ensures { MatchOption result (aggregator_in block steps.now ≡ None) (λ g. aggregator_in block steps.now ≡ Some g.now) }
{
    for step in steps {
        let found = aggregator_of(step, block);
        if found.is_some() {
            return found;
        }
    }
    None
}

/// The first aggregator whose groups run this block; None where there is none.
pub fn aggregator_among(blocks: &[Block], block: u32) -> Option<&Aggregate>
    ensures { MatchOption result (aggregator_among block blocks.now ≡ None) (λ g. aggregator_among block blocks.now ≡ Some g.now) }
{
    for found_in in blocks {
        let found = aggregator_in(found_in.steps.items(), block);
        if found.is_some() {
            return found;
        }
    }
    None
}

/// An aggregator of which nothing is said but the block that its groups run.
pub fn plain_aggregate(alloc: Global, block: u32) -> Result<Aggregate, NoMemory>
    ensures { IfOk result (λ a. a ≡ plain_aggregate block) }
{
    let key = Text::of_str(alloc, "")?;
    Ok(Aggregate {
        key: Expr::Constant(key),
        strategy: Strategy::Latest,
        predicate: None,
        size: None,
        timeout: None,
        force: false,
        block,
    })
}
