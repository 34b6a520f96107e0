#![tactic(auto, using(eip_route_canonical::proofs::Objects::trees, crate::proofs::Opened::opened))]

ghost use Rattle.std.specs.Prelude.{◌≡◌, ◌<◌, ◌++◌, length, IfOk, OnOk};
ghost use Rattle.eip_text.specs.Json.{json};
ghost use Rattle.eip_route_print.specs.Seen as spec;
ghost use Rattle.eip_route_canonical.specs.Trees.{left, values_of};

use eip_route::{Block, Step};
use eip_route_canonical::Groups;
use eip_route_canonical::steps::{block_numbers, step_tree};
use eip_text::{NoMemory, Tree};
use std::alloc::Global;

/// The steps of a block behind these trees.
#[cycle(print)]
pub fn push_block(
    alloc: Global,
    items: &mut Vec<Tree>,
    blocks: &[Block],
    block: u32,
) -> Result<(), NoMemory>
    ensures { OnOk result (values_of items.new.items ≡ values_of items.old.items ++ spec.block_json blocks.now block) }
{
    let number = block as usize;
    if number < blocks.len() {
        push_steps(alloc, items, blocks, block, blocks[number].steps.items())?;
    }
    Ok(())
}

/// The steps of a block, of which `steps` are the last, behind these trees.
#[cycle(print)]
fn push_steps(
    alloc: Global,
    items: &mut Vec<Tree>,
    blocks: &[Block],
    block: u32,
    steps: &[Step],
) -> Result<(), NoMemory>
    requires { block < length blocks.now }
    ensures { OnOk result (values_of items.new.items ≡ values_of items.old.items ++ spec.steps_in blocks.now block steps.now) }
{
    for step in steps {
        let tree = print_step(alloc, blocks, block, step)?;
        items.push(tree)?;
    }
    Ok(())
}

/// The tree of a step of a block.
#[cycle(print)]
#[tactic(auto, using(crate::proofs::Opened::step_same))]
fn print_step(alloc: Global, blocks: &[Block], block: u32, step: &Step) -> Result<Tree, NoMemory>
    requires { block < length blocks.now }
    ensures { IfOk result (λ t. json t ≡ spec.step_in blocks.now block step.now) }
{
    let numbers = block_numbers(alloc, step)?;
    let groups = print_groups(alloc, blocks, block, numbers.as_slice())?;
    Ok(step_tree(alloc, step, groups)?)
}

/// The steps of each of these blocks, which are nested in another.
#[cycle(print)]
fn print_groups(
    alloc: Global,
    blocks: &[Block],
    block: u32,
    numbers: &[u32],
) -> Result<Groups, NoMemory>
    requires { block < length blocks.now }
    ensures { IfOk result (λ gs. left gs ≡ spec.groups_in blocks.now block numbers.now) }
{
    let mut groups = Groups::new(alloc);
    for inner in numbers {
        let steps = print_nested(alloc, blocks, block, *inner)?;
        groups.push(steps)?;
    }
    Ok(groups)
}

/// The steps of a block that is nested in another.
#[cycle(print)]
fn print_nested(
    alloc: Global,
    blocks: &[Block],
    block: u32,
    inner: u32,
) -> Result<Vec<Tree>, NoMemory>
    requires { block < length blocks.now }
    ensures { IfOk result (λ ts. values_of ts.items ≡ spec.seen_json blocks.now block inner) }
{
    let mut items = Vec::new(alloc);
    if block < inner {
        push_block(alloc, &mut items, blocks, inner)?;
    }
    Ok(items)
}
