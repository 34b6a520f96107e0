ghost use Rattle.std.specs.Prelude.{◌≡◌, ◌+◌, [], ◌∷◌, IfOk};
ghost use Rattle.eip_route.specs.Nest.{number_of};

use eip_exchange::Clause;
use eip_route::{Block, Route, Step};
use eip_text::{NoMemory, Series};
use std::alloc::Global;

/// A step and the blocks nested in it.
#[derive(Drop)]
pub struct BuiltStep {
    pub step: Step,
    pub blocks: Vec<Block>,
}

/// Steps and the blocks nested in them.
#[derive(Drop)]
pub struct BuiltSteps {
    pub steps: Vec<Step>,
    pub blocks: Vec<Block>,
}

/// The numbers of groups of steps, of which each is a block, and these blocks.
#[derive(Drop)]
pub struct BuiltGroups {
    pub numbers: Vec<u32>,
    pub blocks: Vec<Block>,
}

/// Clauses for exceptions and their blocks.
#[derive(Drop)]
pub struct BuiltClauses {
    pub clauses: Vec<Clause>,
    pub blocks: Vec<Block>,
}

/// A route and its blocks.
#[derive(Drop)]
pub struct BuiltRoute {
    pub route: Route,
    pub blocks: Vec<Block>,
}

/// Routes and their blocks.
#[derive(Drop)]
pub struct BuiltRoutes {
    pub routes: Vec<Route>,
    pub blocks: Vec<Block>,
}

/// The number of the block behind so many.
pub fn number(blocks: usize) -> Result<u32, NoMemory>
    ensures { IfOk result (λ m. m ≡ blocks) }
{
    match u32::try_from(blocks) {
        Ok(number) => Ok(number),
        Err(_) => Err(NoMemory),
    }
}

/// The number of the block behind so many from this one.
pub fn after(first: u32, blocks: usize) -> Result<u32, NoMemory>
    ensures { IfOk result (λ m. m ≡ first + blocks) }
{
    let more = number(blocks)?;
    match first.checked_add(more) {
        None => Err(NoMemory),
        Some(sum) => Ok(sum),
    }
}

/// The number of a block that may be absent.
pub fn number_at(number: u32, blocks: &[Block]) -> Option<u32>
    ensures { result ≡ number_of number blocks.now }
{
    match blocks {
        [] => None,
        [_, ..] => Some(number),
    }
}

/// The block without steps.
pub fn empty_block(alloc: Global) -> Result<Vec<Block>, NoMemory>
    ensures { IfOk result (λ bs. bs.items ≡ record { steps = [] } ∷ []) }
{
    let mut blocks = Vec::new(alloc);
    blocks.push(Block {
        steps: Series::of(Vec::new(alloc)),
    })?;
    Ok(blocks)
}

/// The block of these steps, and then those nested in it.
pub fn headed(alloc: Global, inner: BuiltSteps) -> Result<Vec<Block>, NoMemory>
    ensures { IfOk result (λ bs. bs.items ≡ record { steps = inner.steps.items } ∷ inner.blocks.items) }
{
    let BuiltSteps { steps, mut blocks } = inner;
    let mut all = Vec::new(alloc);
    all.push(Block {
        steps: Series::of(steps),
    })?;
    all.append(&mut blocks)?;
    Ok(all)
}

/// The block of one step, and then those nested in it.
pub fn branch(alloc: Global, inner: BuiltStep) -> Result<Vec<Block>, NoMemory>
    ensures { IfOk result (λ bs. bs.items ≡ record { steps = inner.step ∷ [] } ∷ inner.blocks.items) }
{
    let BuiltStep { step, mut blocks } = inner;
    let mut steps = Vec::new(alloc);
    steps.push(step)?;
    let mut all = Vec::new(alloc);
    all.push(Block {
        steps: Series::of(steps),
    })?;
    all.append(&mut blocks)?;
    Ok(all)
}
