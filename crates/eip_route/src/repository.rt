ghost use Rattle.std.specs.Prelude.{◌≡◌, IfOk};
ghost use Rattle.eip_route.specs.Nest as spec;

use eip_text::{NoMemory, Text, decimal};
use std::alloc::Global;

/// The repository of an idempotent consumer that names none: its own, `#` and the number of the block that it runs.
/// No repository that is named is spelled so.
#[tactic(auto, unfolding(crate::specs::Nest::own_repository))]
pub fn own_repository(alloc: Global, block: u32) -> Result<Text, NoMemory>
    ensures { IfOk result (λ t. t ≡ spec.own_repository block) }
{
    let mut name = String::from_str(alloc, "#")?;
    name.push_str(decimal(alloc, u64::from(block))?.as_str())?;
    Ok(Text::of(name))
}
