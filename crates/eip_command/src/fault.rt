ghost use Rattle.std.specs.Prelude.{◌≡◌, IfOk};
ghost use Rattle.eip_command.specs.Causes as spec;

use eip_route_grammar::{RouteFault, print_cause};
use eip_text::{NoMemory, Text};
use std::alloc::Global;

/// The line `error routes PATH CAUSE` with its line feed.
#[tactic(auto, unfolding(crate::specs::Causes::fault_line))]
pub fn fault_line(alloc: Global, fault: &RouteFault) -> Result<Text, NoMemory>
    ensures { IfOk result (λ t. t ≡ spec.fault_line fault.now) }
{
    let cause = print_cause(alloc, &fault.cause)?;
    let mut out = String::from_str(alloc, "error routes ")?;
    out.push_str(fault.path.as_str())?;
    out.push_str(" ")?;
    out.push_str(cause.as_str())?;
    out.push_str("\n")?;
    Ok(Text::of(out))
}
