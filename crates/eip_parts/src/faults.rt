ghost use Rattle.std.specs.Prelude.{◌≡◌, ◌++◌, ◌≢◌, [], codes, decimal, IfOk};
ghost use Rattle.eip_exchange.specs.Ends.{fault};
ghost use Rattle.eip_strategy.specs.declared.fault.StrategyFault.TheVariants.{NoMemory as NoMemoryLeft};
ghost use Rattle.eip_meaning.specs.Values.{too_long};
ghost use Rattle.eip_meaning.specs.FanOuts.{too_many_parts};
ghost use Rattle.eip_meaning.specs.Parts.{fault_of_strategy};

use crate::values::empty;
use eip_exchange::Fault;
use eip_strategy::StrategyFault;
use eip_text::{Boxed, NoMemory, Text, decimal};
use std::alloc::Global;

/// A fault of this kind without a text.
pub fn bare_fault(alloc: Global, kind: &str) -> Result<Fault, NoMemory>
    ensures { IfOk result (λ f. f ≡ fault kind.now []) }
{
    Ok(Fault {
        kind: Text::of_str(alloc, kind)?,
        text: empty(alloc),
    })
}

/// A fault of this kind with this text.
pub fn told_fault(alloc: Global, kind: &str, text: Text) -> Result<Fault, NoMemory>
    ensures { IfOk result (λ f. f ≡ fault kind.now text) }
{
    Ok(Fault {
        kind: Text::of_str(alloc, kind)?,
        text,
    })
}

/// A fault of this kind, whose text is a scheme and a name.
pub fn named_fault(alloc: Global, kind: &str, scheme: &str, name: &Text) -> Result<Fault, NoMemory>
    ensures { IfOk result (λ f. f ≡ fault kind.now (scheme.now ++ name.now)) }
{
    let mut text = String::from_str(alloc, scheme)?;
    text.push_str(name.as_str())?;
    told_fault(alloc, kind, Text::of(text))
}

/// A fault of this kind, whose text is a number.
pub fn counted_fault(alloc: Global, kind: &str, number: usize) -> Result<Fault, NoMemory>
    ensures { IfOk result (λ f. f ≡ fault kind.now (decimal number)) }
{
    told_fault(alloc, kind, decimal(alloc, number as u64)?)
}

/// A value is too long.
pub fn too_long(alloc: Global) -> Result<Fault, NoMemory>
    ensures { IfOk result (λ f. f ≡ too_long) }
{
    bare_fault(alloc, "TooLong")
}

/// A fan-out would have so many parts.
pub fn too_many_parts(alloc: Global, count: usize) -> Result<Fault, NoMemory>
    ensures { IfOk result (λ f. f ≡ too_many_parts count) }
{
    counted_fault(alloc, "TooManyParts", count)
}

/// A fault of a strategy, as an exchange has it.
pub fn strategy_fault(alloc: Global, found: StrategyFault) -> Result<Fault, NoMemory>
    ensures { IfOk result (λ f. (f ≡ fault_of_strategy found) × (found ≢ NoMemoryLeft)) }
{
    match found {
        StrategyFault::TooLong => Ok(too_long(alloc)?),
        StrategyFault::NotNumber => Ok(bare_fault(alloc, "NotNumber")?),
        StrategyFault::SumTooLarge => Ok(bare_fault(alloc, "SumTooLarge")?),
        StrategyFault::NoMemory => Err(NoMemory),
    }
}

/// The fault, out of its box. It takes no memory.
pub fn taken(alloc: Global, fault: Boxed<Fault>) -> Fault
    ensures { result ≡ fault }
{
    let mut fault = fault;
    let kind = empty(alloc);
    let text = empty(alloc);
    fault.replace(Fault { kind, text })
}
