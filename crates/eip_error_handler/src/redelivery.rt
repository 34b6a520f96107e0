ghost use Rattle.std.specs.Prelude.{◌≡◌, ◌≤◌, ◌^◌, ◌-◌, ◌↔◌, min, IsTrue};
ghost use Rattle.eip_error_handler.specs.Redelivery as spec;

use eip_exchange::Policy;

/// How often a step is tried again where no policy says (Camel manual, *Redelivery Policy*).
const MAXIMUM: u32 = 0;

/// Ticks before the first new try where no policy says.
const DELAY: u64 = 1_000;

/// By what the delay grows where it grows and no policy says.
const MULTIPLIER: u64 = 2;

/// The greatest delay in ticks where no policy says.
const GREATEST: u64 = 60_000;

/// The policy of a fault: each attribute as its clause gives it, else as the handler gives it (Camel manual, *Exception
/// Clause*). Where no clause was chosen, the handler's own policy holds.
#[tactic(auto, unfolding(crate::specs::Redelivery::merged_policy))]
pub fn merged(clause: &Policy, handler: &Policy) -> Policy
    ensures { result ≡ spec.merged_policy clause.now handler.now }
{
    Policy {
        maximum: clause.maximum.or(handler.maximum),
        delay: clause.delay.or(handler.delay),
        multiplier: clause.multiplier.or(handler.multiplier),
        backing_off: clause.backing_off.or(handler.backing_off),
        greatest: clause.greatest.or(handler.greatest),
    }
}

/// Whether a step that has had so many faults, the latest with this policy, is tried again.
pub fn may_retry(policy: &Policy, faults: u32) -> bool
    ensures { IsTrue result ↔ (faults ≤ spec.maximum_of policy.now) }
{
    faults <= policy.maximum.unwrap_or(MAXIMUM)
}

/// The ticks before the new try with this number, from 1: the delay of the policy, which grows from try to try where
/// backing off is on, and is never above the greatest one (Camel manual, *Redelivery Policy*). A product beyond 64 bits
/// is above every greatest delay.
#[tactic(auto, unfolding(crate::specs::Redelivery::delay_of))]
pub fn delay(policy: &Policy, redelivery: u32) -> u64
    requires { 1 ≤ redelivery }
    ensures { result ≡ spec.delay_of policy.now redelivery }
{
    let greatest = policy.greatest.unwrap_or(GREATEST);
    let grown = policy
        .delay
        .unwrap_or(DELAY)
        .saturating_mul(growth(policy, redelivery));
    grown.min(greatest)
}

/// By what the delay has grown before the new try with this number, or the greatest word where it is more.
fn growth(policy: &Policy, redelivery: u32) -> u64
    requires { 1 ≤ redelivery }
    ensures { result ≡ min (spec.growth_of policy.now redelivery) (2 ^ 64 - 1) }
{
    if policy.backing_off.unwrap_or(policy.multiplier.is_some()) {
        policy
            .multiplier
            .unwrap_or(MULTIPLIER)
            .saturating_pow(redelivery - 1)
    } else {
        1
    }
}
