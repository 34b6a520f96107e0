ghost use Rattle.std.specs.Prelude.{◌≡◌};
ghost use Rattle.eip_text.specs.Numbers.{whole_of};
ghost use Rattle.eip_simple.specs.Orders.{order};

use eip_text::read_i64;
use std::cmp::Ordering;

/// The whole number of 64 bits that a text spells.
pub fn number(text: &str) -> Option<i64>
    ensures { result ≡ whole_of text.now }
{
    read_i64(text.as_bytes())
}

/// The order of two texts: as numbers where both are whole numbers, else by their bytes.
#[tactic(auto, unfolding(crate::specs::Orders::order))]
pub fn order(left: &str, right: &str) -> Ordering
    ensures { result ≡ order left.now right.now }
{
    match (number(left), number(right)) {
        (Some(left), Some(right)) => left.cmp(&right),
        _ => left.cmp(right),
    }
}
