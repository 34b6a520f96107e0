ghost use Rattle.std.specs.Prelude.{◌≡◌, IfOk, decimal};
ghost use Rattle.std.specs.Fmt.{signed_decimal};
ghost use Rattle.std.specs.Option.{SomeIff};
ghost use Rattle.std.specs.Str.Parse.{signed_digits_value};
ghost use Rattle.eip_text.specs.Numbers.{IsWhole};

use crate::memory::NoMemory;
use crate::text::Text;
use itoa::Buffer;
use std::alloc::Global;

/// The whole number that bytes spell: `Some` exactly for an optional `-` and one or more decimal
/// digits whose value fits an `i64`.
pub fn read_i64(bytes: &[u8]) -> Option<i64>
    ensures { SomeIff result (IsWhole bytes.now) (signed_digits_value 10 bytes.now) }
{
    if bytes.first() == Some(&b'+') {
        return None;
    }
    let Ok(text) = str::from_utf8(bytes) else {
        return None;
    };
    text.parse().ok()
}

/// The number in decimal digits, without leading zeros.
pub fn decimal(alloc: Global, number: u64) -> Result<Text, NoMemory>
    ensures { IfOk result (λ t. t ≡ decimal number) }
{
    let mut digits = Buffer::new();
    Text::of_str(alloc, digits.format(number))
}

/// The number in decimal digits, without leading zeros, and with a `-` where it is below 0.
pub fn signed_decimal(alloc: Global, number: i64) -> Result<Text, NoMemory>
    ensures { IfOk result (λ t. t ≡ signed_decimal number) }
{
    let mut digits = Buffer::new();
    Text::of_str(alloc, digits.format(number))
}
