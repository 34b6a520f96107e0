ghost use Rattle.std.specs.Prelude.{◌≡◌, ◌<◌, length, option_map, IfSome};
ghost use Rattle.eip_text.specs.Cuts as cuts;
ghost use Rattle.eip_dump.specs.Reading as spec;
ghost use Rattle.eip_dump.specs.Reading.{Gives};

use crate::fault::Stop;

/// What stands behind a word, where the bytes begin with it.
pub fn behind<'b>(bytes: &'b [u8], word: &[u8]) -> Option<&'b [u8]>
    ensures { option_map (λ x. x.now) result ≡ cuts.behind word.now bytes.now }
{
    bytes.strip_prefix(word)
}

/// The digit in front, and what stands behind it.
fn digit_at(bytes: &[u8]) -> Option<(u64, &[u8])>
    ensures value { option_map (λ x. (x.0, x.1.now)) result ≡ spec.digit_at bytes.now }
    ensures shorter { IfSome result (λ x. length x.1.now < length bytes.now) }
{
    let (first, rest) = bytes.split_first()?;
    if first.is_ascii_digit() {
        Some((u64::from(*first - b'0'), rest))
    } else {
        None
    }
}

/// The number that the digits in front spell, where it fits, and what stands behind them.
pub fn digits(bytes: &[u8]) -> Result<(u64, &[u8]), Stop>
    ensures { Gives (λ x. (x.0, x.1.now)) result (spec.digits_behind 0 bytes.now) }
{
    let mut value: u64 = 0;
    let mut rest = bytes;
    while let Some((digit, more)) = digit_at(rest) {
        value = with_digit(value, digit)?;
        rest = more;
    }
    Ok((value, rest))
}

/// The number with one more digit, where it fits.
fn with_digit(value: u64, digit: u64) -> Result<u64, Stop>
    requires { digit < 10 }
    ensures { Gives (λ n. n) result (spec.with_digit value digit) }
{
    match value.checked_mul(10) {
        Some(tens) => match tens.checked_add(digit) {
            Some(number) => Ok(number),
            None => Err(Stop::Bad),
        },
        None => Err(Stop::Bad),
    }
}

/// A number behind a space.
#[tactic(auto, unfolding(crate::specs::Reading::number_at))]
pub fn number_at(bytes: &[u8]) -> Result<(u64, &[u8]), Stop>
    ensures { Gives (λ x. (x.0, x.1.now)) result (spec.number_at bytes.now) }
{
    let Some(rest) = behind(bytes, b" ") else {
        return Err(Stop::Bad);
    };
    digits(rest)
}

/// The number, where it fits 32 bits.
pub fn small(number: u64) -> Result<u32, Stop>
    ensures { Gives (λ n. n) result (spec.small number) }
{
    match u32::try_from(number) {
        Ok(small) => Ok(small),
        Err(_) => Err(Stop::Bad),
    }
}

/// A number of 32 bits behind a space.
#[tactic(auto, unfolding(crate::specs::Reading::small_at))]
pub fn small_at(bytes: &[u8]) -> Result<(u32, &[u8]), Stop>
    ensures { Gives (λ x. (x.0, x.1.now)) result (spec.small_at bytes.now) }
{
    let (number, rest) = number_at(bytes)?;
    Ok((small(number)?, rest))
}
