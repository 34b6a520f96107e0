ghost use Rattle.std.specs.Prelude.{◌≡◌, All, filter};
ghost use Rattle.eip_history.specs.Rules.{first};
ghost use Rattle.eip_tables.specs.Numbers.{IsNumberOf};
ghost use Rattle.eip_tables.specs.State.{row_outside, outside_at, is_wanted};

use crate::rising::RisingNumbers;
use crate::row::Row;

/// Whether an exchange is known to ask somebody outside, or is not, as it is wanted.
fn is_wanted(row: &Row, outside: bool) -> bool
    ensures { result ≡ is_wanted outside (row_outside row.now) }
{
    let known = row.asks_outside();
    if outside { known } else { !known }
}

/// The first of these numbers whose row is wanted.
pub fn first_wanted(rows: &[Row], numbers: &RisingNumbers, outside: bool) -> Option<u64>
    requires { All (IsNumberOf rows.now) numbers.now.numbers }
    ensures { result ≡ first (filter (λ x. is_wanted outside (outside_at rows.now x)) numbers.now.numbers) }
{
    let (front, rest) = numbers.runs();
    match first_of_run(rows, front, outside) {
        Some(number) => Some(number),
        None => first_of_run(rows, rest, outside),
    }
}

/// The same in one run of them.
fn first_of_run(rows: &[Row], numbers: &[u64], outside: bool) -> Option<u64>
    requires { All (IsNumberOf rows.now) numbers.now }
    ensures { result ≡ first (filter (λ x. is_wanted outside (outside_at rows.now x)) numbers.now) }
{
    for number in numbers {
        if is_wanted(&rows[(*number - 1) as usize], outside) {
            return Some(*number);
        }
    }
    None
}
