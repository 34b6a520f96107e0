ghost use Rattle.std.specs.Prelude.{◌≡◌, Ok, true, IsOk};

use std::fmt::{Debug, Display};
use std::test::Fail;

/// Ok where a test holds, else its failure.
pub fn holds<E: Debug + Drop>(told: Result<bool, E>) -> Result<(), Fail>
    ensures holds { told ≡ Ok true → IsOk result }
    ensures fails { IsOk result → told ≡ Ok true }
{
    if told? {
        Ok(())
    } else {
        Err(Fail::new("it does not hold"))
    }
}

/// Ok where a test holds for a row of its table, else its failure, which names the row.
pub fn holds_for<E: Debug + Drop, R: Display + Drop>(
    told: Result<bool, E>,
    row: R,
) -> Result<(), Fail>
    ensures holds { told ≡ Ok true → IsOk result }
    ensures fails { IsOk result → told ≡ Ok true }
{
    if told? {
        Ok(())
    } else {
        Err(Fail::new(format_args!("it does not hold for {row}")))
    }
}
