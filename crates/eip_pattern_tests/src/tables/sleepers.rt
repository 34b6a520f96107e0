use eip_table_runs::sleepers::{out_of_turn, sleepers};
use eip_text::NoMemory;
use std::alloc::Global;
use std::test::*;

/// Who wakes of them at each of these ticks, one at a time, and the first moment that is left.
fn woken(alloc: Global, moments: &[u64], ticks: &[u64]) -> Result<String, NoMemory> {
    let mut retries = sleepers(alloc, moments)?;
    let mut numbers = Vec::new(alloc);
    for tick in ticks {
        numbers.push(retries.wake(*tick))?;
    }
    let left = retries.least();
    Ok(format!(in alloc; "{numbers:?} {left:?}")?)
}

#[test]
fn sleepers_wake_at_their_moments(rt: HostRuntime) -> Result<(), Fail> {
    let said = woken(rt.alloc(), &[1_000], &[999, 1_000, 1_000])?;
    assert_eq!(rt; said.as_str(), "[None, Some(1), None] None");
    let said = woken(rt.alloc(), &[3, 8], &[2, 3, 3])?;
    assert_eq!(rt; said.as_str(), "[None, Some(1), None] Some(8)");
    let said = woken(rt.alloc(), &[], &[5])?;
    assert_eq!(rt; said.as_str(), "[None] None");
    Ok(())
}

#[test]
fn the_first_moment_wakes_first_and_of_equal_ones_the_least_number(
    rt: HostRuntime,
) -> Result<(), Fail> {
    let said = woken(rt.alloc(), &[12, 10, 10, 9], &[12, 12, 12, 11])?;
    assert_eq!(rt; said.as_str(), "[Some(4), Some(2), Some(3), None] Some(12)");
    Ok(())
}

#[test]
fn many_sleepers_wake_in_the_order_of_their_moments(rt: HostRuntime) -> Result<(), Fail> {
    assert_eq!(rt; out_of_turn(rt.alloc(), 20_000)?, None);
    Ok(())
}
