use eip_redelivery::Retries;
use eip_text::NoMemory;
use std::alloc::Global;

/// The sleepers 1, 2, 3 and so on with these moments, in this order.
pub fn sleepers(alloc: Global, moments: &[u64]) -> Result<Retries, NoMemory> {
    let mut retries = Retries::new(alloc);
    for (at, due) in moments.iter().enumerate() {
        retries.sleep(at as u64 + 1, *due)?;
    }
    Ok(retries)
}

/// When a sleeper of so many wakes: each at a moment of its own, in another order than their numbers.
fn moment_of(number: u64, count: u64) -> u64 {
    number.wrapping_mul(7_919).checked_rem(count).unwrap_or(0)
}

/// So many fall asleep, and wake in the order of their moments: the first moment at which another wakes than the one that
/// sleeps until then, or one that is left at the end.
pub fn out_of_turn(alloc: Global, count: u64) -> Result<Option<u64>, NoMemory> {
    let mut moments = Vec::new(alloc);
    for number in 0..count {
        moments.push(moment_of(number + 1, count))?;
    }
    let mut retries = sleepers(alloc, moments.as_slice())?;
    for tick in 0..count {
        match retries.wake(tick) {
            Some(number) if moment_of(number, count) == tick => {}
            _ => return Ok(Some(tick)),
        }
    }
    Ok(retries.least())
}
