use eip_exchange::Ending;
use eip_idempotent::{Offered, Repo};
use eip_text::{NoMemory, Text, decimal};
use std::alloc::Global;

/// The numbers below a count in another order.
fn mixed(number: u64, count: u64) -> u64 {
    number.wrapping_mul(7_919).checked_rem(count).unwrap_or(0)
}

/// Each number below a count claims itself as a key, one of three eagerly. How many offers weren't fresh.
fn claim_all(
    alloc: Global,
    repo: &mut Repo,
    repository: &Text,
    count: u64,
) -> Result<u64, NoMemory> {
    let mut held: u64 = 0;
    for number in 0..count {
        let key = decimal(alloc, number)?;
        if repo.offer(repository, &key, number, number % 3 == 0, true)? != Offered::Fresh {
            held = held.saturating_add(1);
        }
    }
    Ok(held)
}

/// All end, in another order: the even ones complete, and a handler takes the faults of the others.
fn end_all(repo: &mut Repo, count: u64) {
    for turn in 0..count {
        let number = mixed(turn, count);
        if number % 2 == 0 {
            repo.settle(number, Ending::Completed);
        } else {
            repo.settle(number, Ending::Handled);
        }
    }
}

/// Another offers the key of a number: whether an even one holds it, and nobody that of an odd one.
fn is_held_by_itself(
    alloc: Global,
    repo: &mut Repo,
    repository: &Text,
    number: u64,
    offering: u64,
) -> Result<bool, NoMemory> {
    let key = decimal(alloc, number)?;
    let want = if number % 2 == 0 {
        Offered::Duplicate(number)
    } else {
        Offered::Fresh
    };
    Ok(repo.offer(repository, &key, offering, true, true)? == want)
}

/// So many keys are claimed, settled and offered again in another order: the first that isn't held by its own even number
/// alone, or `count` where an offer of a new key was no fresh one.
pub fn first_wrong(alloc: Global, count: u64) -> Result<Option<u64>, NoMemory> {
    let repository = Text::of_str(alloc, "in")?;
    let mut repo = Repo::new(alloc);
    if claim_all(alloc, &mut repo, &repository, count)? != 0 {
        return Ok(Some(count));
    }
    end_all(&mut repo, count);
    for turn in 0..count {
        let number = mixed(turn, count);
        let offering = count.saturating_add(turn);
        if !is_held_by_itself(alloc, &mut repo, &repository, number, offering)? {
            return Ok(Some(number));
        }
    }
    Ok(None)
}

/// The numbers below a count offer one key, none of them eagerly.
fn offer_all(repo: &mut Repo, repository: &Text, key: &Text, count: u64) -> Result<(), NoMemory> {
    for number in 0..count {
        repo.offer(repository, key, number, false, true)?;
    }
    Ok(())
}

/// The number completes. Whether it is the holder of the key from then on, which another offers.
fn is_held_at_the_end(
    repo: &mut Repo,
    repository: &Text,
    key: &Text,
    number: u64,
    offering: u64,
) -> Result<bool, NoMemory> {
    repo.settle(number, Ending::Completed);
    let offered = repo.offer(repository, key, offering, false, true)?;
    Ok(offered == Offered::Duplicate(number))
}

/// The first of so many ends, the greatest number's first, behind which the key isn't held by the number that ended last.
pub fn wrong_holder(alloc: Global, count: u64) -> Result<Option<u64>, NoMemory> {
    let (repository, key) = (Text::of_str(alloc, "in")?, Text::of_str(alloc, "k")?);
    let mut repo = Repo::new(alloc);
    offer_all(&mut repo, &repository, &key, count)?;
    for turn in 0..count {
        let number = count - 1 - turn;
        if !is_held_at_the_end(&mut repo, &repository, &key, number, count)? {
            return Ok(Some(number));
        }
    }
    Ok(None)
}
