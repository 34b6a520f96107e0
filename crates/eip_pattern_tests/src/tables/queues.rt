ghost use Rattle.std.specs.Prelude.{◌≡◌, ◌<◌, length, IfOk};

use eip_seda::{OfferFault, Queues};
use eip_table_runs::queues::out_of_turn;
use eip_text::NoMemory;
use std::alloc::Global;
use std::test::*;

/// What a queue answers where these numbers are offered to it, in this order.
fn offered(
    alloc: Global,
    queues: &mut Queues,
    queue: u32,
    numbers: &[u64],
) -> Result<String, NoMemory>
    requires { queue < length queues.old }
    ensures { length queues.new ≡ length queues.old }
{
    let mut answers: Vec<Result<(), OfferFault>> = Vec::new(alloc);
    for number in numbers {
        answers.push(queues.offer(queue, *number))?;
    }
    Ok(format!(in alloc; "{answers:?}")?)
}

/// Who starts from a queue, where so many are to start.
fn started(alloc: Global, queues: &mut Queues, queue: u32, times: u32) -> Result<String, NoMemory>
    requires { queue < length queues.old }
    ensures { length queues.new ≡ length queues.old }
{
    let mut answers = Vec::new(alloc);
    for _time in 0..times {
        answers.push(queues.start(queue))?;
    }
    Ok(format!(in alloc; "{answers:?}")?)
}

/// Two queues: one that holds 2 with one consumer, and one that holds 1,000 with four.
fn two_queues(alloc: Global) -> Result<Queues, NoMemory>
    ensures { IfOk result (λ queues. length queues ≡ 2) }
{
    let mut limits = Vec::new(alloc);
    limits.push((2, 1))?;
    limits.push((1_000, 4))?;
    Queues::new(alloc, limits)
}

/// What two queues answer: offers, and starts of which none ends.
fn filled(alloc: Global) -> Result<[String; 4], NoMemory> {
    let mut queues = two_queues(alloc)?;
    let first = offered(alloc, &mut queues, 0, &[2, 3, 4])?;
    let second = offered(alloc, &mut queues, 1, &[5, 6, 7, 8, 9])?;
    let one = started(alloc, &mut queues, 0, 2)?;
    let four = started(alloc, &mut queues, 1, 6)?;
    Ok([first, second, one, four])
}

#[test]
fn a_queue_takes_as_many_as_it_may_and_starts_as_many_as_it_has_consumers(
    rt: HostRuntime,
) -> Result<(), Fail> {
    let [first, second, one, four] = filled(rt.alloc())?;
    assert_eq!(rt; first.as_str(), "[Ok(()), Ok(()), Err(QueueFull(2))]");
    assert_eq!(rt; second.as_str(), "[Ok(()), Ok(()), Ok(()), Ok(()), Ok(())]");
    assert_eq!(rt; one.as_str(), "[Some(2), None]");
    assert_eq!(rt;
        four.as_str(),
        "[Some(5), Some(6), Some(7), Some(8), None, None]"
    );
    Ok(())
}

#[test]
fn many_numbers_leave_their_queues_in_the_order_in_which_they_came(
    rt: HostRuntime,
) -> Result<(), Fail> {
    assert_eq!(rt; out_of_turn(rt.alloc(), 20_000)?, None);
    Ok(())
}
