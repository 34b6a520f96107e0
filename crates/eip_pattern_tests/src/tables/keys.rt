use eip_exchange::Ending;
use eip_idempotent::{Offered, Repo};
use eip_table_runs::keys::{first_wrong, wrong_holder};
use eip_text::{NoMemory, Text};
use std::alloc::Global;
use std::test::*;

/// What an exchange does: it offers the key, or it ends.
#[derive(Clone, Copy)]
enum Step {
    Offer(u64),
    Complete(u64),
    Handle(u64),
    Fail(u64),
}

/// What the offers of one key are answered among these steps.
fn answers(alloc: Global, eager: bool, remove: bool, steps: &[Step]) -> Result<String, NoMemory> {
    let (repository, key) = (Text::of_str(alloc, "in")?, Text::of_str(alloc, "k")?);
    let mut repo = Repo::new(alloc);
    let mut answers = Vec::new(alloc);
    for step in steps {
        match step {
            Step::Offer(number) => {
                answers.push(repo.offer(&repository, &key, *number, eager, remove)?)?;
            }
            Step::Complete(number) => repo.settle(*number, Ending::Completed),
            Step::Handle(number) => repo.settle(*number, Ending::Handled),
            Step::Fail(number) => repo.settle(*number, Ending::Failed),
        }
    }
    Ok(format!(in alloc; "{answers:?}")?)
}

/// 1 waits for another try while 2 and 3 come and complete, then it completes, and 4 comes.
const TRIED_AGAIN: [Step; 7] = [
    Step::Offer(1),
    Step::Offer(2),
    Step::Complete(2),
    Step::Offer(3),
    Step::Complete(3),
    Step::Complete(1),
    Step::Offer(4),
];

#[test]
fn a_key_that_is_not_eager_is_held_from_an_end_on(rt: HostRuntime) -> Result<(), Fail> {
    let said = answers(rt.alloc(), false, true, &TRIED_AGAIN)?;
    assert_eq!(rt; said.as_str(), "[Fresh, Fresh, Duplicate(2), Duplicate(1)]");
    Ok(())
}

#[test]
fn an_eager_key_is_held_at_once(rt: HostRuntime) -> Result<(), Fail> {
    let said = answers(rt.alloc(), true, true, &TRIED_AGAIN)?;
    assert_eq!(rt;
        said.as_str(),
        "[Fresh, Duplicate(1), Duplicate(1), Duplicate(1)]"
    );
    Ok(())
}

#[test]
fn a_failure_gives_a_key_up_where_it_is_to_be_removed(rt: HostRuntime) -> Result<(), Fail> {
    let steps = [
        Step::Offer(1),
        Step::Offer(1),
        Step::Fail(1),
        Step::Offer(2),
        Step::Handle(2),
        Step::Offer(3),
    ];
    let said = answers(rt.alloc(), true, true, &steps)?;
    assert_eq!(rt; said.as_str(), "[Fresh, Duplicate(1), Fresh, Fresh]");
    let said = answers(rt.alloc(), true, false, &steps)?;
    assert_eq!(rt;
        said.as_str(),
        "[Fresh, Duplicate(1), Duplicate(1), Duplicate(1)]"
    );
    let said = answers(rt.alloc(), false, false, &steps)?;
    assert_eq!(rt; said.as_str(), "[Fresh, Fresh, Duplicate(1), Duplicate(1)]");
    Ok(())
}

/// What a table with the key `k` of `in` answers to this one.
fn beside(alloc: Global, repository: &str, key: &str) -> Result<Offered, NoMemory> {
    let (repository, key) = (Text::of_str(alloc, repository)?, Text::of_str(alloc, key)?);
    let mut repo = Repo::new(alloc);
    let (own, k) = (Text::of_str(alloc, "in")?, Text::of_str(alloc, "k")?);
    repo.offer(&own, &k, 1, true, true)?;
    repo.offer(&repository, &key, 2, true, true)
}

#[test]
fn keys_are_apart_by_repository_and_text(rt: HostRuntime) -> Result<(), Fail> {
    assert_eq!(rt; beside(rt.alloc(), "in", "k")?, Offered::Duplicate(1));
    assert_eq!(rt; beside(rt.alloc(), "in", "K")?, Offered::Fresh);
    assert_eq!(rt; beside(rt.alloc(), "i", "nk")?, Offered::Fresh);
    assert_eq!(rt; beside(rt.alloc(), "", "k")?, Offered::Fresh);
    Ok(())
}

#[test]
fn many_keys_are_held_by_those_who_completed(rt: HostRuntime) -> Result<(), Fail> {
    assert_eq!(rt; first_wrong(rt.alloc(), 20_000)?, None);
    Ok(())
}

#[test]
fn of_many_holders_the_least_is_told(rt: HostRuntime) -> Result<(), Fail> {
    assert_eq!(rt; wrong_holder(rt.alloc(), 20_000)?, None);
    Ok(())
}
