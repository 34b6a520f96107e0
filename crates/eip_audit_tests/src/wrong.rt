use crate::routes::{GROUPED, JOINED, KEYED, LOGGING, QUEUED, RETRYING};
use crate::support::{Outcome, outcomes_of, wrong};
use eip_test_support::joined;
use eip_text::NoMemory;
use std::alloc::Global;
use std::test::*;

/// Two workers beside worker 0, and no entry.
const NONE: &str = "eip-journal 1 2 99\n";

/// Worker 1 has pulled the source.
const PULLED: &str = "eip-journal 1 2 99\n1 pull 0\n";

/// The first item is the line `a`.
const ITEM: &str = "eip-journal 1 2 99\n1 pull 0\n1 accept 0 \"1\" \"a\" 0 0\n";

/// Routes, a journal, what comes behind it, and the first entry that breaks its rule, with the rule.
type Row = (&'static str, &'static str, &'static str, u64, u32);

/// Entries of sources that break their rules.
const OF_SOURCES: [Row; 15] = [
    (LOGGING, PULLED, "2 pull 0\n1 end 0\n", 2, 1),
    (LOGGING, PULLED, "1 end 0\n1 pull 0\n", 3, 1),
    // there is no such route; it is a queue; there is no such worker; the one turn is spent
    (LOGGING, NONE, "0 pull 1\n", 1, 1),
    (QUEUED, NONE, "0 pull 1\n", 1, 1),
    (LOGGING, NONE, "3 pull 0\n", 1, 1),
    (
        LOGGING,
        "eip-journal 1 0 1\n",
        "0 pull 0\n0 refuse 0 \"1\" TooLong\n0 pull 0\n",
        3,
        1,
    ),
    (LOGGING, ITEM, "1 accept 0 \"2\" \"a\" 0 0\n", 3, 2),
    (LOGGING, PULLED, "2 accept 0 \"1\" \"a\" 0 0\n", 2, 2),
    (
        LOGGING,
        PULLED,
        "1 accept 0 \"1\" \"a\" 0 1 \"p\" \"q\"\n",
        2,
        2,
    ),
    (LOGGING, NONE, "0 refuse 0 \"1\" TooLong\n", 1, 3),
    (LOGGING, PULLED, "2 refuse 0 \"1\" TooLong\n", 2, 3),
    (LOGGING, PULLED, "1 end 0\n1 end 0\n", 3, 4),
    (LOGGING, PULLED, "2 end 0\n", 2, 4),
    (LOGGING, PULLED, "1 fault 0\n1 fault 0\n", 3, 5),
    (QUEUED, NONE, "0 fault 1\n", 1, 5),
];

/// Two copies of the first item wait, each in a queue of its own.
const WAITING: &str =
    "eip-journal 1 2 99\n1 pull 0\n1 accept 0 \"1\" \"a\" 0 0\n0 answer 1 queued 2\n0 answer 1 queued 3\n";

/// Starts, takes, ends for want of memory and returns that break their rules.
const OF_HANDS: [Row; 13] = [
    // another one waits there; nobody does any more; it is no queue; there is no such route
    (QUEUED, WAITING, "0 start 1 3\n", 5, 6),
    (QUEUED, WAITING, "0 start 1 2\n0 start 1 2\n", 6, 6),
    (QUEUED, WAITING, "0 start 0 2\n", 5, 6),
    (QUEUED, WAITING, "0 start 3 2\n", 5, 6),
    // the queue's one consumer is at work
    (
        QUEUED,
        WAITING,
        "0 pull 0\n0 accept 0 \"2\" \"b\" 0 0\n0 answer 4 queued 5\n0 start 1 2\n0 start 1 5\n",
        9,
        6,
    ),
    (LOGGING, ITEM, "0 take 1\n", 3, 7),
    (RETRYING, ITEM, "1 take 1\n2 take 1\n", 4, 7),
    (RETRYING, ITEM, "0 take 2\n", 3, 7),
    (RETRYING, ITEM, "2 take 1\n1 starve 1\n", 4, 11),
    (LOGGING, ITEM, "0 starve 1\n0 starve 1\n", 4, 11),
    (LOGGING, ITEM, "0 starve 2\n", 3, 11),
    // nobody hands an exchange back
    (RETRYING, ITEM, "2 take 1\n2 return 1\n", 4, 12),
    (RETRYING, ITEM, "2 take 1\n0 return 1\n", 4, 12),
];

/// Answers that break their rule.
const OF_ANSWERS: [Row; 13] = [
    // the line of the log is missing
    (LOGGING, ITEM, "0 answer 1 finished\n", 3, 8),
    // it fits another request
    (RETRYING, ITEM, "0 take 1\n0 answer 1 noted\n", 4, 8),
    (LOGGING, ITEM, "0 answer 1 done\n", 3, 8),
    // another worker has it in hand, and nobody does
    (RETRYING, ITEM, "2 take 1\n1 answer 1 done\n", 4, 8),
    (RETRYING, ITEM, "0 answer 1 done\n", 3, 8),
    // it goes on where it was sent, and it sleeps for a thousand ticks
    (
        RETRYING,
        ITEM,
        "0 take 1\n0 answer 1 done\n0 answer 1 slept 1000\n",
        5,
        8,
    ),
    (
        RETRYING,
        ITEM,
        "0 take 1\n0 answer 1 failed\n0 answer 1 slept 999\n",
        5,
        8,
    ),
    // the next number is 2
    (QUEUED, ITEM, "0 answer 1 queued 3\n", 3, 8),
    // the first one holds the key
    (
        KEYED,
        ITEM,
        "0 answer 1 fresh\n0 pull 0\n0 accept 0 \"2\" \"a\" 0 0\n0 answer 2 duplicate 2\n",
        6,
        8,
    ),
    (
        KEYED,
        ITEM,
        "0 answer 1 fresh\n0 pull 0\n0 accept 0 \"2\" \"a\" 0 0\n0 answer 2 fresh\n",
        6,
        8,
    ),
    // a part has not ended, and the parts in another order
    (
        JOINED,
        ITEM,
        "0 answer 1 born 2 2\n0 answer 2 finished\n0 answer 1 joined 2 completed \"x\" 0 0 completed \"y\" 0 0\n",
        5,
        8,
    ),
    (
        JOINED,
        ITEM,
        "0 answer 1 born 2 2\n0 answer 2 finished\n0 answer 3 finished\n0 answer 1 joined 2 completed \"y\" 0 0 completed \"x\" 0 0\n",
        6,
        8,
    ),
    // the group has as many parts as it may
    (
        GROUPED,
        ITEM,
        "0 answer 1 arrived 1\n0 pull 0\n0 accept 0 \"2\" \"b\" 0 0\n0 answer 2 arrived 1\n",
        6,
        8,
    ),
];

/// The first item sleeps until 1000, and the source has no more.
const ASLEEP: &str =
    "eip-journal 1 2 99\n1 pull 0\n1 accept 0 \"1\" \"a\" 0 0\n0 take 1\n0 answer 1 failed\n0 answer 1 slept 1000\n0 pull 0\n0 end 0\n";

/// Ticks and closings by force that break their rules.
const OF_THE_CLOCK: [Row; 8] = [
    (RETRYING, ASLEEP, "0 tick 1001\n0 take 1\n", 8, 9),
    (RETRYING, ASLEEP, "0 tick 999\n", 8, 9),
    (RETRYING, ASLEEP, "0 tick 1000\n0 tick 1000\n", 9, 9),
    // the sleeper has its tick to come
    (RETRYING, ASLEEP, "0 take 1\n", 8, 7),
    (RETRYING, ASLEEP, "0 force\n", 8, 10),
    // somebody may act; no group is open; the source may give more
    (LOGGING, ITEM, "0 tick 1\n", 3, 9),
    (LOGGING, PULLED, "1 end 0\n0 force\n", 3, 10),
    (
        GROUPED,
        ITEM,
        "0 answer 1 arrived 1\n0 answer 1 finished\n0 force\n",
        5,
        10,
    ),
];

/// The first of these entries whose verdict is another one.
fn first_untold(alloc: Global, rows: &[Row]) -> Result<Option<&'static str>, NoMemory> {
    for (routes, before, behind, entry, rule) in rows {
        let journal = joined(alloc, &[before, behind])?;
        let wanted = wrong(*entry, *rule);
        let (by_journal, by_lines) = outcomes_of(alloc, routes, journal.as_str())?;
        if by_journal != wanted || by_lines != wanted {
            return Ok(Some(behind));
        }
    }
    Ok(None)
}

#[test]
fn a_source_that_breaks_its_rule_is_told(rt: HostRuntime) -> Result<(), Fail> {
    assert_eq!(rt; first_untold(rt.alloc(), &OF_SOURCES)?, None);
    Ok(())
}

#[test]
fn a_start_a_take_an_end_or_a_return_that_breaks_its_rule_is_told(
    rt: HostRuntime,
) -> Result<(), Fail> {
    assert_eq!(rt; first_untold(rt.alloc(), &OF_HANDS)?, None);
    Ok(())
}

#[test]
fn an_answer_that_breaks_its_rule_is_told(rt: HostRuntime) -> Result<(), Fail> {
    assert_eq!(rt; first_untold(rt.alloc(), &OF_ANSWERS)?, None);
    Ok(())
}

#[test]
fn a_clock_or_a_force_that_breaks_its_rule_is_told(rt: HostRuntime) -> Result<(), Fail> {
    assert_eq!(rt; first_untold(rt.alloc(), &OF_THE_CLOCK)?, None);
    Ok(())
}

/// Journals of which the line with this number is the first bad one: behind an entry that breaks its rule, where one is missing, and
/// where one is too many.
const BAD: [(&str, u64); 4] = [
    ("eip-journal 1 2 99\n1 end 0\n1 pull  0\n", 3),
    ("eip-journal 2 2 99 3\n1 end 0\n1 pull 0\n", 4),
    ("eip-journal 2 2 99 1\n1 end 0\n1 pull 0\n", 3),
    ("eip-journal 3 2 99\n1 end 0\n", 1),
];

#[test]
fn a_bad_line_goes_before_an_entry_that_breaks_its_rule(rt: HostRuntime) -> Result<(), Fail> {
    for (journal, line) in &BAD {
        let bad = Outcome::BadDump(*line);
        let (by_journal, by_lines) = outcomes_of(rt.alloc(), LOGGING, journal)?;
        assert!(rt; by_journal == bad && by_lines == bad, "{journal}");
    }
    Ok(())
}
