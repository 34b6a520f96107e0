use crate::routes::{GROUPED, JOINED, KEYED, LOGGING, QUEUED, RETRYING};
use crate::support::{Outcome, outcomes_of};
use eip_audit::Verdict;
use std::test::*;

/// Routes, and a legal journal of them with its number of entries.
const LEGAL: [(&str, &str, u64); 13] = [
    (LOGGING, "eip-journal 1 0 1\n", 0),
    (
        LOGGING,
        "eip-journal 1 0 9\n0 pull 0\n0 accept 0 \"1\" \"a\" 0 0\n0 answer 1 noted\n0 answer 1 finished\n0 pull 0\n0 end 0\n",
        6,
    ),
    (
        LOGGING,
        "eip-journal 1 0 9\n0 pull 0\n0 refuse 0 \"1\" TooLong\n0 pull 0\n0 fault 0\n",
        4,
    ),
    // the clock moves to the moment of the next try, and to that of the last one
    (
        RETRYING,
        "eip-journal 1 0 99\n0 pull 0\n0 accept 0 \"1\" \"a\" 0 0\n0 take 1\n0 answer 1 failed\n0 answer 1 slept 1000\n0 pull 0\n0 end 0\n0 tick 1000\n0 take 1\n0 answer 1 failed\n0 answer 1 slept 2000\n0 tick 2000\n0 take 1\n0 answer 1 done\n0 answer 1 noted\n0 answer 1 finished\n",
        16,
    ),
    // one worker pulls, another one sends, and the first goes on
    (
        RETRYING,
        "eip-journal 1 2 99\n1 pull 0\n1 accept 0 \"1\" \"a\" 0 0\n2 take 1\n1 pull 0\n2 answer 1 done\n1 end 0\n1 answer 1 noted\n2 answer 1 finished\n",
        8,
    ),
    // whoever has an exchange in hand may find no memory for it, and of a ready one each worker
    (
        RETRYING,
        "eip-journal 1 2 99\n1 pull 0\n1 accept 0 \"1\" \"a\" 0 0\n2 take 1\n2 starve 1\n",
        4,
    ),
    (
        RETRYING,
        "eip-journal 1 2 99\n1 pull 0\n1 accept 0 \"1\" \"a\" 0 0\n2 starve 1\n",
        3,
    ),
    (
        KEYED,
        "eip-journal 1 0 99\n0 pull 0\n0 accept 0 \"1\" \"a\" 0 0\n0 answer 1 fresh\n0 pull 0\n0 accept 0 \"2\" \"a\" 0 0\n0 answer 2 duplicate 1\n",
        6,
    ),
    // of two queues in which somebody waits either may be started first
    (
        QUEUED,
        "eip-journal 1 0 99\n0 pull 0\n0 accept 0 \"1\" \"a\" 0 0\n0 answer 1 queued 2\n0 answer 1 queued 3\n0 start 1 2\n0 start 2 3\n",
        6,
    ),
    (
        QUEUED,
        "eip-journal 1 2 99\n0 pull 0\n0 accept 0 \"1\" \"a\" 0 0\n0 answer 1 queued 2\n0 answer 1 queued 3\n2 start 2 3\n1 start 1 2\n2 answer 3 noted\n",
        7,
    ),
    // the parts end in any order, and are told by index
    (
        JOINED,
        "eip-journal 1 0 99\n0 pull 0\n0 accept 0 \"1\" \"a\" 0 0\n0 answer 1 born 2 2\n0 answer 3 finished\n0 answer 2 finished\n0 answer 1 joined 2 completed \"x\" 0 0 completed \"y\" 0 0\n0 answer 1 finished\n",
        7,
    ),
    (
        GROUPED,
        "eip-journal 1 0 99\n0 pull 0\n0 accept 0 \"1\" \"a\" 0 0\n0 answer 1 arrived 1\n0 pull 0\n0 accept 0 \"2\" \"b\" 0 0\n0 answer 2 closed 1 size 3\n0 answer 3 noted\n",
        7,
    ),
    (
        GROUPED,
        "eip-journal 1 0 99\n0 pull 0\n0 accept 0 \"1\" \"a\" 0 0\n0 answer 1 arrived 1\n0 answer 1 finished\n0 pull 0\n0 end 0\n0 force\n0 answer 2 noted\n",
        8,
    ),
];

#[test]
fn a_legal_journal_is_legal(rt: HostRuntime) -> Result<(), Fail> {
    for (routes, journal, entries) in &LEGAL {
        let legal = Outcome::Audited(Verdict::Legal(*entries));
        let (by_journal, by_lines) = outcomes_of(rt.alloc(), routes, journal)?;
        assert!(rt; by_journal == legal && by_lines == legal, "{journal}");
    }
    Ok(())
}
