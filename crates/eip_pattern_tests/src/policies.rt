use eip_error_handler::{choose, delay, may_retry, merged};
use eip_exchange::{Clause, Fault, Policy};
use eip_text::{NoMemory, Series, Text};
use std::alloc::Global;
use std::test::*;

/// A policy of this maximum and delay, of which nothing else is given.
fn policy_of(maximum: Option<u32>, delay: Option<u64>) -> Policy {
    Policy {
        maximum,
        delay,
        multiplier: None,
        backing_off: None,
        greatest: None,
    }
}

/// A clause with these names, which commas part.
fn clause_of(alloc: Global, names: &str) -> Result<Clause, NoMemory> {
    let mut given = Vec::new(alloc);
    for name in names.split(',') {
        given.push(Text::of_str(alloc, name)?)?;
    }
    Ok(Clause {
        names: Series::of(given),
        policy: policy_of(None, None),
        handled: true,
        continued: false,
        block: None,
    })
}

/// The clause that takes a fault of this kind, among clauses with these names.
fn taking(alloc: Global, clauses: &[&str], kind: &str) -> Result<Option<usize>, NoMemory> {
    let mut given = Vec::new(alloc);
    for names in clauses {
        given.push(clause_of(alloc, names)?)?;
    }
    let fault = Fault {
        kind: Text::of_str(alloc, kind)?,
        text: Text::of_str(alloc, "lane:x")?,
    };
    Ok(choose(given.as_slice(), &fault))
}

/// The clauses of most rows, each by its names.
const CLAUSES: &[&str] = &[
    "java.lang.Exception",
    "QueueFull,acme.NotNumber",
    "org.acme.SendFailed",
    "SendFailed",
];

/// Clauses, the kind of a fault, and which clause takes it.
const TAKEN: [(&[&str], &str, Option<usize>); 8] = [
    (CLAUSES, "SendFailed", Some(2)),
    (CLAUSES, "NotNumber", Some(1)),
    (CLAUSES, "QueueFull", Some(1)),
    (CLAUSES, "TooLong", Some(0)),
    (CLAUSES, "Exception", Some(0)),
    (CLAUSES, "acme.NotNumber", Some(0)),
    (&["QueueFull", "x.SendFailed"], "TooLong", None),
    (&[], "SendFailed", None),
];

#[test]
fn the_first_clause_that_names_the_kind_takes_the_fault(rt: HostRuntime) -> Result<(), Fail> {
    for (clauses, kind, want) in TAKEN {
        let taken = taking(rt.alloc(), clauses, kind)?;
        assert!(rt; taken == want, "of {kind}");
    }
    Ok(())
}

#[test]
fn a_clause_gives_what_it_has_and_the_handler_the_rest(rt: HostRuntime) {
    let handler = Policy {
        multiplier: Some(3),
        backing_off: Some(true),
        greatest: Some(50),
        ..policy_of(Some(2), Some(7))
    };
    let nothing = policy_of(None, None);
    assert!(rt; merged(&nothing, &handler) == handler);
    assert!(rt; merged(&handler, &nothing) == handler);
    let none_again = policy_of(Some(0), None);
    let want = Policy {
        maximum: Some(0),
        ..handler
    };
    assert!(rt; merged(&none_again, &handler) == want);
}

/// A policy's maximum, the faults so far, and whether the step is tried again.
const TRIES: [(Option<u32>, u32, bool); 7] = [
    (Some(2), 1, true),
    (Some(2), 2, true),
    (Some(2), 3, false),
    (Some(1), 2, false),
    (Some(0), 1, false),
    (None, 1, false),
    (Some(1_000), 1_000, true),
];

#[test]
fn a_step_is_tried_again_as_often_as_its_policy_says(rt: HostRuntime) {
    for (maximum, faults, want) in TRIES {
        let policy = policy_of(maximum, None);
        assert!(rt; may_retry(&policy, faults) == want, "of {faults} faults");
    }
}

/// The delays before the first four new tries.
fn delays(policy: &Policy) -> [u64; 4] {
    [
        delay(policy, 1),
        delay(policy, 2),
        delay(policy, 3),
        delay(policy, 4),
    ]
}

#[test]
fn a_delay_grows_to_the_greatest(rt: HostRuntime) {
    let growing = Policy {
        multiplier: Some(3),
        greatest: Some(1_000),
        ..policy_of(None, Some(100))
    };
    assert!(rt; delays(&growing) == [100, 300, 900, 1_000]);
    assert!(rt; delay(&growing, 1_000) == 1_000);
    let flat = Policy {
        backing_off: Some(false),
        ..growing
    };
    assert!(rt; delays(&flat) == [100, 100, 100, 100]);
    let none = Policy {
        greatest: Some(0),
        ..growing
    };
    assert!(rt; delays(&none) == [0, 0, 0, 0]);
}

#[test]
fn what_no_policy_says_has_a_default(rt: HostRuntime) {
    let nothing = policy_of(Some(2), None);
    assert!(rt; delays(&nothing) == [1_000, 1_000, 1_000, 1_000]);
    assert!(rt; delay(&policy_of(Some(2), Some(3)), 1) == 3);
    let doubling = Policy {
        backing_off: Some(true),
        ..nothing
    };
    assert!(rt; delays(&doubling) == [1_000, 2_000, 4_000, 8_000]);
    assert!(rt; delay(&doubling, 7) == 60_000);
}
