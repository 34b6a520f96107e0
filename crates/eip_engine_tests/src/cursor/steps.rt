// Each kind of step once.
use crate::cursor::runs::{Case, first_wrong};
use eip_cursor::Cursor;
use std::test::*;

const VALUES: Case = Case {
    file: r#"[{"from":{"uri":"stream:in","steps":[{"setHeader":{"name":"h","constant":"1"}},{"setProperty":{"name":"p","simple":"${header.h}2"}},{"removeHeader":{"name":"h"}},{"setBody":{"simple":"${body}${exchangeProperty.p}"}},{"log":{"message":"${body}","logName":"l"}}]}}]"#,
    rows: &[(
        "b",
        "noted; finished",
        "log l b12|finish completed b12|ended completed b12",
    )],
};

#[test]
fn values_are_set_and_logged(rt: HostRuntime) -> Result<(), Fail> {
    let wrong = first_wrong::<Cursor>(rt.alloc(), &VALUES)?;
    assert!(rt; wrong.is_empty(), "{wrong}");
    Ok(())
}

const THROWN: Case = Case {
    file: r#"[{"from":{"uri":"stream:in","steps":[{"throwException":{"exceptionType":"Bad","message":"${body}"}}]}}]"#,
    rows: &[("b", "finished", "finish failed Bad b|ended failed Bad b")],
};

#[test]
fn a_thrown_fault_fails(rt: HostRuntime) -> Result<(), Fail> {
    let wrong = first_wrong::<Cursor>(rt.alloc(), &THROWN)?;
    assert!(rt; wrong.is_empty(), "{wrong}");
    Ok(())
}

const CHOICE: Case = Case {
    file: r#"[{"from":{"uri":"stream:in","steps":[{"choice":{"when":[{"simple":"${body} == 'a'","steps":[{"to":"log:a"}]},{"ref":"empty","steps":[{"to":"log:e"}]}],"otherwise":{"steps":[{"to":"log:o"}]}}}]}}]"#,
    rows: &[
        ("a", "noted", "log a a|finish completed a"),
        ("b", "holds", "test empty b|log e b"),
        ("b", "holds not", "test empty b|log o b"),
    ],
};

#[test]
fn the_first_check_that_holds_chooses(rt: HostRuntime) -> Result<(), Fail> {
    let wrong = first_wrong::<Cursor>(rt.alloc(), &CHOICE)?;
    assert!(rt; wrong.is_empty(), "{wrong}");
    Ok(())
}

const FILTER: Case = Case {
    file: r#"[{"from":{"uri":"stream:in","steps":[{"filter":{"simple":"${body} == 'a'","steps":[{"to":"log:a"}]}}]}}]"#,
    rows: &[("a", "", "log a a"), ("b", "", "finish completed b")],
};

#[test]
fn a_filter_runs_its_block_where_its_check_holds(rt: HostRuntime) -> Result<(), Fail> {
    let wrong = first_wrong::<Cursor>(rt.alloc(), &FILTER)?;
    assert!(rt; wrong.is_empty(), "{wrong}");
    Ok(())
}

const PROCESS: Case = Case {
    file: r#"[{"from":{"uri":"stream:in","steps":[{"process":"keep"},{"to":"log:a"}]}}]"#,
    rows: &[
        ("b", "became c", "process keep b|log a c"),
        ("b", "raised Bad", "process keep b|finish failed Bad b"),
    ],
};

#[test]
fn what_a_processor_makes_goes_on(rt: HostRuntime) -> Result<(), Fail> {
    let wrong = first_wrong::<Cursor>(rt.alloc(), &PROCESS)?;
    assert!(rt; wrong.is_empty(), "{wrong}");
    Ok(())
}

const CALL: Case = Case {
    file: r#"[{"from":{"uri":"stream:in","steps":[{"to":"direct:d"},{"to":"log:b"}]}},{"from":{"uri":"direct:d","steps":[{"to":"log:a"}]}}]"#,
    rows: &[("b", "entered; noted", "call|log a b|log b b")],
};

#[test]
fn a_called_route_runs_and_returns(rt: HostRuntime) -> Result<(), Fail> {
    let wrong = first_wrong::<Cursor>(rt.alloc(), &CALL)?;
    assert!(rt; wrong.is_empty(), "{wrong}");
    Ok(())
}

const QUEUE: Case = Case {
    file: r#"[{"from":{"uri":"stream:in","steps":[{"to":"seda:q"}]}},{"from":{"uri":"seda:q","steps":[]}}]"#,
    rows: &[
        ("b", "queued 2", "offer b|finish completed b"),
        ("b", "full 1", "offer b|finish failed QueueFull b"),
    ],
};

#[test]
fn a_queue_takes_a_copy(rt: HostRuntime) -> Result<(), Fail> {
    let wrong = first_wrong::<Cursor>(rt.alloc(), &QUEUE)?;
    assert!(rt; wrong.is_empty(), "{wrong}");
    Ok(())
}

const SENDS: Case = Case {
    file: r#"[{"from":{"uri":"stream:in","steps":[{"to":"file:out"},{"to":"line:h:7"},{"to":"lane:x"}]}}]"#,
    rows: &[
        ("b", "done; done", "file out exchange-1 b|line h b|lane x b"),
        ("b", "noted", "file out exchange-1 b|stray"),
    ],
};

#[test]
fn files_lines_and_lanes_are_sent_to(rt: HostRuntime) -> Result<(), Fail> {
    let wrong = first_wrong::<Cursor>(rt.alloc(), &SENDS)?;
    assert!(rt; wrong.is_empty(), "{wrong}");
    Ok(())
}

const GROUP: Case = Case {
    file: r#"[{"from":{"uri":"stream:in","steps":[{"aggregate":{"correlationExpression":{"simple":"${body}"},"completionSize":2,"steps":[]}}]}}]"#,
    rows: &[
        ("k", "arrived 1", "arrive k k|finish completed k"),
        ("", "", "finish failed InvalidCorrelationKey "),
    ],
};

#[test]
fn a_message_joins_the_group_of_its_key(rt: HostRuntime) -> Result<(), Fail> {
    let wrong = first_wrong::<Cursor>(rt.alloc(), &GROUP)?;
    assert!(rt; wrong.is_empty(), "{wrong}");
    Ok(())
}

const KEYS: Case = Case {
    file: r#"[{"from":{"uri":"stream:in","steps":[{"idempotentConsumer":{"simple":"${body}","idempotentRepository":"r","steps":[{"to":"log:a"}]}}]}}]"#,
    rows: &[
        ("k", "fresh", "idem r k|log a k"),
        ("k", "duplicate 1", "idem r k|finish completed k"),
        ("", "", "finish failed NoMessageId "),
    ],
};

#[test]
fn a_known_key_is_skipped(rt: HostRuntime) -> Result<(), Fail> {
    let wrong = first_wrong::<Cursor>(rt.alloc(), &KEYS)?;
    assert!(rt; wrong.is_empty(), "{wrong}");
    Ok(())
}
