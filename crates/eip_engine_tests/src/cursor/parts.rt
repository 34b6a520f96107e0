// Steps whose parts are exchanges of their own.
use crate::cursor::runs::{Case, first_wrong};
use eip_cursor::Cursor;
use std::test::*;

const SPLIT: Case = Case {
    file: r##"[{"from":{"uri":"stream:in","steps":[{"split":{"tokenize":{"token":","},"aggregationStrategy":"#joined:+","parallelProcessing":true,"steps":[]}},{"to":"log:out"}]}}]"##,
    rows: &[("a,b", "born 2 2; joined a b", "parts a b|join|log out a+b")],
};

#[test]
fn a_split_asks_for_its_parts_at_once(rt: HostRuntime) -> Result<(), Fail> {
    let wrong = first_wrong::<Cursor>(rt.alloc(), &SPLIT)?;
    assert!(rt; wrong.is_empty(), "{wrong}");
    Ok(())
}

const STOPPED: Case = Case {
    file: r#"[{"from":{"uri":"stream:in","steps":[{"split":{"tokenize":{"token":","},"stopOnException":true,"steps":[]}},{"to":"log:out"}]}}]"#,
    rows: &[(
        "a,b,c",
        "born 2 1; joined a; born 3 1; joined !b",
        "parts a|join|parts b|join|finish failed Bad a,b,c",
    )],
};

#[test]
fn with_stop_none_comes_behind_a_part_that_failed(rt: HostRuntime) -> Result<(), Fail> {
    let wrong = first_wrong::<Cursor>(rt.alloc(), &STOPPED)?;
    assert!(rt; wrong.is_empty(), "{wrong}");
    Ok(())
}

const MULTICAST: Case = Case {
    file: r#"[{"from":{"uri":"stream:in","steps":[{"multicast":{"parallelProcessing":true,"steps":[{"to":"log:a"},{"to":"log:b"}]}},{"to":"log:out"}]}}]"#,
    rows: &[("m", "born 2 2; joined x y", "parts m m|join|log out y")],
};

#[test]
fn a_multicast_keeps_the_last_message(rt: HostRuntime) -> Result<(), Fail> {
    let wrong = first_wrong::<Cursor>(rt.alloc(), &MULTICAST)?;
    assert!(rt; wrong.is_empty(), "{wrong}");
    Ok(())
}

const RECIPIENTS: Case = Case {
    file: r#"[{"from":{"uri":"stream:in","steps":[{"recipientList":{"simple":"${body}","parallelProcessing":true}}]}}]"#,
    rows: &[
        (
            "log:a, lane:x",
            "",
            "parts to log:a log:a, lane:x to lane:x log:a, lane:x",
        ),
        ("log:a,what", "", "finish failed BadRecipient log:a,what"),
    ],
};

#[test]
fn a_recipient_list_sends_to_each_endpoint(rt: HostRuntime) -> Result<(), Fail> {
    let wrong = first_wrong::<Cursor>(rt.alloc(), &RECIPIENTS)?;
    assert!(rt; wrong.is_empty(), "{wrong}");
    Ok(())
}

const IN_TURN: Case = Case {
    file: r#"[{"from":{"uri":"stream:in","steps":[{"recipientList":{"simple":"${body}"}},{"to":"log:out"}]}}]"#,
    rows: &[(
        "log:a,lane:x",
        "born 2 1; joined x; born 3 1; joined y",
        "parts to log:a log:a,lane:x|join|parts to lane:x log:a,lane:x|join|log out y",
    )],
};

#[test]
fn a_recipient_list_in_turn_sends_to_one_behind_the_other(rt: HostRuntime) -> Result<(), Fail> {
    let wrong = first_wrong::<Cursor>(rt.alloc(), &IN_TURN)?;
    assert!(rt; wrong.is_empty(), "{wrong}");
    Ok(())
}

const TRIED: Case = Case {
    file: r#"[{"from":{"uri":"stream:in","steps":[{"doTry":{"steps":[{"to":"log:t"}],"doCatch":[{"exception":["Bad"],"steps":[{"to":"log:c"}]}],"doFinally":{"steps":[{"to":"log:f"}]}}},{"to":"log:out"}]}}]"#,
    rows: &[(
        "b",
        "born 2 1; joined !t; born 3 1; joined c; born 4 1; joined f",
        "parts b|join|parts t|join|parts c|join|log out f",
    )],
};

#[test]
fn a_catch_takes_the_fault_and_the_last_block_runs(rt: HostRuntime) -> Result<(), Fail> {
    let wrong = first_wrong::<Cursor>(rt.alloc(), &TRIED)?;
    assert!(rt; wrong.is_empty(), "{wrong}");
    Ok(())
}
