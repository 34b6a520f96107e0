// What follows faults.
use crate::cursor::runs::{Case, first_wrong};
use eip_cursor::Cursor;
use std::test::*;

const RETRIED: Case = Case {
    file: r#"[{"errorHandler":{"deadLetterChannel":{"deadLetterUri":"log:dead","redeliveryPolicy":{"maximumRedeliveries":1}}}},{"from":{"uri":"stream:in","steps":[{"to":"lane:x"},{"to":"log:out"}]}}]"#,
    rows: &[
        (
            "b",
            "failed; slept 1000; failed; noted",
            "lane x b|wait|lane x b|log dead b|finish handled b",
        ),
        (
            "b",
            "failed; slept 1000; done",
            "lane x b|wait|lane x b|log out b",
        ),
    ],
};

#[test]
fn a_send_is_tried_again_and_then_goes_to_the_dead_letter_endpoint(
    rt: HostRuntime,
) -> Result<(), Fail> {
    let wrong = first_wrong::<Cursor>(rt.alloc(), &RETRIED)?;
    assert!(rt; wrong.is_empty(), "{wrong}");
    Ok(())
}

const CONTINUED: Case = Case {
    file: r#"[{"onException":{"exception":"SendFailed","continued":true,"steps":[{"to":"log:c"}]}},{"from":{"uri":"stream:in","steps":[{"to":"lane:x"},{"to":"log:out"}]}}]"#,
    rows: &[("b", "failed; noted", "lane x b|log c b|log out b")],
};

#[test]
fn a_clause_that_is_continued_goes_on_behind_the_step(rt: HostRuntime) -> Result<(), Fail> {
    let wrong = first_wrong::<Cursor>(rt.alloc(), &CONTINUED)?;
    assert!(rt; wrong.is_empty(), "{wrong}");
    Ok(())
}

const HANDLED: Case = Case {
    file: r#"[{"onException":{"exception":"SendFailed","handled":true,"steps":[]}},{"from":{"uri":"stream:in","steps":[{"to":"lane:x"},{"to":"log:out"}]}}]"#,
    rows: &[("b", "failed", "lane x b|finish handled b")],
};

#[test]
fn a_clause_that_is_handled_ends_the_exchange(rt: HostRuntime) -> Result<(), Fail> {
    let wrong = first_wrong::<Cursor>(rt.alloc(), &HANDLED)?;
    assert!(rt; wrong.is_empty(), "{wrong}");
    Ok(())
}

const NEITHER: Case = Case {
    file: r#"[{"onException":{"exception":"SendFailed","steps":[{"to":"log:c"}]}},{"from":{"uri":"stream:in","steps":[{"to":"lane:x"},{"to":"log:out"}]}}]"#,
    rows: &[(
        "b",
        "failed; noted",
        "lane x b|log c b|finish failed SendFailed b",
    )],
};

#[test]
fn behind_a_clause_that_is_neither_the_exchange_fails(rt: HostRuntime) -> Result<(), Fail> {
    let wrong = first_wrong::<Cursor>(rt.alloc(), &NEITHER)?;
    assert!(rt; wrong.is_empty(), "{wrong}");
    Ok(())
}
