use crate::given::is_stepped;
use crate::runs::COMPLETED;
use eip_test_support::{holds, holds_for};
use std::test::Fail;

/// A try whose block faults, with a catch for that kind, and steps that run in any case.
const CAUGHT: &str =
    r#"[{"doTry":{"steps":[{"throwException":{"exceptionType":"acme.Bad","message":"no ${body}"}}],"doCatch":[{"exception":["acme.Bad"],"steps":[{"log":"caught ${exception.message}"}]}],"doFinally":{"steps":[{"log":"end"}]}}},{"to":"log:after"}]"#;

/// The same with a catch for another kind.
const NOT_CAUGHT: &str =
    r#"[{"doTry":{"steps":[{"throwException":{"exceptionType":"acme.Bad","message":"no ${body}"}}],"doCatch":[{"exception":["Other"],"steps":[{"log":"caught ${exception.message}"}]}],"doFinally":{"steps":[{"log":"end"}]}}},{"to":"log:after"}]"#;

/// The same with a catch for each kind, which asks for an empty body.
const NOT_WHEN: &str =
    r#"[{"doTry":{"steps":[{"throwException":{"exceptionType":"acme.Bad","message":"no ${body}"}}],"doCatch":[{"exception":["Exception"],"onWhen":{"simple":"${body} == ''"},"steps":[{"log":"caught ${exception.message}"}]}],"doFinally":{"steps":[{"log":"end"}]}}},{"to":"log:after"}]"#;

/// A catch that faults.
const WORSE: &str =
    r#"[{"doTry":{"steps":[{"throwException":{"exceptionType":"Bad","message":"no ${body}"}}],"doCatch":[{"exception":["Bad"],"steps":[{"throwException":{"exceptionType":"Worse","message":"not ${exception.message}"}}]}],"doFinally":{"steps":[{"log":"end"}]}}}]"#;

/// Last steps that fault.
const LAST_FAULTS: &str =
    r#"[{"doTry":{"steps":[{"throwException":{"exceptionType":"Bad","message":"no ${body}"}}],"doFinally":{"steps":[{"throwException":{"exceptionType":"Last","message":"end"}}]}}}]"#;

/// A try whose block ends well: its body and headers go on, its properties don't.
const WELL: &str =
    r#"[{"doTry":{"steps":[{"setBody":{"simple":"<${body}>"}},{"setHeader":{"name":"h","constant":"1"}},{"setProperty":{"name":"p","constant":"2"}}],"doCatch":[{"exception":["Exception"],"steps":[{"log":"caught"}]}]}},{"log":"${body} ${header.h}${exchangeProperty.p}"}]"#;

/// A try in each part of a split, whose catch lets the part go on.
const IN_PARTS: &str =
    r#"[{"split":{"tokenize":",","aggregationStrategy":"joined","steps":[{"doTry":{"steps":[{"filter":{"simple":"${body} == 'b'","steps":[{"throwException":{"exceptionType":"Bad","message":""}}]}}],"doCatch":[{"exception":["Bad"],"steps":[{"setBody":{"constant":"none"}}]}]}}]}},{"to":"log:o"}]"#;

/// Steps, what a drain of the line `a` prints before the totals, and these.
static TRIED: [(&str, &str, &str); 6] = [
    (
        CAUGHT,
        "log 3 route1: caught no a\nlog 4 route1: end\nlog 1 after: a\nexchange 1 source route1 completed\nexchange 2 part 1.0 failed Bad \"no a\"\nexchange 3 part 1.1 completed\nexchange 4 part 1.2 completed\n",
        "accepted 1 refused 0\ntotal 4 completed 3 handled 0 failed 1 waiting 0\ndrained\n",
    ),
    (
        NOT_CAUGHT,
        "log 3 route1: end\nexchange 1 source route1 failed Bad \"no a\"\nexchange 2 part 1.0 failed Bad \"no a\"\nexchange 3 part 1.2 completed\n",
        "accepted 1 refused 0\ntotal 3 completed 1 handled 0 failed 2 waiting 0\ndrained\n",
    ),
    (
        NOT_WHEN,
        "log 3 route1: end\nexchange 1 source route1 failed Bad \"no a\"\nexchange 2 part 1.0 failed Bad \"no a\"\nexchange 3 part 1.2 completed\n",
        "accepted 1 refused 0\ntotal 3 completed 1 handled 0 failed 2 waiting 0\ndrained\n",
    ),
    (
        WORSE,
        "log 4 route1: end\nexchange 1 source route1 failed Worse \"not no a\"\nexchange 2 part 1.0 failed Bad \"no a\"\nexchange 3 part 1.1 failed Worse \"not no a\"\nexchange 4 part 1.2 completed\n",
        "accepted 1 refused 0\ntotal 4 completed 1 handled 0 failed 3 waiting 0\ndrained\n",
    ),
    (
        LAST_FAULTS,
        "exchange 1 source route1 failed Last \"end\"\nexchange 2 part 1.0 failed Bad \"no a\"\nexchange 3 part 1.2 failed Last \"end\"\n",
        "accepted 1 refused 0\ntotal 3 completed 0 handled 0 failed 3 waiting 0\ndrained\n",
    ),
    (
        WELL,
        "log 1 route1: <a> 1\nexchange 1 source route1 completed\nexchange 2 part 1.0 completed\n",
        "accepted 1 refused 0\ntotal 2 completed 2 handled 0 failed 0 waiting 0\ndrained\n",
    ),
];

#[test]
fn a_try_is_caught_and_its_last_steps_run_in_any_case(rt: HostRuntime) -> Result<(), Fail> {
    for &(steps, front, totals) in &TRIED {
        holds_for(is_stepped(&rt, steps, "a", front, totals), steps)?;
    }
    Ok(())
}

#[test]
fn each_part_has_its_own_try(rt: HostRuntime) -> Result<(), Fail> {
    let front =
        "log 1 o: a,none\nexchange 1 source route1 completed\nexchange 2 part 1.0 completed\nexchange 3 part 2.0 completed\nexchange 4 part 1.1 completed\nexchange 5 part 4.0 failed Bad \"\"\nexchange 6 part 4.1 completed\n";
    let totals =
        "accepted 1 refused 0\ntotal 6 completed 5 handled 0 failed 1 waiting 0\ndrained\n";
    holds(is_stepped(&rt, IN_PARTS, "a,b", front, totals))
}

/// A try without any steps.
const EMPTY: &str = r#"[{"doTry":{"steps":[]}}]"#;

#[test]
fn a_try_without_steps_is_one_part(rt: HostRuntime) -> Result<(), Fail> {
    let front = "exchange 1 source route1 completed\nexchange 2 part 1.0 completed\n";
    let totals =
        "accepted 1 refused 0\ntotal 2 completed 2 handled 0 failed 0 waiting 0\ndrained\n";
    holds(is_stepped(&rt, EMPTY, "a", front, totals))?;
    let front = "exchange 1 source route1 completed\n";
    holds(is_stepped(&rt, "[]", "a", front, COMPLETED))
}
