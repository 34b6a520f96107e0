use crate::given::{DRAIN, comes_to, route_of};
use crate::keys::lines_run_so;
use eip_test_support::holds_for;
use eip_text::NoMemory;
use std::sync::Wait;
use std::test::Fail;
use std::thread::Threads;

/// A dead letter channel to a log, with one attempt more.
const DEAD: &str =
    r#"{"errorHandler":{"deadLetterChannel":{"deadLetterUri":"log:dead","redeliveryPolicy":{"maximumRedeliveries":1}}}}"#;

/// The handler that does nothing.
const PLAIN: &str = r#"{"errorHandler":{"defaultErrorHandler":{}}}"#;

/// A clause that handles what is refused twice.
const SEEN: &str =
    r#"{"onException":{"exception":["acme.Refused"],"redeliveryPolicy":{"maximumRedeliveries":1,"redeliveryDelay":7},"handled":true,"steps":[{"log":"${exception.message} ${header.CamelRedeliveryCounter}"}]}}"#;

/// A clause behind whose fault the route goes on.
const CONTINUED: &str = r#"{"onException":{"exception":["Refused"],"continued":true}}"#;

/// A processor that answers its message.
const KEEP: &str =
    r##"[{"setHeader":{"name":"h","constant":"1"}},{"setProperty":{"name":"p","constant":"2"}},{"process":{"ref":"#keep"}},{"log":"${body} ${header.H}${exchangeProperty.p}"}]"##;

/// A processor that sets the header `field`.
const FIELD: &str = r#"[{"process":"field"},{"log":"<${header.field}> of ${body}"}]"#;

/// A processor that faults.
const REFUSE: &str = r#"[{"process":{"ref":"refuse"}},{"to":"log:o"}]"#;

const FILTERED: &str =
    r#"[{"filter":{"ref":"empty","steps":[{"setBody":{"constant":"none"}}]}},{"to":"log:o"}]"#;

/// A stored predicate behind another one, which is tested first.
const CHOSEN: &str =
    r#"[{"choice":{"when":[{"simple":"${body} == 'q'","steps":[{"setBody":{"constant":"first"}}]},{"ref":"empty","steps":[{"setBody":{"constant":"none"}}]}],"otherwise":{"steps":[{"setBody":{"constant":"other"}}]}}},{"to":"log:o"}]"#;

/// A catch for each kind of an empty body.
const CAUGHT: &str =
    r#"[{"doTry":{"steps":[{"throwException":{"exceptionType":"acme.Bad","message":"no ${body}"}}],"doCatch":[{"exception":["Exception"],"onWhen":{"ref":"empty"},"steps":[{"log":"caught ${exception.message}"}]}],"doFinally":{"steps":[{"log":"end"}]}}},{"to":"log:after"}]"#;

/// A handler or a clause, steps, the lines, what a drain of them prints, the letters of the answers, and the moments of the
/// ticks.
static RUNS: [(&str, &str, &[&str], &str, &str, &str); 10] = [
    (
        PLAIN,
        KEEP,
        &["a"],
        "log 1 route1: a 12\nexchange 1 source route1 completed\naccepted 1 refused 0\ntotal 1 completed 1 handled 0 failed 0 waiting 0\ndrained\n",
        "b",
        "",
    ),
    (
        PLAIN,
        FIELD,
        &["c0,5", "c1", ",x"],
        "log 1 route1: <c0> of c0,5\nlog 2 route1: <c1> of c1\nlog 3 route1: <> of ,x\nexchange 1 source route1 completed\nexchange 2 source route1 completed\nexchange 3 source route1 completed\naccepted 3 refused 0\ntotal 3 completed 3 handled 0 failed 0 waiting 0\ndrained\n",
        "bbb",
        "",
    ),
    (
        PLAIN,
        REFUSE,
        &["a"],
        "exchange 1 source route1 failed Refused \"a\"\naccepted 1 refused 0\ntotal 1 completed 0 handled 0 failed 1 waiting 0\ndrained\n",
        "r",
        "",
    ),
    (
        DEAD,
        REFUSE,
        &["a"],
        "log 1 dead: a\nexchange 1 source route1 handled\naccepted 1 refused 0\ntotal 1 completed 0 handled 1 failed 0 waiting 0\ndrained\n",
        "rr",
        "1000 ",
    ),
    (
        SEEN,
        REFUSE,
        &["a"],
        "log 1 route1: a 1\nexchange 1 source route1 handled\naccepted 1 refused 0\ntotal 1 completed 0 handled 1 failed 0 waiting 0\ndrained\n",
        "rr",
        "7 ",
    ),
    (
        CONTINUED,
        REFUSE,
        &["a"],
        "log 1 o: a\nexchange 1 source route1 completed\naccepted 1 refused 0\ntotal 1 completed 1 handled 0 failed 0 waiting 0\ndrained\n",
        "r",
        "",
    ),
    (
        PLAIN,
        FILTERED,
        &["", "a"],
        "log 1 o: none\nlog 2 o: a\nexchange 1 source route1 completed\nexchange 2 source route1 completed\naccepted 2 refused 0\ntotal 2 completed 2 handled 0 failed 0 waiting 0\ndrained\n",
        "yn",
        "",
    ),
    (
        PLAIN,
        CHOSEN,
        &["q", "", "a"],
        "log 1 o: first\nlog 2 o: none\nlog 3 o: other\nexchange 1 source route1 completed\nexchange 2 source route1 completed\nexchange 3 source route1 completed\naccepted 3 refused 0\ntotal 3 completed 3 handled 0 failed 0 waiting 0\ndrained\n",
        "yn",
        "",
    ),
    (
        PLAIN,
        CAUGHT,
        &["a"],
        "log 3 route1: end\nexchange 1 source route1 failed Bad \"no a\"\nexchange 2 part 1.0 failed Bad \"no a\"\nexchange 3 part 1.2 completed\naccepted 1 refused 0\ntotal 3 completed 1 handled 0 failed 2 waiting 0\ndrained\n",
        "n",
        "",
    ),
    (
        PLAIN,
        CAUGHT,
        &[""],
        "log 3 route1: caught no \nlog 4 route1: end\nlog 1 after: \nexchange 1 source route1 completed\nexchange 2 part 1.0 failed Bad \"no \"\nexchange 3 part 1.1 completed\nexchange 4 part 1.2 completed\naccepted 1 refused 0\ntotal 4 completed 3 handled 0 failed 1 waiting 0\ndrained\n",
        "y",
        "",
    ),
];

#[test]
fn what_is_handed_in_answers_for_its_steps(rt: HostRuntime) -> Result<(), Fail> {
    for &(handler, steps, lines, text, letters, ticks) in &RUNS {
        let told = lines_run_so(&rt, (handler, steps), 0, lines, (text, letters, ticks));
        holds_for(told, steps)?;
    }
    Ok(())
}

/// Steps with a name that nobody has among its kind, and what is told.
static UNKNOWN: [(&str, &str); 6] = [
    (
        r#"[{"process":"nobody"}]"#,
        "error routes $[0].from.steps[0].process NotRegistered nobody\n",
    ),
    (
        r#"[{"process":{"ref":"Keep"}}]"#,
        "error routes $[0].from.steps[0].process.ref NotRegistered Keep\n",
    ),
    (
        r#"[{"process":"empty"}]"#,
        "error routes $[0].from.steps[0].process NotRegistered empty\n",
    ),
    (
        r#"[{"filter":{"ref":"keep","steps":[]}}]"#,
        "error routes $[0].from.steps[0].filter.ref NotRegistered keep\n",
    ),
    (
        r#"[{"choice":{"when":[{"ref":"empty","steps":[]},{"ref":"nobody","steps":[]}]}}]"#,
        "error routes $[0].from.steps[0].choice.when[1].ref NotRegistered nobody\n",
    ),
    (
        r#"[{"doTry":{"steps":[],"doCatch":[{"exception":["Bad"],"onWhen":{"ref":"nobody"},"steps":[]}]}}]"#,
        "error routes $[0].from.steps[0].doTry.doCatch[0].onWhen.ref NotRegistered nobody\n",
    ),
];

/// Whether a drain through these steps is refused with this text.
fn are_refused<W: AllocGlobal + Threads + Wait + Sync>(
    rt: &W,
    steps: &str,
    text: &str,
) -> Result<bool, NoMemory> {
    let routes = route_of(rt.alloc(), steps)?;
    comes_to(rt, &DRAIN, routes.as_str(), &[], 1, text)
}

#[test]
fn a_name_that_nobody_has_is_refused_with_its_place(rt: HostRuntime) -> Result<(), Fail> {
    for &(steps, text) in &UNKNOWN {
        holds_for(are_refused(&rt, steps, text), steps)?;
    }
    Ok(())
}
