use crate::doors::given::{is_drained, link};
use eip_endpoint::{Inlet, Lane};
use eip_line::{LineLane, LineSource};
use eip_text::{NoMemory, Text};
use std::alloc::Global;
use std::sync::Wait;
use std::test::Fail;
use std::thread::Threads;

/// A route that sends each line of a port to a peer.
const SENT: &str = r#"[{"from":{"uri":"line:listen:9","steps":[{"to":"line:h:7"}]}}]"#;

/// The same of standard input.
const STREAMED: &str = r#"[{"from":{"uri":"stream:in","steps":[{"to":"line:h:7"}]}}]"#;

/// The same of a body of two lines.
const TWO_LINES: &str =
    r#"[{"from":{"uri":"stream:in","steps":[{"setBody":{"constant":"a\nb"}},{"to":"line:h:7"}]}}]"#;

/// Routes, the inlet that they read from, its bytes, what a drain prints, and the bytes that the peer gets.
const DRAINED: [(&str, &str, &[u8], &str, &[u8]); 3] = [
    (
        SENT,
        "line",
        b"hi\r\nyou",
        "exchange 1 source route1 completed\nexchange 2 source route1 completed\naccepted 2 refused 0\ntotal 2 completed 2 handled 0 failed 0 waiting 0\ndrained\n",
        b"hi\nyou\n",
    ),
    (
        STREAMED,
        "stream",
        b"hi\n",
        "exchange 1 source route1 completed\naccepted 1 refused 0\ntotal 1 completed 1 handled 0 failed 0 waiting 0\ndrained\n",
        b"hi\n",
    ),
    (
        TWO_LINES,
        "stream",
        b"hi\n",
        "exchange 1 source route1 failed NotOneLine \"\"\naccepted 1 refused 0\ntotal 1 completed 0 handled 0 failed 1 waiting 0\ndrained\n",
        b"",
    ),
];

/// Whether a drain of these lines prints this, and sends these bytes.
fn sends<W: AllocGlobal + Threads + Wait + Sync>(
    rt: &W,
    routes: &str,
    inlet: &str,
    input: &[u8],
    text: &str,
    sent: &[u8],
) -> Result<bool, NoMemory> {
    let alloc = rt.alloc();
    let name = Text::of_str(alloc, inlet)?;
    let object = LineSource::new(alloc, link(alloc, input)?);
    let mut inlets = vec![in alloc; Inlet { name, object }]?;
    let name = Text::of_str(alloc, "line")?;
    let object = LineLane::new(alloc, link(alloc, b"")?);
    let mut lanes = vec![in alloc; Lane { name, object }]?;
    let told = is_drained(rt, routes, &mut lanes, &mut inlets, text)?;
    let written = lanes
        .first()
        .is_some_and(|lane| lane.object.link.written() == sent);
    Ok(told && written)
}

#[test]
fn each_body_of_one_line_is_sent_on_and_no_other(rt: HostRuntime) -> Result<(), Fail> {
    for (routes, inlet, input, text, sent) in DRAINED {
        let told = sends(&rt, routes, inlet, input, text, sent)?;
        assert!(rt; told, "of {routes}");
    }
    Ok(())
}
