ghost use Rattle.std.specs.Prelude.{None};

use crate::given::given_steps;
use eip_endpoint::{Endpoint, Lane, SendFault};
use eip_exchange::Message;
use eip_frames::Target;
use eip_run::{Report, run};
use eip_simple_read::CratePatterns;
use eip_test_support::holds;
use eip_text::{NoMemory, Text};
use std::alloc::Global;
use std::sync::Wait;
use std::test::Fail;
use std::thread::Threads;

/// A lane that never has the memory for a call. It tells no content.
#[derive(Drop)]
struct WantingLane {}

impl Endpoint for WantingLane {
    ghost calls = { λ _. None };

    ghost lane_faults = { λ _. 0 };

    fn send(&mut self, _target: &Target, _message: &Message) -> Result<(), SendFault> {
        Err(SendFault::NoMemory)
    }
}

/// A split at once, of which each part but the first sends its message, before a line of the log.
const SENT: &str =
    r#"[{"split":{"tokenize":",","parallelProcessing":true,"steps":[{"filter":{"simple":"${exchangeProperty.CamelSplitIndex} != '0'","steps":[{"to":"lane:w"}]}}]}},{"to":"log:out"}]"#;

/// The lane `lane:w`, which never has memory.
fn wanting_lanes(alloc: Global) -> Result<Vec<Lane<WantingLane>>, NoMemory> {
    let name = Text::of_str(alloc, "lane:w")?;
    let object = WantingLane {};
    Ok(vec![in alloc; Lane { name, object }]?)
}

/// Whether a line that comes through these steps is drained with this text, where `lane:w` never has memory.
fn is_drained<W: AllocGlobal + Threads + Wait + Sync>(
    rt: &W,
    steps: &str,
    line: &str,
    text: &str,
) -> Result<bool, NoMemory> {
    let alloc = rt.alloc();
    let mut lanes = wanting_lanes(alloc)?;
    let mut given = given_steps(alloc, steps, &[line])?;
    let mut patterns = CratePatterns::new(Vec::new(alloc));
    let report: Report = run(
        rt,
        alloc,
        &given.words,
        &mut given.files,
        &mut patterns,
        &mut lanes,
        &mut given.inlets,
        &given.registry,
        &mut given.out,
    );
    Ok(report.status == 0 && given.out.bytes() == text.as_bytes())
}

#[test]
fn a_part_without_memory_ends_and_its_parent_is_told(rt: HostRuntime) -> Result<(), Fail> {
    let text =
        "exchange 1 source route1 failed OutOfMemory \"\"\nexchange 2 part 1.0 completed\nexchange 3 part 1.1 failed OutOfMemory \"\"\nexchange 4 part 1.2 failed OutOfMemory \"\"\naccepted 1 refused 0\ntotal 4 completed 1 handled 0 failed 3 waiting 0\ndrained\n";
    holds(is_drained(&rt, SENT, "a,b,c", text))
}
