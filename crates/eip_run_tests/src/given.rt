use crate::lines::Lines;
use eip_endpoint::{Inlet, Lane, MemoryFiles, MemoryLane, MemorySink};
use eip_processor::Registry;
use eip_run::{Report, run};
use eip_samples::{SamplePredicate, SampleProcessor, registry};
use eip_simple_read::CratePatterns;
use eip_test_support::{joined, texts};
use eip_text::{NoMemory, Series, Text, decimal};
use std::alloc::Global;
use std::sync::Wait;
use std::thread::Threads;

/// The words of the commands on the file `r.json`.
pub const DRAIN: [&str; 2] = ["drain", "r.json"];

pub const CHECK: [&str; 2] = ["check", "r.json"];

/// The number, from 1, of the call of each object that fails; none for 0.
#[derive(Clone, Copy)]
pub struct Failing {
    pub reading: u64,
    pub pull: u64,
    pub write: u64,
}

/// No call fails.
pub const SOUND: Failing = Failing {
    reading: 0,
    pull: 0,
    write: 0,
};

/// What is handed to a command.
pub struct Given {
    pub words: Vec<Text>,
    pub files: MemoryFiles,
    pub lanes: Vec<Lane<MemoryLane>>,
    pub inlets: Vec<Inlet<Lines>>,
    pub registry: Registry<SampleProcessor, SamplePredicate>,
    pub out: MemorySink,
}

impl Drop for Given {
    fn drop(self) {
        let Given {
            words,
            files,
            lanes,
            inlets,
            registry,
            out,
        } = self;
        drop(words);
        drop(files);
        drop(lanes);
        drop(inlets);
        drop(registry);
        drop(out);
    }
}

/// Appends these pieces.
pub fn push_all(out: &mut String, pieces: &[&str]) -> Result<(), NoMemory> {
    for piece in pieces {
        out.push_str(piece)?;
    }
    Ok(())
}

/// A line for each of these numbers, with this front and this back.
pub fn numbered(
    alloc: Global,
    first: u64,
    last: u64,
    front: &str,
    back: &str,
) -> Result<String, NoMemory> {
    let mut out = String::new(alloc);
    for number in first..=last {
        let digits = decimal(alloc, number)?;
        push_all(&mut out, &[front, digits.as_str(), back])?;
    }
    Ok(out)
}

/// A route file of one route from standard input with these steps.
pub fn route_of(alloc: Global, steps: &str) -> Result<String, NoMemory> {
    let front = "[{\"from\":{\"uri\":\"stream:in\",\"steps\":";
    joined(alloc, &[front, steps, "}}]"])
}

/// The bytes of a text.
fn bytes_of(alloc: Global, text: &str) -> Result<Series<u8>, NoMemory> {
    let mut bytes = Vec::new(alloc);
    bytes.extend_from_slice(text.as_bytes())?;
    Ok(Series::of(bytes))
}

/// A file of the folder that a command runs in.
pub fn file_of(
    alloc: Global,
    name: &str,
    text: &str,
) -> Result<(Text, Text, Series<u8>), NoMemory> {
    let folder = Text::of_str(alloc, ".")?;
    let name = Text::of_str(alloc, name)?;
    Ok((folder, name, bytes_of(alloc, text)?))
}

/// The file `r.json` with these routes.
fn route_files(alloc: Global, routes: &str, failing: u64) -> Result<MemoryFiles, NoMemory> {
    let failing = vec![in alloc; failing]?;
    let content = vec![in alloc; file_of(alloc, "r.json", routes)?]?;
    Ok(MemoryFiles::new(alloc, content, failing))
}

/// A lane of this name that fails the calls of these numbers.
pub fn lane(alloc: Global, name: &str, failing: Vec<u64>) -> Result<Lane<MemoryLane>, NoMemory> {
    let name = Text::of_str(alloc, name)?;
    let object = MemoryLane::new(alloc, failing);
    Ok(Lane { name, object })
}

/// The lanes `a` and `b`, which do all that is asked, and `x`, which fails its second call.
fn lanes(alloc: Global) -> Result<Vec<Lane<MemoryLane>>, NoMemory> {
    let mut lanes = Vec::new(alloc);
    for name in ["lane:a", "lane:b"] {
        lanes.push(lane(alloc, name, Vec::new(alloc))?)?;
    }
    lanes.push(lane(alloc, "lane:x", vec![in alloc; 2]?)?)?;
    Ok(lanes)
}

/// These lines as the inlet of standard input.
fn stream(alloc: Global, lines: &[&str], failing: u64) -> Result<Vec<Inlet<Lines>>, NoMemory> {
    let object = Lines::new(alloc, texts(alloc, lines)?, failing);
    let name = Text::of_str(alloc, "stream")?;
    Ok(vec![in alloc; Inlet { name, object }]?)
}

/// What is handed to a command without words, files, lanes and inlets.
fn given_nothing(alloc: Global) -> Result<Given, NoMemory> {
    Ok(Given {
        words: Vec::new(alloc),
        files: MemoryFiles::new(alloc, Vec::new(alloc), Vec::new(alloc)),
        lanes: Vec::new(alloc),
        inlets: Vec::new(alloc),
        registry: registry(alloc)?,
        out: MemorySink::new(alloc, Vec::new(alloc)),
    })
}

/// Hands in these routes as `r.json`, these lines as standard input, and a sink.
fn hand_in(
    alloc: Global,
    given: &mut Given,
    routes: &str,
    lines: &[&str],
    failing: Failing,
) -> Result<(), NoMemory> {
    given.files = route_files(alloc, routes, failing.reading)?;
    given.inlets = stream(alloc, lines, failing.pull)?;
    given.out = MemorySink::new(alloc, vec![in alloc; failing.write]?);
    Ok(())
}

/// What is handed to a command of these words, where `r.json` has these routes and standard input these lines.
pub fn given_with(
    alloc: Global,
    words: &[&str],
    routes: &str,
    lines: &[&str],
    failing: Failing,
) -> Result<Given, NoMemory> {
    let mut given = given_nothing(alloc)?;
    given.words = texts(alloc, words)?;
    given.lanes = lanes(alloc)?;
    hand_in(alloc, &mut given, routes, lines, failing)?;
    Ok(given)
}

/// What is handed to a drain of these lines, which come through these steps.
pub fn given_steps(alloc: Global, steps: &str, lines: &[&str]) -> Result<Given, NoMemory> {
    let routes = route_of(alloc, steps)?;
    given_with(alloc, &DRAIN, routes.as_str(), lines, SOUND)
}

/// The report of a command.
pub fn reported<W: AllocGlobal + Threads + Wait + Sync>(rt: &W, given: &mut Given) -> Report {
    let alloc = rt.alloc();
    let mut patterns = CratePatterns::new(Vec::new(alloc));
    run(
        rt,
        alloc,
        &given.words,
        &mut given.files,
        &mut patterns,
        &mut given.lanes,
        &mut given.inlets,
        &given.registry,
        &mut given.out,
    )
}

/// Whether a command comes to this status and writes this.
pub fn came<W: AllocGlobal + Threads + Wait + Sync>(
    rt: &W,
    given: &mut Given,
    status: u8,
    text: &str,
) -> bool {
    reported(rt, given).status == status && given.out.bytes() == text.as_bytes()
}

/// Whether the command of these words, where `r.json` has these routes and standard input these lines, comes to this
/// status and writes this.
pub fn comes_to<W: AllocGlobal + Threads + Wait + Sync>(
    rt: &W,
    words: &[&str],
    routes: &str,
    lines: &[&str],
    status: u8,
    text: &str,
) -> Result<bool, NoMemory> {
    let alloc = rt.alloc();
    let mut given = given_with(alloc, words, routes, lines, SOUND)?;
    Ok(came(rt, &mut given, status, text))
}

/// The same where these calls fail.
pub fn comes_at_fault_to<W: AllocGlobal + Threads + Wait + Sync>(
    rt: &W,
    routes: &str,
    failing: Failing,
    status: u8,
    text: &str,
) -> Result<bool, NoMemory> {
    let alloc = rt.alloc();
    let mut given = given_with(alloc, &DRAIN, routes, &["a", "b"], failing)?;
    Ok(came(rt, &mut given, status, text))
}

/// Whether a line that comes through these steps is drained, with this log and this book.
pub fn is_stepped<W: AllocGlobal + Threads + Wait + Sync>(
    rt: &W,
    steps: &str,
    body: &str,
    front: &str,
    totals: &str,
) -> Result<bool, NoMemory> {
    let alloc = rt.alloc();
    let routes = route_of(alloc, steps)?;
    let text = joined(alloc, &[front, totals])?;
    comes_to(rt, &DRAIN, routes.as_str(), &[body], 0, text.as_str())
}
