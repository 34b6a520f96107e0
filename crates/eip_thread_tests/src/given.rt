ghost use Rattle.eip_endpoint.specs.MemorySources.{AreNew};

use eip_endpoint::{Endpoint, Inlet, Lane, MemoryFiles, MemorySink, MemorySource, Pulled, Source};
use eip_processor::Registered;
use eip_run::run;
use eip_simple_read::CratePatterns;
use eip_test_support::texts;
use eip_text::{NoMemory, Series, Text};
use std::alloc::Global;
use std::sync::Wait;
use std::thread::Threads;

/// The file `r.json` with these bytes.
fn route_file(alloc: Global, routes: &str) -> Result<MemoryFiles, NoMemory> {
    let mut copy = Vec::new(alloc);
    copy.extend_from_slice(routes.as_bytes())?;
    let folder = Text::of_str(alloc, ".")?;
    let name = Text::of_str(alloc, "r.json")?;
    let content = vec![in alloc; (folder, name, Series::of(copy))]?;
    Ok(MemoryFiles::new(alloc, content, Vec::new(alloc)))
}

/// These items as the inlet of standard input.
pub fn stream(
    alloc: Global,
    items: Vec<(Text, Series<Pulled>)>,
) -> Result<Vec<Inlet<MemorySource>>, NoMemory>
    requires { AreNew items.items }
{
    let name = Text::of_str(alloc, "stream")?;
    let object = MemorySource::new(alloc, items, Vec::new(alloc));
    Ok(vec![in alloc; Inlet { name, object }]?)
}

/// What a command prints, where `r.json` has these routes, and its status is 0. `None` is for another status, or for want of memory.
pub fn told<E: Endpoint, S: Source, R: Registered + Sync, W: Threads + Wait + Sync>(
    rt: &W,
    alloc: Global,
    words: &[&str],
    routes: &str,
    lanes: &mut Vec<Lane<E>>,
    inlets: &mut Vec<Inlet<S>>,
    registry: &R,
) -> Option<Text> {
    let words = texts(alloc, words).ok()?;
    let mut files = route_file(alloc, routes).ok()?;
    let mut patterns = CratePatterns::new(Vec::new(alloc));
    let mut out = MemorySink::new(alloc, Vec::new(alloc));
    let report = run(
        rt,
        alloc,
        &words,
        &mut files,
        &mut patterns,
        lanes,
        inlets,
        registry,
        &mut out,
    );
    if report.status != 0 {
        return None;
    }
    Text::read(alloc, out.bytes()).ok()
}

/// Whether a command has printed this.
pub fn is_text(told: Option<Text>, wanted: &str) -> bool {
    match told {
        Some(text) => text.as_str() == wanted,
        None => false,
    }
}
