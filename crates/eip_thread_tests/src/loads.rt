use crate::given::{is_text, stream, told};
use eip_endpoint::{Inlet, Lane, MemoryLane, MemorySource};
use eip_load::LoadSource;
use eip_samples::registry;
use eip_test_support::{item, two_of_stream};
use eip_text::{NoMemory, Text};
use std::alloc::Global;
use std::sync::Wait;
use std::test::Fail;
use std::thread::Threads;

/// The totals of a load of ten items: 10 sources, 8 copies and 4 groups.
const LOADED: &str =
    "accepted 10 refused 0\ntotal 22 completed 22 handled 0 failed 0 waiting 0\ndrained\n";

/// Each line goes to a log.
const LOGGED: &str = r#"[{"from":{"uri":"stream:in","steps":[{"to":"log:out"}]}}]"#;

/// What a drain of the lines `a` and `b` prints without workers, its totals last.
const LINES: &str =
    "log 1 out: a\nlog 2 out: b\nexchange 1 source route1 completed\nexchange 2 source route1 completed\naccepted 2 refused 0\ntotal 2 completed 2 handled 0 failed 0 waiting 0\ndrained\n";

const TOTALS: &str =
    "accepted 2 refused 0\ntotal 2 completed 2 handled 0 failed 0 waiting 0\ndrained\n";

/// What a load of ten items by so many workers prints.
fn loaded<W: Threads + Wait + Sync>(
    rt: &W,
    alloc: Global,
    workers: &str,
) -> Result<Option<Text>, NoMemory> {
    let name = Text::of_str(alloc, "load")?;
    let object = LoadSource::new(alloc);
    let mut inlets = vec![in alloc; Inlet { name, object }]?;
    let mut lanes: Vec<Lane<MemoryLane>> = Vec::new(alloc);
    let registry = registry(alloc)?;
    let words = ["load", "10", workers];
    Ok(told(
        rt,
        alloc,
        &words,
        LOGGED,
        &mut lanes,
        &mut inlets,
        &registry,
    ))
}

#[test]
fn a_load_comes_to_the_same_with_and_without_workers(rt: HostRuntime) -> Result<(), Fail> {
    for workers in &["0", "4"] {
        let text = loaded(&rt, rt.alloc(), workers)?;
        assert!(rt; is_text(text, LOADED), "by {workers}");
    }
    Ok(())
}

/// The inlet of two lines.
fn two_lines(alloc: Global) -> Result<Vec<Inlet<MemorySource>>, NoMemory> {
    let first = item(alloc, "1", "a")?;
    let second = item(alloc, "2", "b")?;
    stream(alloc, two_of_stream(alloc, first, second)?)
}

/// What a drain of two lines by so many workers prints.
fn drained<W: Threads + Wait + Sync>(
    rt: &W,
    alloc: Global,
    workers: &str,
) -> Result<Option<Text>, NoMemory> {
    let mut inlets = two_lines(alloc)?;
    let mut lanes: Vec<Lane<MemoryLane>> = Vec::new(alloc);
    let registry = registry(alloc)?;
    let words = ["drain", "r.json", "--workers", workers];
    Ok(told(
        rt,
        alloc,
        &words,
        LOGGED,
        &mut lanes,
        &mut inlets,
        &registry,
    ))
}

/// Whether a text has just the lines of another one, each of which is there once.
fn has_lines(text: &str, lines: &str) -> bool {
    text.len() == lines.len()
        && lines
            .split('\n')
            .all(|line| text.split('\n').any(|other| other == line))
}

/// Whether that has the lines of a drain without workers, and the totals last.
fn is_drained<W: Threads + Wait + Sync>(
    rt: &W,
    alloc: Global,
    workers: &str,
) -> Result<[bool; 2], NoMemory> {
    match drained(rt, alloc, workers)? {
        Some(text) => Ok([
            has_lines(text.as_str(), LINES),
            text.as_str().ends_with(TOTALS),
        ]),
        None => Ok([false; 2]),
    }
}

#[test]
fn one_worker_and_sixteen_print_what_none_prints(rt: HostRuntime) -> Result<(), Fail> {
    for workers in &["0", "1", "16"] {
        let told = is_drained(&rt, rt.alloc(), workers)?;
        assert!(rt; told == [true; 2], "by {workers}");
    }
    Ok(())
}
