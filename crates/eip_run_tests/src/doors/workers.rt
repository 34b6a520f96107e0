use crate::doors::given::{comes_to, files_of};
use eip_endpoint::{Inlet, Lane, MemoryLane};
use eip_load::LoadSource;
use eip_text::{NoMemory, Text};
use std::sync::Wait;
use std::test::Fail;
use std::thread::Threads;

/// The last lines of the book of a load of ten items: of them there are 8 copies, in 4 groups.
const TOTALS: &str =
    "accepted 10 refused 0\ntotal 22 completed 22 handled 0 failed 0 waiting 0\ndrained\n";

/// Whether a load of ten items by so many workers is drained with these totals.
fn is_loaded<W: AllocGlobal + Threads + Wait + Sync>(
    rt: &W,
    workers: &str,
) -> Result<bool, NoMemory> {
    let alloc = rt.alloc();
    let mut files = files_of(alloc, &[], Vec::new(alloc))?;
    let mut lanes: Vec<Lane<MemoryLane>> = Vec::new(alloc);
    let name = Text::of_str(alloc, "load")?;
    let object = LoadSource::new(alloc);
    let mut inlets = vec![in alloc; Inlet { name, object }]?;
    let words = ["load", "10", workers];
    comes_to(rt, &words, &mut files, &mut lanes, &mut inlets, TOTALS)
}

#[test]
fn a_load_comes_to_its_totals_without_workers_and_by_them(rt: HostRuntime) -> Result<(), Fail> {
    for workers in ["0", "1", "4"] {
        let told = is_loaded(&rt, workers)?;
        assert!(rt; told, "by {workers}");
    }
    Ok(())
}
