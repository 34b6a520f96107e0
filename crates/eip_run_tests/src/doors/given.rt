use eip_endpoint::{Endpoint, Inlet, Lane, MemoryFiles, MemorySink, Source};
use eip_line::MemoryLink;
use eip_run::run;
use eip_samples::registry;
use eip_simple_read::CratePatterns;
use eip_test_support::texts;
use eip_text::{NoMemory, Series, Text};
use std::alloc::Global;
use std::sync::Wait;
use std::thread::Threads;

/// A file in memory: its folder, its name and its bytes.
pub type Held<'a> = (&'a str, &'a str, &'a [u8]);

/// These files, of whose calls those of these numbers, from 1, fail.
pub fn files_of(alloc: Global, held: &[Held], failing: Vec<u64>) -> Result<MemoryFiles, NoMemory> {
    let mut content = Vec::new(alloc);
    for (folder, name, bytes) in held {
        let mut copy = Vec::new(alloc);
        copy.extend_from_slice(bytes)?;
        let folder = Text::of_str(alloc, folder)?;
        let name = Text::of_str(alloc, name)?;
        content.push((folder, name, Series::of(copy)))?;
    }
    Ok(MemoryFiles::new(alloc, content, failing))
}

/// Whether a file of this folder and name has these bytes.
pub fn holds(files: &MemoryFiles, wanted: &Held) -> bool {
    let (folder, name, bytes) = wanted;
    files.content().iter().any(|file| file.0.as_str() == *folder
        && file.1.as_str() == *name
        && file.2.items() == *bytes)
}

/// A link from which these bytes come.
pub fn link(alloc: Global, input: &[u8]) -> Result<MemoryLink, NoMemory> {
    let mut copy = Vec::new(alloc);
    copy.extend_from_slice(input)?;
    Ok(MemoryLink::new(alloc, copy, Vec::new(alloc)))
}

/// Whether the command of these words over these files, lanes and inlets comes to status 0 and writes this text.
pub fn comes_to<E: Endpoint, S: Source, W: AllocGlobal + Threads + Wait + Sync>(
    rt: &W,
    words: &[&str],
    files: &mut MemoryFiles,
    lanes: &mut Vec<Lane<E>>,
    inlets: &mut Vec<Inlet<S>>,
    text: &str,
) -> Result<bool, NoMemory> {
    let alloc = rt.alloc();
    let words = texts(alloc, words)?;
    let mut patterns = CratePatterns::new(Vec::new(alloc));
    let mut out = MemorySink::new(alloc, Vec::new(alloc));
    let registry = registry(alloc)?;
    let report = run(
        rt,
        alloc,
        &words,
        files,
        &mut patterns,
        lanes,
        inlets,
        &registry,
        &mut out,
    );
    Ok(report.status == 0 && out.bytes() == text.as_bytes())
}

/// Whether a drain of these routes over these lanes and inlets is drained with this text.
pub fn is_drained<E: Endpoint, S: Source, W: AllocGlobal + Threads + Wait + Sync>(
    rt: &W,
    routes: &str,
    lanes: &mut Vec<Lane<E>>,
    inlets: &mut Vec<Inlet<S>>,
    text: &str,
) -> Result<bool, NoMemory> {
    let alloc = rt.alloc();
    let mut files = files_of(
        alloc,
        &[(".", "r.json", routes.as_bytes())],
        Vec::new(alloc),
    )?;
    comes_to(rt, &["drain", "r.json"], &mut files, lanes, inlets, text)
}
