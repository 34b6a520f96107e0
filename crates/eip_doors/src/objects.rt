ghost use Rattle.std.specs.Prelude.{◌≡◌, ◌∷◌, [], IfOk, codes, map};
ghost use Rattle.eip_samples.specs.Samples.{samples};

use crate::doors::{HostInlet, HostLane};
use eip_endpoint::{Files, Inlet, Lane, Mover};
use eip_file::{FileLane, FileSource};
use eip_host::{Counted, SharedProgress};
use eip_line::{LineLane, LineSource, Link};
use eip_load::LoadSource;
use eip_processor::Registry;
use eip_samples::{SamplePredicate, SampleProcessor, registry};
use eip_simple_read::CratePatterns;
use eip_text::{NoMemory, Text};
use std::alloc::Global;
use std::io::Write;
use std::sync::Arc;
use std::time::Clock;

// What the program hands in of the host.

/// The builder of patterns, which refuses none by its number.
pub fn patterns(alloc: Global) -> CratePatterns
    ensures { result.failing.items ≡ [] }
{
    CratePatterns::new(Vec::new(alloc))
}

/// The lanes: `file` writes files, and `line` sends lines to peers.
pub fn lanes<F: Files + Send + Drop, K: Link + Send + Drop>(
    alloc: Global,
    files: F,
    peers: K,
) -> Result<Vec<Lane<HostLane<F, K>>>, NoMemory>
    ensures { IfOk result (λ ls. map (λ l. l.name) ls.items ≡ codes "file" ∷ codes "line" ∷ []) }
{
    let files = Lane {
        name: Text::of_str(alloc, "file")?,
        object: HostLane::Files(FileLane::new(files)),
    };
    let lines = Lane {
        name: Text::of_str(alloc, "line")?,
        object: HostLane::Lines(LineLane::new(alloc, peers)),
    };
    let mut lanes = Vec::new(alloc);
    lanes.push(files)?;
    lanes.push(lines)?;
    Ok(lanes)
}

/// The inlet of this name over a source, whose items are counted where there is a count.
fn inlet<S: Drop, C: Drop, W: Drop>(
    alloc: Global,
    name: &str,
    source: S,
    progress: &Option<SharedProgress<C, W>>,
) -> Result<Inlet<Counted<S, C, W>>, NoMemory>
    ensures { IfOk result (λ i. i.name ≡ name.now) }
{
    let name = Text::of_str(alloc, name)?;
    let progress = match progress {
        Some(progress) => Some(Arc::try_clone(progress)?),
        None => None,
    };
    Ok(Inlet {
        name,
        object: Counted { source, progress },
    })
}

/// The inlets: `stream` reads lines of standard input, `file` the files of folders, `line` lines of peers that connect, and `load` the
/// items of a load.
pub fn inlets<
    A: Link + Send + Drop,
    F: Mover + Send + Drop,
    K: Link + Send + Drop,
    C: Clock + Send + Drop,
    W: Write + Send + Drop,
>(
    alloc: Global,
    input: A,
    files: F,
    peers: K,
    progress: &Option<SharedProgress<C, W>>,
) -> Result<Vec<Inlet<Counted<HostInlet<A, F, K>, C, W>>>, NoMemory>
    ensures { IfOk result (λ is. map (λ i. i.name) is.items ≡ codes "stream" ∷ (codes "file" ∷ (codes "line" ∷ (codes "load" ∷ [])))) }
{
    let stream = HostInlet::Stream(LineSource::new(alloc, input));
    let files = HostInlet::Files(FileSource::new(alloc, files));
    let lines = HostInlet::Lines(LineSource::new(alloc, peers));
    let loads = HostInlet::Loads(LoadSource::new(alloc));
    let mut inlets = Vec::new(alloc);
    inlets.push(inlet(alloc, "stream", stream, progress)?)?;
    inlets.push(inlet(alloc, "file", files, progress)?)?;
    inlets.push(inlet(alloc, "line", lines, progress)?)?;
    inlets.push(inlet(alloc, "load", loads, progress)?)?;
    Ok(inlets)
}

/// What is handed in to a command: lanes, inlets, and the processors and predicates.
pub type HandedIn<A, F, K, C, W> = (
    Vec<Lane<HostLane<F, K>>>,
    Vec<Inlet<Counted<HostInlet<A, F, K>, C, W>>>,
    Registry<SampleProcessor, SamplePredicate>,
);

/// Lanes over files and peers, inlets over standard input, files and peers, and the shipped processors and predicate.
pub fn handed_in<
    A: Link + Send + Drop,
    F: Mover + Send + Drop,
    K: Link + Send + Drop,
    C: Clock + Send + Drop,
    W: Write + Send + Drop,
>(
    alloc: Global,
    input: A,
    files: (F, F),
    peers: (K, K),
    progress: &Option<SharedProgress<C, W>>,
) -> Result<HandedIn<A, F, K, C, W>, NoMemory>
    ensures lanes { IfOk result (λ d. map (λ l. l.name) d.0.items ≡ codes "file" ∷ codes "line" ∷ []) }
    ensures inlets { IfOk result (λ d. map (λ i. i.name) d.1.items ≡ codes "stream" ∷ (codes "file" ∷ (codes "line" ∷ (codes "load" ∷ [])))) }
    ensures processors { IfOk result (λ d. d.2.processors.items ≡ samples) }
    ensures predicates { IfOk result (λ d. d.2.predicates.items ≡ (codes "empty", SamplePredicate.Empty) ∷ []) }
{
    let lanes = lanes(alloc, files.0, peers.0)?;
    let inlets = inlets(alloc, input, files.1, peers.1, progress)?;
    let registry = registry(alloc)?;
    Ok((lanes, inlets, registry))
}
