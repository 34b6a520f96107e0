ghost use Rattle.std.specs.Prelude.{◌≡◌, ◌++◌, ◌∷◌, [], None, IfOk, OnOk, codes, map};
ghost use Rattle.eip_keyed.specs.Keyed.{found};
ghost use Rattle.eip_embedding.specs.Handed.{processors, sum_in};

use crate::kinds::{OwnLane, OwnProcessor};
use crate::seal::Seal;
use crate::till::Till;
use eip_doors::{HostInlet, inlets};
use eip_endpoint::{Files, Inlet, Lane, Mover};
use eip_file::FileLane;
use eip_host::{Counted, SharedProgress};
use eip_line::Link;
use eip_processor::{AddFault, Registry};
use eip_samples::{Sample, SamplePredicate, SampleProcessor};
use eip_text::{NoMemory, Text};
use std::alloc::Global;
use std::io::Write;
use std::time::Clock;

// What the program hands in of its own.

/// The lanes: `lane:till` sums amounts, and `file` writes files.
fn lanes<F: Files + Send + Drop>(alloc: Global, files: F) -> Result<Vec<Lane<OwnLane<F>>>, NoMemory>
    ensures { IfOk result (λ ls. map (λ l. l.name) ls.items ≡ codes "lane:till" ∷ codes "file" ∷ []) }
{
    let till = Lane {
        name: Text::of_str(alloc, "lane:till")?,
        object: OwnLane::Till(Till { sum: 0, faults: 0 }),
    };
    let files = Lane {
        name: Text::of_str(alloc, "file")?,
        object: OwnLane::Files(FileLane::new(files)),
    };
    let mut lanes = Vec::new(alloc);
    lanes.push(till)?;
    lanes.push(files)?;
    Ok(lanes)
}

/// What is handed in to a run beside the registry: lanes, and inlets whose items are counted where there is a count.
pub type HandedIn<A, F, K, C, W> = (
    Vec<Lane<OwnLane<F>>>,
    Vec<Inlet<Counted<HostInlet<A, F, K>, C, W>>>,
);

/// The lanes, and the inlets of the shipped program.
pub fn handed_in<
    A: Link + Send + Drop,
    F: Mover + Send + Drop,
    K: Link + Send + Drop,
    C: Clock + Send + Drop,
    W: Write + Send + Drop,
>(
    alloc: Global,
    input: A,
    files: (F, F),
    peers: K,
    progress: &Option<SharedProgress<C, W>>,
) -> Result<HandedIn<A, F, K, C, W>, NoMemory>
    ensures lanes { IfOk result (λ d. map (λ l. l.name) d.0.items ≡ codes "lane:till" ∷ codes "file" ∷ []) }
    ensures inlets { IfOk result (λ d. map (λ i. i.name) d.1.items ≡ codes "stream" ∷ (codes "file" ∷ (codes "line" ∷ (codes "load" ∷ [])))) }
{
    let lanes = lanes(alloc, files.0)?;
    let inlets = inlets(alloc, input, files.1, peers, progress)?;
    Ok((lanes, inlets))
}

/// The sum of the first till among the lanes, or 0 where there is none.
pub fn sum_in<F>(lanes: &[Lane<OwnLane<F>>]) -> i64
    ensures { result ≡ sum_in lanes.now }
{
    for lane in lanes {
        if let OwnLane::Till(till) = &lane.object {
            return till.sum;
        }
    }
    0
}

/// The registry: the processors `field` and `refuse` of the shipped program, and `seal` of so many rounds.
pub fn registry(
    alloc: Global,
    rounds: u32,
) -> Result<Registry<OwnProcessor, SamplePredicate>, NoMemory>
    ensures processors { IfOk result (λ r. r.processors.items ≡ processors rounds) }
    ensures predicates { IfOk result (λ r. r.predicates.items ≡ []) }
{
    let field = SampleProcessor::new(alloc, Sample::Field);
    let refuse = SampleProcessor::new(alloc, Sample::Refuse);
    let mut registry = Registry::new(alloc);
    add(&mut registry, alloc, "field", OwnProcessor::Sample(field))?;
    add(&mut registry, alloc, "refuse", OwnProcessor::Sample(refuse))?;
    add(
        &mut registry,
        alloc,
        "seal",
        OwnProcessor::Seal(Seal::new(alloc, rounds)),
    )?;
    Ok(registry)
}

/// Adds a processor under a name that is free.
fn add(
    registry: &mut Registry<OwnProcessor, SamplePredicate>,
    alloc: Global,
    name: &str,
    object: OwnProcessor,
) -> Result<(), NoMemory>
    requires { found name.now registry.old.processors.items ≡ None }
    ensures added { OnOk result (registry.new.processors.items ≡ registry.old.processors.items ++ (name.now, object) ∷ []) }
    ensures predicates { registry.new.predicates ≡ registry.old.predicates }
{
    match registry.add_processor(Text::of_str(alloc, name)?, object) {
        Ok(()) => Ok(()),
        Err(AddFault::NameTaken) => unreachable!(),
        Err(AddFault::NoMemory) => Err(NoMemory),
    }
}
