ghost use Rattle.std.specs.Prelude.{◌≤◌, ◌↔◌, IsTrue, length};

use eip_audit::{Verdict, audit, audit_dump};
use eip_dump::{DumpFault, read_dump};
use eip_route::{Names, RouteSet};
use eip_route_json::{RouteRefusal, read_routes};
use eip_simple_read::CratePatterns;
use eip_test_support::texts;
use eip_text::{NoMemory, Series};
use std::alloc::Global;

/// What comes of a route file and a dump.
#[derive(Clone, Copy, Debug, PartialEq, Eq)]
pub enum Outcome {
    Audited(Verdict),
    /// The route file is refused.
    NoRoutes,
    /// The first bad line of the dump.
    BadDump(u64),
}

fn names(alloc: Global) -> Result<Names, NoMemory> {
    Ok(Names {
        lanes: Series::of(texts(alloc, &["lane:x"])?),
        inlets: Series::of(texts(alloc, &["stream"])?),
        processors: Series::of(Vec::new(alloc)),
        predicates: Series::of(Vec::new(alloc)),
    })
}

/// Whether a set has as many routes as a set may have.
fn is_within(set: &RouteSet) -> bool
    ensures { IsTrue result ↔ length set.now.routes ≤ 256 }
{
    set.routes.items().len() <= 256
}

fn set_of(alloc: Global, file: &str) -> Result<Option<RouteSet>, NoMemory> {
    let names = names(alloc)?;
    let mut patterns = CratePatterns::new(Vec::new(alloc));
    match read_routes(alloc, file.as_bytes(), &names, &mut patterns) {
        Ok(set) => Ok(Some(set)),
        Err(RouteRefusal::NoMemory) => Err(NoMemory),
        Err(other) => {
            drop(other);
            Ok(None)
        }
    }
}

/// The bytes of a dump, as a file gives them.
fn bytes_of(alloc: Global, dump: &str) -> Result<Vec<u8>, NoMemory> {
    Ok(Vec::from_slice(alloc, dump.as_bytes())?)
}

/// Who reads a dump, and judges its entries.
#[derive(Clone, Copy)]
enum Auditing {
    /// The journal is read, and then audited.
    Journal,
    /// Each entry is judged as its line is read.
    Lines,
}

impl Auditing {
    fn verdict(self, alloc: Global, set: RouteSet, dump: &str) -> Result<Verdict, DumpFault>
        requires { length set.routes ≤ 256 }
    {
        match self {
            Auditing::Journal => {
                let journal = read_dump(alloc, dump.as_bytes())?;
                Ok(audit(alloc, set, &journal)?)
            }
            Auditing::Lines => {
                let bytes = bytes_of(alloc, dump)?;
                audit_dump(alloc, set, bytes)
            }
        }
    }

    /// What comes of a route file and a dump.
    fn outcome(self, alloc: Global, file: &str, dump: &str) -> Result<Outcome, NoMemory> {
        let Some(set) = set_of(alloc, file)? else {
            return Ok(Outcome::NoRoutes);
        };
        if !is_within(&set) {
            drop(set);
            return Ok(Outcome::NoRoutes);
        }
        match self.verdict(alloc, set, dump) {
            Ok(verdict) => Ok(Outcome::Audited(verdict)),
            Err(DumpFault::BadDump(line)) => Ok(Outcome::BadDump(line)),
            Err(DumpFault::NoMemory) => Err(NoMemory),
        }
    }
}

/// What comes of a route file and a dump: where the journal is read and then audited, and where each entry is judged as its line is
/// read.
pub fn outcomes_of(alloc: Global, file: &str, dump: &str) -> Result<(Outcome, Outcome), NoMemory> {
    let by_journal = Auditing::Journal.outcome(alloc, file, dump)?;
    let by_lines = Auditing::Lines.outcome(alloc, file, dump)?;
    Ok((by_journal, by_lines))
}

/// The outcome of a journal whose entry with this number breaks this rule, and none before it does.
pub fn wrong(entry: u64, rule: u32) -> Outcome {
    Outcome::Audited(Verdict::Wrong { entry, rule })
}
