ghost use Rattle.std.specs.Prelude.{◌≡◌, position};
ghost use Rattle.eip_error_handler.specs.Clauses as spec;

use eip_exchange::{Clause, Fault};
use eip_text::cuts::cut;

/// The name under which a clause takes every kind of fault (Camel manual, *Exception Clause*: `java.lang.Exception`).
const EVERY_KIND: &str = "Exception";

/// The index of the clause that takes the fault: the first that names its kind, else the first that names `Exception`,
/// else none. Of a name the last dotted segment counts, of the fault its whole kind (Camel manual, *Exception Clause*;
/// a clause that names the kind itself goes before one that names every kind, as the closest class does there).
#[tactic(auto, unfolding(crate::specs::Clauses::chosen))]
pub fn choose(clauses: &[Clause], fault: &Fault) -> Option<usize>
    ensures { result ≡ spec.chosen clauses.now fault.now }
{
    first_naming(clauses, fault.kind.as_str()).or(first_naming(clauses, EVERY_KIND))
}

/// The index of the first clause that names the kind.
fn first_naming(clauses: &[Clause], kind: &str) -> Option<usize>
    ensures { result ≡ position (spec.names_kind kind.now) clauses.now }
{
    clauses.iter().position(|clause| names_kind(clause, kind))
}

fn names_kind(clause: &Clause, kind: &str) -> bool
    ensures { result ≡ spec.names_kind kind.now clause.now }
{
    clause
        .names
        .items()
        .iter()
        .any(|name| last_segment(name.as_str()) == kind)
}

/// What stands behind the last dot of a name.
pub fn last_segment(name: &str) -> &str
    ensures { result.now ≡ spec.last_segment name.now }
{
    let mut rest = name;
    while let Some((_, more)) = cut(rest, '.') {
        rest = more;
    }
    rest
}
