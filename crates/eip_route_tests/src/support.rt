// What the tests of route files share: what a file is read with, and what is told of it.
use eip_route::{Names, RouteSet};
use eip_route_grammar::{RouteFault, print_cause};
use eip_route_json::{RouteRefusal, read_routes};
use eip_route_print::print_routes;
use eip_simple_read::CratePatterns;
use eip_test_support::texts;
use eip_text::{NoMemory, Series, Text};
use std::alloc::Global;

/// The names that are handed in.
#[derive(Clone, Copy)]
pub enum Handed {
    Nothing,
    /// One lane, one inlet, one processor and one predicate.
    OneOfEach,
    /// Every lane and inlet that a route can want, one of them by its name, a processor and a predicate.
    Everything,
}

/// What a file is read with.
#[derive(Clone, Copy)]
pub struct Given {
    pub handed: Handed,
    /// The number of the pattern that is refused, from 1.
    pub refused: u64,
}

/// Everything is handed in, and no pattern is refused.
pub const ALL: Given = Given {
    handed: Handed::Everything,
    refused: 0,
};

/// The names of these lanes and inlets, a processor and a predicate.
fn some_names(alloc: Global, lanes: &[&str], inlets: &[&str]) -> Result<Names, NoMemory> {
    Ok(Names {
        lanes: Series::of(texts(alloc, lanes)?),
        inlets: Series::of(texts(alloc, inlets)?),
        processors: Series::of(texts(alloc, &["keep"])?),
        predicates: Series::of(texts(alloc, &["empty"])?),
    })
}

/// The names that are handed in.
pub fn names(alloc: Global, handed: Handed) -> Result<Names, NoMemory> {
    match handed {
        Handed::Nothing => Ok(Names::none(alloc)),
        Handed::OneOfEach => some_names(alloc, &["lane:x"], &["stream"]),
        Handed::Everything => some_names(
            alloc,
            &["lane:x", "file", "line"],
            &["stream", "file", "line", "load"],
        ),
    }
}

fn patterns(alloc: Global, refused: u64) -> Result<CratePatterns, NoMemory> {
    Ok(CratePatterns::new(vec![in alloc; refused]?))
}

/// The routes of a file.
pub fn read(alloc: Global, bytes: &[u8], given: Given) -> Result<RouteSet, RouteRefusal> {
    let names = names(alloc, given.handed)?;
    let mut patterns = patterns(alloc, given.refused)?;
    read_routes(alloc, bytes, &names, &mut patterns)
}

/// The line of a fault: its path and its cause.
fn fault_line(alloc: Global, fault: &RouteFault) -> Result<Text, NoMemory> {
    let cause = print_cause(alloc, &fault.cause)?;
    let mut line = String::from_str(alloc, fault.path.as_str())?;
    line.push_str(" ")?;
    line.push_str(cause.as_str())?;
    line.push_str("\n")?;
    Ok(Text::of(line))
}

/// What is told of a file: its canonical text, or the line of its first fault.
pub fn told(alloc: Global, bytes: &[u8], given: Given) -> Result<Text, NoMemory> {
    match read(alloc, bytes, given) {
        Ok(set) => print_routes(alloc, &set),
        Err(RouteRefusal::Refused(fault)) => fault_line(alloc, &fault),
        Err(RouteRefusal::NoMemory) => Err(NoMemory),
    }
}

/// Whether a text is this line and a line feed.
fn is_line(text: &str, line: &str) -> bool {
    match text.strip_suffix('\n') {
        Some(front) => front == line,
        None => false,
    }
}

/// Whether this is what is told of a file, without the line feed at its end.
pub fn is_told(alloc: Global, bytes: &[u8], given: Given, wanted: &str) -> Result<bool, NoMemory> {
    let told = told(alloc, bytes, given)?;
    Ok(is_line(told.as_str(), wanted))
}
