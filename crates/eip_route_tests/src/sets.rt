use crate::support::{ALL, read};
use eip_route::RouteSet;
use eip_route_json::RouteRefusal;
use eip_text::NoMemory;
use std::alloc::Global;
use std::test::*;

/// The routes' names, the number of the blocks and that of the clauses.
fn counted(alloc: Global, set: &RouteSet) -> Result<String, NoMemory> {
    let mut out = String::new(alloc);
    for route in set.routes.items() {
        out.push_str(route.id.as_str())?;
        out.push(' ')?;
    }
    out.push_str(counts(alloc, set)?.as_str())?;
    Ok(out)
}

fn counts(alloc: Global, set: &RouteSet) -> Result<String, NoMemory> {
    let blocks = set.blocks.items().len();
    let clauses = set.clauses.items().len();
    Ok(format!(in alloc; "{blocks} {clauses}")?)
}

/// Whether a file has no fault, and that is the same of its set.
fn is_counted(alloc: Global, file: &str, expected: &str) -> Result<bool, NoMemory> {
    match read(alloc, file.as_bytes(), ALL) {
        Ok(set) => Ok(counted(alloc, &set)?.as_str() == expected),
        Err(RouteRefusal::Refused(_)) => Ok(false),
        Err(RouteRefusal::NoMemory) => Err(NoMemory),
    }
}

/// Files, and what is counted of their sets.
const ROWS: [(&str, &str); 8] = [
    ("[]", "0 0"),
    (r#"[{"from":{"uri":"stream:in"}}]"#, "route1 1 0"),
    (
        r#"[{"route":{"id":"a","from":{"uri":"seda:q","steps":[]}}},{"from":{"uri":"seda:r"}}]"#,
        "a route2 2 0",
    ),
    (
        r#"[{"on-exception":{"exception":"E","steps":[]}},{"onException":{"exception":["E"],"steps":[{"to":"log:x"}]}}]"#,
        "1 2",
    ),
    (
        r#"[{"from":{"uri":"direct:d","steps":[{"multicast":{"steps":[{"to":"log:x"},{"filter":{"constant":true,"steps":[]}}]}}]}}]"#,
        "route1 4 0",
    ),
    (
        r#"[{"from":{"uri":"direct:d","steps":[{"choice":{"otherwise":{"steps":[]},"when":[{"constant":"true","steps":[]},{"ref":"empty","steps":[]}]}}]}}]"#,
        "route1 4 0",
    ),
    (
        r#"[{"from":{"uri":"direct:d","steps":[{"doTry":{"steps":[],"doCatch":[{"exception":"E","steps":[]},{"exception":"F","steps":[{"filter":{"constant":true,"steps":[]}}]}],"doFinally":{"steps":[]}}}]}}]"#,
        "route1 6 0",
    ),
    (
        r#"[{"from":{"uri":"direct:d","steps":[{"resequence":{"header":"h","steps":[{"filter":{"constant":true,"steps":[]}}]}}]}}]"#,
        "route1 4 0",
    ),
];

#[test]
fn routes_have_their_names_and_blocks(rt: HostRuntime) -> Result<(), Fail> {
    for &(file, expected) in &ROWS {
        assert!(rt; is_counted(rt.alloc(), file, expected)?, "of {file}");
    }
    Ok(())
}
