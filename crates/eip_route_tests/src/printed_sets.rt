use eip_exchange::{Clause, Policy};
use eip_route::{Block, Check, Goal, Handler, Names, Route, RouteSet, SetFault, Step};
use eip_test_support::texts;
use eip_text::{NoMemory, Series, Text};
use eip_uri::{Uri, UriFault};
use std::alloc::Global;
use std::test::*;

const NO_POLICY: Policy = Policy {
    maximum: None,
    delay: None,
    multiplier: None,
    backing_off: None,
    greatest: None,
};

fn uri(alloc: Global, text: &str) -> Result<Uri, UriFault> {
    let text = Text::of_str(alloc, text)?;
    Uri::read(alloc, &text, &[])
}

/// A block with a filter for each nested block.
fn block(alloc: Global, nested: &[u32]) -> Result<Block, NoMemory> {
    let mut steps = Vec::new(alloc);
    for number in nested {
        steps.push(Step::Filter {
            check: Check::Fixed(true),
            block: *number,
        })?;
    }
    Ok(Block {
        steps: Series::of(steps),
    })
}

/// Blocks, each by those nested in it.
fn blocks_of(alloc: Global, nested: &[&[u32]]) -> Result<Series<Block>, NoMemory> {
    let mut blocks = Vec::new(alloc);
    for numbers in nested {
        blocks.push(block(alloc, numbers)?)?;
    }
    Ok(Series::of(blocks))
}

fn route(alloc: Global, id: &str, from: &str, block: u32) -> Result<Route, UriFault> {
    let from = uri(alloc, from)?;
    Ok(Route {
        id: Text::of_str(alloc, id)?,
        from,
        block,
    })
}

/// Routes, each by its id, its consumer and its block.
fn routes_of(alloc: Global, routes: &[(&str, &str, u32)]) -> Result<Series<Route>, UriFault> {
    let mut all = Vec::new(alloc);
    for (id, from, block) in routes {
        all.push(route(alloc, id, from, *block)?)?;
    }
    Ok(Series::of(all))
}

fn names(alloc: Global) -> Result<Names, NoMemory> {
    let lanes = Series::of(texts(alloc, &["file", "lane:out"])?);
    Ok(Names {
        lanes,
        inlets: Series::of(Vec::new(alloc)),
        processors: Series::of(Vec::new(alloc)),
        predicates: Series::of(Vec::new(alloc)),
    })
}

/// A set of such routes and blocks.
fn set(
    alloc: Global,
    routes: &[(&str, &str, u32)],
    nested: &[&[u32]],
) -> Result<RouteSet, UriFault> {
    let routes = routes_of(alloc, routes)?;
    let blocks = blocks_of(alloc, nested)?;
    let names = names(alloc)?;
    Ok(RouteSet {
        names,
        routes,
        blocks,
        handler: Handler {
            dead: None,
            policy: NO_POLICY,
        },
        clauses: Series::of(Vec::new(alloc)),
    })
}

/// The first fault of such a set.
fn fault_of(
    alloc: Global,
    routes: &[(&str, &str, u32)],
    nested: &[&[u32]],
) -> Result<Option<SetFault>, UriFault> {
    let set = set(alloc, routes, nested)?;
    Ok(set.check().err())
}

#[test]
fn the_first_fault_of_a_set_is_found(rt: HostRuntime) -> Result<(), Fail> {
    let chain: &[&[u32]] = &[
        &[1],
        &[2],
        &[3],
        &[4],
        &[5],
        &[6],
        &[7],
        &[8],
        &[9],
        &[10],
        &[11],
        &[12],
        &[13],
        &[14],
        &[15],
        &[16],
        &[],
    ];
    let rows: [(&[(&str, &str, u32)], &[&[u32]], Option<SetFault>); 9] = [
        (
            &[("a", "direct:a", 0), ("b", "seda:a", 1)],
            &[&[2], &[], &[]],
            None,
        ),
        (&[("a", "direct:a", 1)], &[&[]], Some(SetFault::BadBlock(1))),
        (
            &[("a", "direct:a", 0)],
            &[&[1], &[1]],
            Some(SetFault::BadBlock(1)),
        ),
        (&[("a", "direct:a", 1)], chain, None),
        (
            &[("a", "direct:a", 0)],
            chain,
            Some(SetFault::TooNested(16)),
        ),
        (
            &[("a", "load:1", 0), ("b", "load:2", 1)],
            &[&[], &[]],
            Some(SetFault::SecondConsumer(1)),
        ),
        (
            &[("a", "file:in", 0), ("b", "file:in?noop=true", 1)],
            &[&[], &[]],
            Some(SetFault::SecondConsumer(1)),
        ),
        (
            &[("a", "direct:a", 0), ("a", "direct:b", 1)],
            &[&[], &[]],
            Some(SetFault::DoubleRouteId(1)),
        ),
        (
            &[("a", "direct:a", 0), ("a", "direct:a", 1)],
            &[&[], &[]],
            Some(SetFault::SecondConsumer(1)),
        ),
    ];
    for (routes, nested, wanted) in rows {
        assert!(rt; fault_of(rt.alloc(), routes, nested)? == wanted);
    }
    Ok(())
}

fn clause(alloc: Global, handled: bool, continued: bool) -> Result<Series<Clause>, NoMemory> {
    let names = Series::of(texts(alloc, &["Exception"])?);
    let mut clauses = Vec::new(alloc);
    clauses.push(Clause {
        names,
        policy: NO_POLICY,
        handled,
        continued,
        block: None,
    })?;
    Ok(Series::of(clauses))
}

/// The first fault of a set with one clause.
fn clause_fault(
    alloc: Global,
    handled: bool,
    continued: bool,
) -> Result<Option<SetFault>, UriFault> {
    let clauses = clause(alloc, handled, continued)?;
    let mut set = set(alloc, &[("a", "direct:a", 0)], &[&[]])?;
    set.clauses = clauses;
    Ok(set.check().err())
}

#[test]
fn a_clause_is_handled_or_continued(rt: HostRuntime) -> Result<(), Fail> {
    let rows = [
        (true, false, None),
        (false, true, None),
        (true, true, Some(SetFault::BothHandledAndContinued(0))),
    ];
    for (handled, continued, wanted) in rows {
        assert!(rt; clause_fault(rt.alloc(), handled, continued)? == wanted);
    }
    Ok(())
}

/// Where messages for a URI go in a set with three consumers.
fn goal_of(alloc: Global, text: &str) -> Result<Goal, UriFault> {
    let routes = [
        ("a", "stream:in", 0),
        ("b", "seda:q", 0),
        ("c", "direct:d", 0),
    ];
    let uri = uri(alloc, text)?;
    let set = set(alloc, &routes, &[&[]])?;
    Ok(set.resolve(&uri))
}

#[test]
fn a_uri_has_its_goal(rt: HostRuntime) -> Result<(), Fail> {
    let rows = [
        ("direct:d", Goal::Direct(2)),
        ("direct:q", Goal::NoConsumer),
        ("seda:q?size=5", Goal::Queue(1)),
        ("seda:d", Goal::NoConsumer),
        ("file:any", Goal::Lane),
        ("line:host:1", Goal::NoConsumer),
        ("lane:out", Goal::Lane),
        ("lane:ou", Goal::NoConsumer),
        ("log:any", Goal::Log),
        ("stream:in", Goal::NoConsumer),
    ];
    for (text, wanted) in rows {
        assert!(rt; goal_of(rt.alloc(), text)? == wanted, "of {text}");
    }
    Ok(())
}
