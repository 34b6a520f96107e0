use eip_exchange::Policy;
use eip_route::{Block, Expr, Fan, Handler, Names, Route, RouteSet, Step};
use eip_route_print::print_routes;
use eip_simple_read::{Template, read_template};
use eip_text::{NoMemory, Series, Text};
use eip_uri::Uri;
use std::alloc::Global;
use std::test::*;

const NO_POLICY: Policy = Policy {
    maximum: None,
    delay: None,
    multiplier: None,
    backing_off: None,
    greatest: None,
};

fn template(alloc: Global, word: &str) -> Result<Template, NoMemory> {
    let text = Text::of_str(alloc, word)?;
    match read_template(alloc, &text) {
        Ok(template) => Ok(template),
        Err(_) => Err(NoMemory),
    }
}

/// A list of one item.
fn one<T: Drop>(alloc: Global, item: T) -> Result<Series<T>, NoMemory> {
    let mut items = Vec::new(alloc);
    items.push(item)?;
    Ok(Series::of(items))
}

fn set_body(alloc: Global, word: &str) -> Result<Step, NoMemory> {
    Ok(Step::SetBody(Expr::Constant(Text::of_str(alloc, word)?)))
}

fn recipients(alloc: Global, list: &str) -> Result<Step, NoMemory> {
    let list = template(alloc, list)?;
    let delimiter = Text::of_str(alloc, ",")?;
    Ok(Step::Recipients {
        list: Expr::Simple(list),
        delimiter,
        fan: Fan {
            strategy: None,
            parallel: false,
            stop: false,
            share: false,
        },
    })
}

/// A block of a `setBody` and a `recipientList`.
fn block(alloc: Global) -> Result<Block, NoMemory> {
    let mut steps = Vec::new(alloc);
    steps.push(set_body(alloc, "x")?)?;
    steps.push(recipients(alloc, "${headers.to}")?)?;
    Ok(Block {
        steps: Series::of(steps),
    })
}

fn route(alloc: Global, id: &str) -> Result<Series<Route>, NoMemory> {
    let id = Text::of_str(alloc, id)?;
    one(
        alloc,
        Route {
            id,
            from: Uri::StreamIn,
            block: 0,
        },
    )
}

/// A set of one route from standard input with that block.
fn set(alloc: Global) -> Result<RouteSet, NoMemory> {
    let routes = route(alloc, "r")?;
    let block = block(alloc)?;
    let blocks = one(alloc, block)?;
    Ok(RouteSet {
        names: Names::none(alloc),
        routes,
        blocks,
        handler: Handler {
            dead: None,
            policy: NO_POLICY,
        },
        clauses: Series::of(Vec::new(alloc)),
    })
}

/// Whether that set has this canonical text.
fn is_printed(alloc: Global, wanted: &str) -> Result<bool, NoMemory> {
    let set = set(alloc)?;
    Ok(print_routes(alloc, &set)?.as_str() == wanted)
}

/// The canonical text of that set.
const PRINTED: &str =
    r#"[{"route":{"from":{"steps":[{"setBody":{"constant":"x"}},{"recipientList":{"simple":"${header.to}"}}],"uri":"stream:in"},"id":"r"}}]
"#;

#[test]
fn a_route_prints_its_steps_in_from(rt: HostRuntime) -> Result<(), Fail> {
    assert!(rt; is_printed(rt.alloc(), PRINTED)?);
    Ok(())
}
