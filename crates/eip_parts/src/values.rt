ghost use Rattle.std.specs.Prelude.{◌≡◌, [], IfOk, unwrap_or, option_copied};
ghost use Rattle.eip_simple.specs.Values.{template_value};
ghost use Rattle.eip_meaning.specs.Values.{id_of, seen_in, value_of, short};

use eip_exchange::Message;
use eip_meaning::Context;
use eip_route::{Expr, RouteSet};
use eip_simple::{ValueFault, View, value};
use eip_simple_read::Template;
use eip_text::{NoMemory, Text};
use std::alloc::Global;

/// How many bytes a value has at most.
const LIMIT: usize = 65_536;

/// The value of an expression on a message; `None` where it is too long. An absent header or property gives the empty
/// text.
pub fn value_of(
    alloc: Global,
    set: &RouteSet,
    context: Context,
    expression: &Expr,
    message: &Message,
) -> Result<Option<Text>, NoMemory>
    ensures { IfOk result (λ v. v ≡ short (value_of set.now context expression.now message.now)) }
{
    match expression {
        Expr::Simple(template) => evaluated(alloc, set, context, template, message),
        Expr::Constant(text) => shortened(text),
        Expr::Header(name) => or_empty(alloc, message.headers.get(name.bytes())),
        Expr::Property(name) => or_empty(alloc, message.properties.get(name.bytes())),
    }
}

/// The value of a template on a message; `None` where it is too long.
pub fn evaluated(
    alloc: Global,
    set: &RouteSet,
    context: Context,
    template: &Template,
    message: &Message,
) -> Result<Option<Text>, NoMemory>
    ensures { IfOk result (λ v. v ≡ short (template_value template.now (seen_in set.now context message.now))) }
{
    let none = empty(alloc);
    let view = View {
        message,
        number: context.number,
        route: route_id(set, context.route, &none),
    };
    match value(alloc, template, &view) {
        Ok(text) => Ok(Some(text)),
        Err(ValueFault::TooLong) => Ok(None),
        Err(ValueFault::NoMemory) => Err(NoMemory),
    }
}

/// The id of the route with this index; `none` where it isn't there.
pub fn route_id<'s>(set: &'s RouteSet, route: u32, none: &'s Text) -> &'s Text
    requires { none.now ≡ [] }
    ensures { result.now ≡ id_of set.now route }
{
    match set.routes.items().get(route as usize) {
        Some(found) => &found.id,
        None => none,
    }
}

/// The empty text. It takes no memory.
pub fn empty(alloc: Global) -> Text
    ensures { result ≡ [] }
{
    Text::of(String::new(alloc))
}

fn or_empty(alloc: Global, found: Option<&Text>) -> Result<Option<Text>, NoMemory>
    ensures { IfOk result (λ v. v ≡ short (unwrap_or (option_copied found.entry) [])) }
{
    match found {
        Some(text) => shortened(text),
        None => Ok(Some(empty(alloc))),
    }
}

fn shortened(text: &Text) -> Result<Option<Text>, NoMemory>
    ensures { IfOk result (λ v. v ≡ short text.now) }
{
    if text.bytes().len() > LIMIT {
        return Ok(None);
    }
    Ok(Some(text.copy()?))
}
