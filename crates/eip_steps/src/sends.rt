ghost use Rattle.std.specs.Prelude.{◌≡◌, IfOk, not, slice_get};
ghost use Rattle.std.specs.List.{list_any};
ghost use Rattle.eip_exchange.specs.declared.message.Message.{Message as AMessage};
ghost use Rattle.eip_meaning.specs.Sends as spec;
ghost use Rattle.eip_progress.specs.FirstTry.{asks, unless_tried, sent_tried, offer_tried, goal_tried, to_tried};
ghost use Rattle.eip_parts.specs.Effects.{tried_of};

use eip_exchange::{Fault, Message};
use eip_frames::{Request, Target};
use eip_meaning::Context;
use eip_parts::Effect;
use eip_parts::faults::{bare_fault, named_fault, told_fault};
use eip_progress::Progress;
use eip_route::{Goal, RouteSet};
use eip_text::cuts::holds;
use eip_text::{NoMemory, Text, decimal};
use eip_uri::Uri;
use std::alloc::Global;

/// How many direct calls may be open at one time.
const CALLS: u32 = 32;

/// How many queues a lineage may pass.
const HOPS: u32 = 100;

/// One try of a send (Camel manual, *To*).
pub fn try_to(
    alloc: Global,
    set: &RouteSet,
    context: Context,
    uri: &Uri,
    message: &Message,
) -> Result<Effect, NoMemory>
    ensures { IfOk result (λ e. tried_of e message.now ≡ to_tried set.now context uri.now message.now) }
{
    match limit_fault(alloc, context, uri)? {
        Some(fault) => Effect::faulting(alloc, fault, false),
        None => try_goal(alloc, set, context, uri, set.resolve(uri), message),
    }
}

/// The only request of a step.
pub fn asks(alloc: Global, request: Request) -> Result<Effect, NoMemory>
    ensures { IfOk result (λ e. (m : AMessage) → tried_of e m ≡ asks request m) }
{
    Effect::asking(alloc, Progress::First, request, 0)
}

fn try_goal(
    alloc: Global,
    set: &RouteSet,
    context: Context,
    uri: &Uri,
    goal: Goal,
    message: &Message,
) -> Result<Effect, NoMemory>
    ensures { IfOk result (λ e. tried_of e message.now ≡ goal_tried set.now context uri.now goal message.now) }
{
    match goal {
        Goal::Direct(route) => asks(alloc, Request::Call { route }),
        Goal::Queue(route) => offer(alloc, set, uri, route, message),
        Goal::Lane => send(alloc, context, uri, message),
        Goal::Log => log_body(alloc, uri, message),
        Goal::NoConsumer => {
            let fault = no_consumer(alloc, uri)?;
            Effect::faulting(alloc, fault, false)
        }
    }
}

/// A copy to the queue of a route, where it has one.
fn offer(
    alloc: Global,
    set: &RouteSet,
    uri: &Uri,
    route: u32,
    message: &Message,
) -> Result<Effect, NoMemory>
    ensures { IfOk result (λ e. tried_of e message.now ≡ offer_tried set.now uri.now route message.now) }
{
    if !is_queue(set, route) {
        let fault = no_consumer(alloc, uri)?;
        return Effect::faulting(alloc, fault, false);
    }
    let request = Request::Offer {
        queue: route,
        discard: discards(uri),
        message: message.copy(alloc)?,
    };
    asks(alloc, request)
}

fn is_queue(set: &RouteSet, route: u32) -> bool
    ensures { result ≡ spec.is_queue set.now route }
{
    match set.routes.items().get(route as usize) {
        Some(found) => is_queue_uri(&found.from),
        None => false,
    }
}

fn is_queue_uri(from: &Uri) -> bool
    ensures { result ≡ spec.is_queue_uri from.now }
{
    match from {
        Uri::Seda { .. } => true,
        _ => false,
    }
}

/// Out by a lane, where the endpoint can take the message.
fn send(alloc: Global, context: Context, uri: &Uri, message: &Message) -> Result<Effect, NoMemory>
    ensures { IfOk result (λ e. tried_of e message.now ≡ unless_tried (spec.form_fault context uri.now message.now) message.now (sent_tried (spec.target_of context uri.now message.now) message.now)) }
{
    match form_fault(alloc, context, uri, message)? {
        Some(fault) => Effect::faulting(alloc, fault, false),
        None => {
            let target = target_of(alloc, context, uri, message)?;
            send_to(alloc, target, message)
        }
    }
}

fn send_to(alloc: Global, target: Option<Target>, message: &Message) -> Result<Effect, NoMemory>
    ensures { IfOk result (λ e. tried_of e message.now ≡ sent_tried target message.now) }
{
    match target {
        Some(target) => {
            let request = Request::Send {
                target,
                message: message.copy(alloc)?,
            };
            asks(alloc, request)
        }
        None => Ok(Effect::Goes),
    }
}

fn log_body(alloc: Global, uri: &Uri, message: &Message) -> Result<Effect, NoMemory>
    ensures { IfOk result (λ e. tried_of e message.now ≡ asks (Request.Log (spec.log_of uri.now) message.now.body) message.now) }
{
    let request = Request::Log {
        name: log_of(alloc, uri)?,
        text: message.body.copy()?,
    };
    asks(alloc, request)
}

/// The name of a log's endpoint.
fn log_of(alloc: Global, uri: &Uri) -> Result<Text, NoMemory>
    ensures { IfOk result (λ t. t ≡ spec.log_of uri.now) }
{
    match uri {
        Uri::Log(name) => name.copy(),
        _ => Text::of_str(alloc, ""),
    }
}

/// Whether a full queue drops the copy (Camel manual, *Seda*, `discardWhenFull`).
fn discards(uri: &Uri) -> bool
    ensures { result ≡ spec.discards uri.now }
{
    match uri {
        Uri::Seda { discard, .. } => *discard,
        _ => false,
    }
}

// ---- faults that are found before anything is asked

fn limit_fault(alloc: Global, context: Context, uri: &Uri) -> Result<Option<Fault>, NoMemory>
    ensures { IfOk result (λ f. f ≡ spec.limit_fault context uri.now) }
{
    match uri {
        Uri::Direct(name) => too_deep(alloc, context.depth, name),
        Uri::Seda { name, .. } => too_many_hops(alloc, context.hops, name),
        _ => Ok(None),
    }
}

fn too_deep(alloc: Global, depth: u32, name: &Text) -> Result<Option<Fault>, NoMemory>
    ensures { IfOk result (λ f. f ≡ spec.too_deep depth name.now) }
{
    if depth < CALLS {
        return Ok(None);
    }
    Ok(Some(named_fault(alloc, "TooDeep", "direct:", name)?))
}

fn too_many_hops(alloc: Global, hops: u32, name: &Text) -> Result<Option<Fault>, NoMemory>
    ensures { IfOk result (λ f. f ≡ spec.too_many_hops hops name.now) }
{
    if hops < HOPS {
        return Ok(None);
    }
    Ok(Some(named_fault(alloc, "TooManyHops", "seda:", name)?))
}

fn no_consumer(alloc: Global, uri: &Uri) -> Result<Fault, NoMemory>
    ensures { IfOk result (λ f. f ≡ spec.no_consumer uri.now) }
{
    told_fault(alloc, "NoConsumer", uri.print(alloc)?)
}

/// A message that an endpoint can't take.
fn form_fault(
    alloc: Global,
    context: Context,
    uri: &Uri,
    message: &Message,
) -> Result<Option<Fault>, NoMemory>
    ensures { IfOk result (λ f. f ≡ spec.form_fault context uri.now message.now) }
{
    match uri {
        Uri::File { .. } => bad_name(alloc, file_name(alloc, context, message)?),
        Uri::Line { .. } => not_one_line(alloc, &message.body),
        _ => Ok(None),
    }
}

fn bad_name(alloc: Global, name: Text) -> Result<Option<Fault>, NoMemory>
    ensures { IfOk result (λ f. f ≡ spec.bad_name name) }
{
    if is_file_name(&name) {
        return Ok(None);
    }
    Ok(Some(told_fault(alloc, "BadFileName", name)?))
}

fn not_one_line(alloc: Global, body: &Text) -> Result<Option<Fault>, NoMemory>
    ensures { IfOk result (λ f. f ≡ spec.not_one_line body.now) }
{
    if !holds(body.as_str(), '\n') {
        return Ok(None);
    }
    Ok(Some(bare_fault(alloc, "NotOneLine")?))
}

/// The name of the file that a message is written to: its header's, else the exchange's (Camel manual, *File*).
fn file_name(alloc: Global, context: Context, message: &Message) -> Result<Text, NoMemory>
    ensures { IfOk result (λ t. t ≡ spec.file_name context message.now) }
{
    match message.headers.get("CamelFileName".as_bytes()) {
        Some(name) => name.copy(),
        None => {
            let mut name = String::from_str(alloc, "exchange-")?;
            name.push_str(decimal(alloc, context.number)?.as_str())?;
            Ok(Text::of(name))
        }
    }
}

/// Whether the text is a file's name: 1 to 255 bytes, that aren't `.` or `..`, and have no `/` and no NUL.
fn is_file_name(name: &Text) -> bool
    ensures { result ≡ spec.is_file_name name.now }
{
    let bytes = name.bytes();
    let text = name.as_str();
    1 <= bytes.len()
        && bytes.len() <= 255
        && text != "."
        && text != ".."
        && !holds(text, '/')
        && !holds(text, '\0')
}

/// What a lane is asked to send to.
fn target_of(
    alloc: Global,
    context: Context,
    uri: &Uri,
    message: &Message,
) -> Result<Option<Target>, NoMemory>
    ensures { IfOk result (λ t. t ≡ spec.target_of context uri.now message.now) }
{
    match uri {
        Uri::File { folder, exist, .. } => Ok(Some(Target::File {
            folder: folder.copy()?,
            name: file_name(alloc, context, message)?,
            exist: *exist,
        })),
        Uri::Line { host, port } => Ok(Some(Target::Line {
            host: host.copy()?,
            port: *port,
        })),
        Uri::Lane(name) => Ok(Some(Target::Lane(name.copy()?))),
        _ => Ok(None),
    }
}
