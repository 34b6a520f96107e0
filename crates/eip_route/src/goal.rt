ghost use Rattle.std.specs.Prelude.{◌≡◌, bytes_eq};
ghost use Rattle.eip_route.specs.Goals as spec;

use crate::fault::is_same_consumer;
use crate::route::{Route, RouteSet};
use eip_text::Text;
use eip_text::cuts::behind;
use eip_uri::Uri;

/// Where the messages of a URI go (Camel manual, *URIs*).
#[derive(Clone, Copy, Debug, PartialEq, Eq)]
pub enum Goal {
    /// Into the route of this index, from 0, at once.
    Direct(u32),
    /// Into the queue of the route of this index, from 0.
    Queue(u32),
    /// Out, by a lane that is handed in.
    Lane,
    /// Into the log.
    Log,
    /// Nowhere: no route consumes it, or its lane isn't handed in, or nothing can be sent to it.
    NoConsumer,
}

impl RouteSet {
    /// Where the messages of a URI go: a `direct` or `seda` name to the first route that consumes it, `file`, `line`
    /// and `lane` targets out by the lanes `file`, `line` and `lane:NAME`, where they are handed in. A route's index
    /// behind 4,294,967,294 is given as 4,294,967,295. It takes no memory.
    #[tactic(auto, unfolding(crate::specs::Goals::goal_of))]
    pub fn resolve(&self, uri: &Uri) -> Goal
        ensures { result ≡ spec.goal_of self.now uri.now }
    {
        let lanes = self.names.lanes.items();
        match uri {
            Uri::Direct(_) => match consumer(uri, self.routes.items()) {
                Some(route) => Goal::Direct(route),
                None => Goal::NoConsumer,
            },
            Uri::Seda { .. } => match consumer(uri, self.routes.items()) {
                Some(route) => Goal::Queue(route),
                None => Goal::NoConsumer,
            },
            Uri::File { .. } => lane(has_lane(lanes, "file")),
            Uri::Line { .. } => lane(has_lane(lanes, "line")),
            Uri::Lane(name) => lane(has_lane_named(lanes, name)),
            Uri::Log(_) => Goal::Log,
            Uri::StreamIn | Uri::Listen(_) | Uri::Load(_) => Goal::NoConsumer,
        }
    }
}

fn lane(handed_in: bool) -> Goal
    ensures { result ≡ spec.lane handed_in }
{
    if handed_in {
        Goal::Lane
    } else {
        Goal::NoConsumer
    }
}

/// The first route that has this consumer.
fn consumer(uri: &Uri, routes: &[Route]) -> Option<u32>
    ensures { result ≡ spec.consumer uri.now 0 routes.now }
{
    let mut index: u32 = 0;
    for route in routes {
        if is_same_consumer(&route.from, uri) {
            return Some(index);
        }
        index = index.saturating_add(1);
    }
    None
}

fn has_lane(lanes: &[Text], wanted: &str) -> bool
    ensures { result ≡ spec.is_among wanted.now lanes.now }
{
    for lane in lanes {
        if lane.as_str() == wanted {
            return true;
        }
    }
    false
}

/// Whether the lane `lane:NAME` is there.
fn has_lane_named(lanes: &[Text], name: &Text) -> bool
    ensures { result ≡ spec.is_among (spec.lane_name name.now) lanes.now }
{
    for lane in lanes {
        if is_lane_of(lane.as_str(), name.as_str()) {
            return true;
        }
    }
    false
}

#[tactic(auto, using(crate::proofs::Lanes::behind_same, crate::proofs::Lanes::behind_none))]
fn is_lane_of(lane: &str, name: &str) -> bool
    ensures { result ≡ bytes_eq lane.now (spec.lane_name name.now) }
{
    match behind(lane, "lane:") {
        Some(rest) => rest == name,
        None => false,
    }
}
