use crate::step::Step;
use eip_exchange::{Clause, Policy};
use eip_text::{Series, Text};
use eip_uri::Uri;

/// Steps that run in order.
pub struct Block {
    pub steps: Series<Step>,
}

impl Drop for Block {
    fn drop(self) {
        let Block { steps } = self;
        drop(steps);
    }
}

/// What is handed in from outside, by name: what a route may speak of.
#[derive(Drop)]
pub struct Names {
    pub lanes: Series<Text>,
    pub inlets: Series<Text>,
    pub processors: Series<Text>,
    pub predicates: Series<Text>,
}

/// A route: what it is called, where its messages come from, and the number of its block, from 0.
#[derive(Drop)]
pub struct Route {
    pub id: Text,
    pub from: Uri,
    pub block: u32,
}

/// What is done about faults that no clause takes (Camel manual, *Error handler*): with an endpoint, it is a dead
/// letter channel.
pub struct Handler {
    pub dead: Option<Uri>,
    pub policy: Policy,
}

impl Drop for Handler {
    fn drop(self) {
        let Handler { dead, policy } = self;
        drop(dead);
        drop(policy);
    }
}

/// The routes of a file with all their blocks, and what holds for the whole file.
pub struct RouteSet {
    pub names: Names,
    pub routes: Series<Route>,
    pub blocks: Series<Block>,
    pub handler: Handler,
    pub clauses: Series<Clause>,
}

impl Drop for RouteSet {
    fn drop(self) {
        let RouteSet {
            names,
            routes,
            blocks,
            handler,
            clauses,
        } = self;
        drop(names);
        drop(routes);
        drop(blocks);
        drop(handler);
        drop(clauses);
    }
}
