use eip_ledger::Entry;
use eip_route::RouteSet;
use std::collections::LinkedList;

/// What no turn changes: the set, the limits, and the entries that there were when the run began to be shared, the newest first. No
/// value of it is ever built: contracts alone speak of it.
pub struct Beginning {
    pub set: RouteSet,
    pub workers: u32,
    pub turns: u32,
    pub past: LinkedList<Entry>,
}
