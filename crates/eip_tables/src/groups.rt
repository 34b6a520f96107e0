ghost use Rattle.std.specs.Prelude.{◌≡◌, ◌+◌, ◌≤◌, ◌++◌, length, vec_len, vec_capacity};
ghost use Rattle.eip_tables.specs.Groups.{closed_birth, group_row, group_rows};

use crate::around::route_around;
use crate::live::Live;
use crate::row::{Newborn, Row, put_newborn};
use eip_aggregator::Closed;
use eip_exchange::{Birth, Care, Origin, Work};
use eip_route::RouteSet;
use eip_text::Boxed;
use std::collections::VecDeque;

/// The exchange of a closed group, as the exchange with this number, but for what its message says of its closing.
fn birth_of(set: &RouteSet, number: u64, closed: Closed) -> Birth
    requires { length set.now.routes ≤ 256 }
    ensures { result ≡ closed_birth set.now number closed }
{
    let route = route_around(set, closed.block);
    Birth {
        number,
        origin: Origin::Group {
            group: closed.group,
        },
        work: Work::Block(closed.block),
        hops: closed.hops,
        depth: 0,
        route: route as u32,
        care: Care::Full,
        message: closed.message,
    }
}

/// It, as its row will show it.
pub fn newborn_of(set: &RouteSet, number: u64, closed: Closed) -> Newborn
    requires { length set.now.routes ≤ 256 }
    ensures { result ≡ group_row set.now number closed }
{
    let group = closed.group;
    let cause = closed.cause;
    Newborn::grouped(group, cause, birth_of(set, number, closed))
}

/// The rows of the exchanges of groups that close together go behind the others, into room that was reserved. The first one has the
/// number behind the others.
pub fn put_groups(
    rows: &mut Vec<Row>,
    rooms: &mut Vec<Boxed<Live>>,
    set: &RouteSet,
    closed: Vec<Closed>,
)
    requires few { length set.now.routes ≤ 256 }
    requires room { vec_len rows.old + length closed.items ≤ vec_capacity rows.old }
    requires rooms { length closed.items ≤ length rooms.old.items }
    ensures items { rows.new.items ≡ rows.old.items ++ group_rows set.now (length rows.old.items + 1) closed.items }
    ensures room { vec_capacity rows.old ≤ vec_capacity rows.new }
    ensures rooms { length rooms.old.items ≤ length rooms.new.items + length closed.items }
{
    let mut rest = VecDeque::from_vec(closed);
    while let Some(group) = rest.pop_front() {
        let number = rows.len() as u64 + 1;
        put_newborn(rows, rooms, newborn_of(set, number, group));
    }
}
