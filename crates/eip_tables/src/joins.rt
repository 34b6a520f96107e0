ghost use Rattle.std.specs.Prelude.{◌≡◌};
ghost use Rattle.eip_tables.specs.Joins.{MayTell, Tells, Wakes, Closes};
ghost use Rattle.eip_tables.specs.Moves.{ended_with, last_message, finished_asked};

use crate::live::Live;
use crate::row::{Born, Row, finish_alone, finish_told};
use eip_exchange::{End, Ended};
use eip_join::Joins;
use eip_text::Boxed;
use std::alloc::Global;

/// Where the exchange with this number is a part, the join of its parent is told how it ended. The parent, where this was the last of
/// its parts. It takes no memory.
pub fn tell(joins: &mut Joins, born: Born, number: u64, told: Option<Ended>) -> Option<u64>
    requires { MayTell born number told joins.old }
    ensures tells { Tells born number told joins.old joins.new }
    ensures woken { Wakes born joins.new result }
{
    let Born::Part { parent, .. } = born else {
        drop(told);
        return None;
    };
    let Some(ended) = told else { unreachable!() };
    joins.part_ended(number, ended);
    if joins.ready(parent) {
        Some(parent)
    } else {
        None
    }
}

/// An exchange ends by the end that it asks for, and the join of its parent is told, where this end is for one. The parent, where this
/// was the last of its parts.
pub fn finish(
    row: &mut Row,
    alloc: Global,
    vacant: &mut Option<Boxed<Live>>,
    joins: &mut Joins,
    number: u64,
    told: Option<End>,
) -> Option<u64>
    requires { MayTell row.old.born number (ended_with told (last_message row.old.request)) joins.old }
    ensures row { row.new ≡ finished_asked row.old }
    ensures tells { Tells row.old.born number (ended_with told (last_message row.old.request)) joins.old joins.new }
    ensures woken { Wakes row.old.born joins.new result }
{
    let born = row.born();
    match told {
        Some(end) => {
            let ended = finish_told(row, alloc, vacant, end);
            tell(joins, born, number, ended)
        }
        None => {
            finish_alone(row, alloc, vacant);
            tell(joins, born, number, None)
        }
    }
}

/// The join of an exchange that ends is closed, where it has one and all its parts have ended. It takes no memory.
pub fn close(joins: &mut Joins, number: u64)
    ensures { Closes number joins.old joins.new }
{
    if joins.ready(number) {
        drop(joins.take(number));
    }
}
