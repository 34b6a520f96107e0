ghost use Rattle.std.specs.Prelude.{◌≡◌, ◌+◌, ◌<◌, ◌≤◌, ◌-◌, ◌++◌, ◌∷◌, [], IfOk, length, vec_len, vec_capacity};
ghost use Rattle.eip_tables.specs.Moves.{starving, part_row};
ghost use Rattle.eip_tables.specs.Parts.{seed_birth, seed_rows, parent_of, starving_faults};

use crate::live::Live;
use crate::row::{Newborn, Row, put_newborn};
use eip_exchange::{Birth, Fault, Origin};
use eip_frames::{At, Seed};
use eip_text::{Boxed, NoMemory, Text};
use std::alloc::Global;
use std::collections::VecDeque;

/// Whose parts are born: its number, how many queues its lineage has passed, and where it asks for them.
#[derive(Clone, Copy, Debug, PartialEq, Eq)]
pub struct Parent {
    pub number: u64,
    pub hops: u32,
    pub at: At,
}

/// The exchange with this number and row, as the parent of the parts that it asks for.
pub fn parent_of(number: u64, row: &Row) -> Parent
    ensures { result ≡ parent_of number row.now }
{
    Parent {
        number,
        hops: row.hops(),
        at: row.at(),
    }
}

/// What an exchange that is starved fails with.
fn starving(alloc: Global) -> Result<Fault, NoMemory>
    ensures { IfOk result (λ f. f ≡ starving) }
{
    let kind = Text::of_str(alloc, "OutOfMemory")?;
    let text = Text::of_str(alloc, "")?;
    Ok(Fault { kind, text })
}

/// A fault for each of so many parts, for the case that it is starved.
pub fn starving_faults(alloc: Global, count: usize) -> Result<Vec<Fault>, NoMemory>
    ensures { IfOk result (λ v. v.items ≡ starving_faults count) }
{
    let mut faults = Vec::with_capacity(alloc, count)?;
    for _index in 0..count {
        faults.push(starving(alloc)?)?;
    }
    Ok(faults)
}

/// The part with this number and index that a seed makes.
fn birth_of(parent: Parent, number: u64, index: u32, seed: Seed) -> Birth
    ensures { result ≡ seed_birth parent number index seed }
{
    let Seed {
        work,
        care,
        message,
    } = seed;
    Birth {
        number,
        origin: Origin::Part {
            parent: parent.number,
            index,
        },
        work,
        hops: parent.hops,
        depth: parent.at.depth,
        route: parent.at.route,
        care,
        message,
    }
}

/// The rows of the parts that these seeds make go behind the others, into room that was reserved, each with a fault for the case that
/// it is starved. The first one has the number behind the others, and the index at which the parent asks for it.
pub fn put_parts(
    rows: &mut Vec<Row>,
    rooms: &mut Vec<Boxed<Live>>,
    parent: Parent,
    seeds: Vec<Seed>,
    mut faults: Vec<Fault>,
)
    requires room { vec_len rows.old + length seeds.items ≤ vec_capacity rows.old }
    requires rooms { length seeds.items ≤ length rooms.old.items }
    requires indexes { parent.at.index + length seeds.items ≤ 4294967296 }
    requires faults { faults.items ≡ starving_faults (length seeds.items) }
    ensures items { rows.new.items ≡ rows.old.items ++ seed_rows parent (length rows.old.items + 1) parent.at.index seeds.items }
    ensures room { vec_capacity rows.old ≤ vec_capacity rows.new }
    ensures rooms { length rooms.old.items ≤ length rooms.new.items + length seeds.items }
{
    let mut rest = VecDeque::from_vec(seeds);
    let mut done: usize = 0;
    while let Some(seed) = rest.pop_front() {
        let Some(fault) = faults.pop() else {
            unreachable!()
        };
        let number = rows.len() as u64 + 1;
        let index = parent.at.index + done as u32;
        let birth = birth_of(parent, number, index, seed);
        let part = Newborn::part(parent.number, index, birth, fault);
        put_newborn(rows, rooms, part);
        done += 1;
    }
}
