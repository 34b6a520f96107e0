use eip_table_runs::joins::{first_wrong, one_join, taken, wrong_pair};
use eip_text::NoMemory;
use std::alloc::Global;
use std::test::*;

#[test]
fn parts_are_handed_out_by_index_whatever_their_order_of_ending(
    rt: HostRuntime,
) -> Result<(), Fail> {
    assert_eq!(rt; first_wrong(rt.alloc(), 4, 3)?, 3);
    assert_eq!(rt; first_wrong(rt.alloc(), 2, 1)?, 1);
    Ok(())
}

#[test]
fn many_parts_are_handed_out_by_index(rt: HostRuntime) -> Result<(), Fail> {
    assert_eq!(rt; first_wrong(rt.alloc(), 2, 20_000)?, 20_000);
    Ok(())
}

#[test]
fn many_joins_end_and_are_taken_in_another_order(rt: HostRuntime) -> Result<(), Fail> {
    assert_eq!(rt; wrong_pair(rt.alloc(), 20_000)?, None);
    Ok(())
}

/// Whether a join is ready, taken and gone: one without parts, and one whose part hasn't ended.
fn ready_at_once(alloc: Global, count: u32) -> Result<(bool, usize, bool), NoMemory> {
    let mut joins = one_join(alloc, 2, count)?;
    let before = joins.ready(1);
    let ends = match taken(&mut joins, 1) {
        Some(ends) => ends.len(),
        None => 1,
    };
    Ok((before, ends, joins.ready(1)))
}

#[test]
fn a_join_is_ready_where_no_part_is_left(rt: HostRuntime) -> Result<(), Fail> {
    assert_eq!(rt; ready_at_once(rt.alloc(), 0)?, (true, 0, false));
    assert_eq!(rt; ready_at_once(rt.alloc(), 1)?, (false, 1, false));
    Ok(())
}
