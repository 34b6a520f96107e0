ghost use Rattle.std.specs.Prelude.{◌≡◌, ◌<◌, ◌≤◌, ℕ, length, vec_len, vec_capacity, slice_index_or};

use eip_shares::{deal, gather, with_room};
use std::test::Fail;

/// Deals the items out, says whether the lists are then the wanted ones, and gathers the items again.
fn deals(items: &mut Vec<u64>, lists: &mut [Vec<u64>], wanted: &[Vec<u64>]) -> bool
    requires some { 0 < length lists.old }
    requires empty { (k : ℕ) (d : _) → k < length lists.old → vec_len (slice_index_or lists.old k d) ≡ 0 }
    requires room { (k : ℕ) (d : _) → k < length lists.old → vec_len items.old ≤ vec_capacity (slice_index_or lists.old k d) }
    ensures { items.new.items ≡ items.old.items }
{
    let count = items.len();
    deal(items, lists);
    let is_dealt = *lists == *wanted;
    gather(items, lists, count);
    is_dealt
}

#[test]
fn seven_items_to_three(rt: HostRuntime) -> Result<(), Fail> {
    let alloc = rt.alloc();
    let mut items = vec![in alloc; 10, 11, 12, 13, 14, 15, 16]?;
    let first = vec![in alloc; 10, 13, 16]?;
    let second = vec![in alloc; 11, 14]?;
    let third = vec![in alloc; 12, 15]?;
    let wanted = vec![in alloc; first, second, third]?;
    let mut lists = with_room(alloc, 3, 7)?;
    assert!(rt; deals(&mut items, lists.as_mut_slice(), wanted.as_slice()));
    assert!(rt; *items.as_slice() == *[10, 11, 12, 13, 14, 15, 16].as_slice());
    Ok(())
}

#[test]
fn one_list_gets_all(rt: HostRuntime) -> Result<(), Fail> {
    let alloc = rt.alloc();
    let mut items = vec![in alloc; 10, 11, 12]?;
    let all = vec![in alloc; 10, 11, 12]?;
    let wanted = vec![in alloc; all]?;
    let mut lists = with_room(alloc, 1, 3)?;
    assert!(rt; deals(&mut items, lists.as_mut_slice(), wanted.as_slice()));
    assert!(rt; *items.as_slice() == *[10, 11, 12].as_slice());
    Ok(())
}

#[test]
fn lists_without_an_item(rt: HostRuntime) -> Result<(), Fail> {
    let alloc = rt.alloc();
    let mut items = vec![in alloc; 10, 11]?;
    let first = vec![in alloc; 10]?;
    let second = vec![in alloc; 11]?;
    let wanted = vec![in alloc; first, second, Vec::new(alloc), Vec::new(alloc)]?;
    let mut lists = with_room(alloc, 4, 2)?;
    assert!(rt; deals(&mut items, lists.as_mut_slice(), wanted.as_slice()));
    assert!(rt; *items.as_slice() == *[10, 11].as_slice());
    Ok(())
}
