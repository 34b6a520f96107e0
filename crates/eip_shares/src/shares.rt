ghost use Rattle.std.specs.Prelude.{◌≡◌, ◌<◌, ◌≤◌, ◌+◌, ℕ, List, [], length, vec_len, vec_capacity, slice_index_or, IfOk};
ghost use Rattle.eip_shares.specs.Shares.{share};

use eip_text::NoMemory;
use std::alloc::Global;

/// So many empty lists, each with room for this number of items.
pub fn with_room<T: Drop>(
    alloc: Global,
    workers: usize,
    count: usize,
) -> Result<Vec<Vec<T>>, NoMemory>
    ensures workers { IfOk result (λ lists. vec_len lists ≡ workers) }
    ensures empty { IfOk result (λ lists. (k : ℕ) (d : _) → k < workers → vec_len (slice_index_or lists.items k d) ≡ 0) }
    ensures room { IfOk result (λ lists. (k : ℕ) (d : _) → k < workers → count ≤ vec_capacity (slice_index_or lists.items k d)) }
{
    let mut lists = Vec::new(alloc);
    lists.reserve(workers)?;
    for _ in 0..workers {
        let mut list = Vec::new(alloc);
        list.reserve(count)?;
        lists.push_reserved(list);
    }
    Ok(lists)
}

/// Deals the items out in turn: the item with index e, from 0, goes behind those of list e modulo the number of lists. The room of each
/// list stays as it is, and it takes no memory.
pub fn deal<T: Drop>(items: &mut Vec<T>, lists: &mut [Vec<T>])
    requires some { 0 < length lists.old }
    requires empty { (k : ℕ) (d : _) → k < length lists.old → vec_len (slice_index_or lists.old k d) ≡ 0 }
    requires room { (k : ℕ) (d : _) → k < length lists.old → vec_len items.old ≤ vec_capacity (slice_index_or lists.old k d) }
    ensures dealt { (k : ℕ) (d : _) → k < length lists.old → (slice_index_or lists.new k d).items ≡ share (length lists.old) k 0 items.old.items }
    ensures taken { vec_len items.new ≡ 0 }
    ensures room { vec_capacity items.new ≡ vec_capacity items.old }
{
    items.reverse();
    for index in 0..items.len() {
        let Some(item) = items.pop() else {
            unreachable!()
        };
        let turn = index % lists.len();
        lists[turn].push_reserved(item);
    }
}

/// Gathers what was dealt out: where the lists are the shares of some items, these are the items, in their order. The room of each list
/// stays as it is, and it takes no memory.
pub fn gather<T: Drop>(items: &mut Vec<T>, lists: &mut [Vec<T>], count: usize)
    requires some { 0 < length lists.old }
    requires empty { vec_len items.old ≡ 0 }
    requires room { count ≤ vec_capacity items.old }
    requires shares { (xs : List T) × (length xs ≡ count)
        × ((k : ℕ) (d : _) → k < length lists.old → (slice_index_or lists.old k d).items ≡ share (length lists.old) k 0 xs) }
    ensures gathered { (xs : List T) → length xs ≡ count
        → ((k : ℕ) (d : _) → k < length lists.old → (slice_index_or lists.old k d).items ≡ share (length lists.old) k 0 xs) → items.new.items ≡ xs }
    ensures taken { (k : ℕ) (d : _) → k < length lists.old → vec_len (slice_index_or lists.new k d) ≡ 0 }
    ensures room { vec_capacity items.new ≡ vec_capacity items.old }
{
    for left in 0..count {
        let turn = (count - 1 - left) % lists.len();
        let Some(item) = lists[turn].pop() else {
            unreachable!()
        };
        items.push_reserved(item);
    }
    items.reverse();
}
