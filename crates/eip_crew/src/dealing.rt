ghost use Rattle.std.specs.Prelude.{◌≡◌, ◌≤◌, ◌<◌, ℕ, List, length, vec_len, vec_capacity, slice_index_or};
ghost use Rattle.eip_shares.specs.Shares.{share};
ghost use Rattle.eip_crew.specs.Team.{items_at};

use eip_shares::{deal, gather};

/// Deals the items out in turn to lists that are empty and have room for all of them. It takes no memory.
pub(crate) fn deal_to<T: Drop>(items: &mut Vec<T>, lists: &mut Vec<Vec<T>>)
    requires some { 0 < vec_len lists.old }
    requires lists { (k : ℕ) (d : _) → k < vec_len lists.old
        → (vec_len (slice_index_or lists.old.items k d) ≡ 0) × (vec_len items.old ≤ vec_capacity (slice_index_or lists.old.items k d)) }
    ensures dealt { (k : ℕ) → k < vec_len lists.old → items_at lists.new.items k ≡ share (vec_len lists.old) k 0 items.old.items }
    ensures count { vec_len lists.new ≡ vec_len lists.old }
    ensures taken { vec_len items.new ≡ 0 }
    ensures room { vec_capacity items.new ≡ vec_capacity items.old }
{
    deal(items, lists.as_mut_slice());
}

/// Gathers so many items of which the lists are the shares, in their order. It takes no memory.
pub(crate) fn gather_from<T: Drop>(items: &mut Vec<T>, lists: &mut Vec<Vec<T>>, count: usize)
    requires some { 0 < vec_len lists.old }
    requires empty { vec_len items.old ≡ 0 }
    requires room { count ≤ vec_capacity items.old }
    requires shares { (xs : List T) × (length xs ≡ count)
        × ((k : ℕ) → k < vec_len lists.old → items_at lists.old.items k ≡ share (vec_len lists.old) k 0 xs) }
    ensures gathered { (xs : List T) → length xs ≡ count
        → ((k : ℕ) → k < vec_len lists.old → items_at lists.old.items k ≡ share (vec_len lists.old) k 0 xs) → items.new.items ≡ xs }
    ensures room { vec_capacity items.new ≡ vec_capacity items.old }
{
    gather(items, lists.as_mut_slice(), count);
}
