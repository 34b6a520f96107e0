ghost use Rattle.std.specs.Prelude.{◌≡◌, IfOk, map};
ghost use Rattle.std.specs.Option.{option_copied};
ghost use Rattle.std.specs.Ordering.{int_cmp, is_lt};
ghost use Rattle.eip_text.specs.Numbers.{whole_of};
ghost use Rattle.eip_resequence.specs.Order.{key_text, rank_of, rank_cmp, key_cmp, comes_before, goes_before, in_order, ordered_messages};

use crate::packed::Packed;
use eip_text::{NoMemory, Text, read_i64};
use std::alloc::Global;
use std::cmp::Ordering;

/// Whether a message with the key `a` goes before one with the key `b`: keys that spell a whole number of 64 bits come
/// first, by their number; then the others, by their bytes. An absent key is the empty text. Of equal keys neither goes
/// before the other. It takes no memory.
#[tactic(auto, unfolding(crate::specs::Order::comes_before))]
pub fn before(a: Option<&Text>, b: Option<&Text>) -> bool
    ensures { result ≡ comes_before (option_copied a.entry) (option_copied b.entry) }
{
    compared(a, b).is_lt()
}

/// How two keys stand to each other.
fn compared(a: Option<&Text>, b: Option<&Text>) -> Ordering
    ensures { result ≡ key_cmp (option_copied a.entry) (option_copied b.entry) }
{
    compared_bytes(bytes_of(a), bytes_of(b))
}

fn compared_bytes(a: &[u8], b: &[u8]) -> Ordering
    ensures { result ≡ rank_cmp (rank_of a.now) (rank_of b.now) }
{
    match (number_of(a), number_of(b)) {
        (Some(x), Some(y)) => compared_numbers(x, y),
        (Some(_), None) => Ordering::Less,
        (None, Some(_)) => Ordering::Greater,
        (None, None) => a.cmp(b),
    }
}

fn compared_numbers(x: i64, y: i64) -> Ordering
    ensures { result ≡ int_cmp x y }
{
    x.cmp(&y)
}

fn number_of(bytes: &[u8]) -> Option<i64>
    ensures { result ≡ whole_of bytes.now }
{
    read_i64(bytes)
}

fn bytes_of(key: Option<&Text>) -> &[u8]
    ensures { result.now ≡ key_text (option_copied key.entry) }
{
    match key {
        Some(text) => text.bytes(),
        None => &[],
    }
}

/// The messages in the order of their keys, as `before` says; those of equal keys stay in the order in which they stood.
#[tactic(auto, unfolding(crate::specs::Order::ordered_messages))]
pub fn ordered(alloc: Global, list: Vec<(Option<Text>, Packed)>) -> Result<Vec<Packed>, NoMemory>
    ensures { IfOk result (λ v. v.items ≡ ordered_messages list.items) }
{
    messages_of(alloc, sorted(list)?)
}

fn sorted(mut list: Vec<(Option<Text>, Packed)>) -> Result<Vec<(Option<Text>, Packed)>, NoMemory>
    ensures { IfOk result (λ v. v.items ≡ in_order goes_before list.items) }
{
    list.sort_by(|a, b| compared_arrivals(a, b))?;
    Ok(list)
}

#[tactic(auto, unfolding(crate::specs::Order::comes_before))]
fn compared_arrivals(a: &(Option<Text>, Packed), b: &(Option<Text>, Packed)) -> Ordering
    ensures { is_lt result ≡ goes_before a.now b.now }
{
    compared(a.0.as_ref(), b.0.as_ref())
}

fn messages_of(alloc: Global, list: Vec<(Option<Text>, Packed)>) -> Result<Vec<Packed>, NoMemory>
    ensures { IfOk result (λ v. v.items ≡ map (λ a. a.1) list.items) }
{
    Ok(list.into_iter().map(|arrival| arrival.1).collect(alloc)?)
}
