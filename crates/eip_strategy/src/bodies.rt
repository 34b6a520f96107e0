// How the body of the messages so far grows where it stands.
ghost use Rattle.std.specs.Prelude.{◌≡◌, ◌+◌, ◌<◌, ◌≤◌, ◌++◌, ◌∷◌, [], length, Ok, OnOk, OnErr, string_bytes, string_len, string_capacity};
ghost use Rattle.eip_text.specs.Numbers.{whole_of};
ghost use Rattle.eip_strategy.specs.Adding.{sum_of, in_decimal, next_body, IsReadyBody, KeepsMessage};
ghost use Rattle.eip_strategy.specs.Answers.{Says, bounded, fitting};
ghost use Rattle.eip_strategy.specs.Groups.{group_text, texts_read, IsGroup};

use crate::fault::StrategyFault;
use crate::growing::LIMIT;
use crate::steps::{quoted_word, sum_of};
use eip_exchange::Strategy;
use eip_resequence::lists::reopen;
use eip_text::{Text, signed_decimal};
use std::alloc::Global;

/// Takes one more body in. On a fault the body stays as it was.
pub fn grow(
    alloc: Global,
    strategy: &Strategy,
    body: &mut String,
    new: &Text,
) -> Result<(), StrategyFault>
    requires ready { IsReadyBody strategy.now (string_bytes body.old) }
    requires keeps { KeepsMessage strategy.now }
    ensures says { Says (λ _. string_bytes body.new) result
        (bounded 65536 (next_body strategy.now (string_bytes body.old) new.now)) }
    ensures err { OnErr result (string_bytes body.new ≡ string_bytes body.old) }
{
    match strategy {
        Strategy::Original => stay(body),
        Strategy::Joined(delimiter) => push_joined(body, delimiter, new),
        Strategy::Grouped => push_grouped(alloc, body, new),
        Strategy::Sum => replace_by_sum(alloc, body, new),
        Strategy::Latest | Strategy::Batch => unreachable!(),
    }
}

fn stay(body: &String) -> Result<(), StrategyFault>
    ensures { Says (λ _. string_bytes body.now) result (bounded 65536 (Ok (string_bytes body.now))) }
{
    if body.len() <= LIMIT {
        Ok(())
    } else {
        Err(StrategyFault::TooLong)
    }
}

fn push_joined(body: &mut String, delimiter: &Text, new: &Text) -> Result<(), StrategyFault>
    ensures says { Says (λ _. string_bytes body.new) result
        (bounded 65536 (Ok (string_bytes body.old ++ (delimiter.now ++ new.now)))) }
    ensures err { OnErr result (string_bytes body.new ≡ string_bytes body.old) }
{
    let delimiter = delimiter.as_str();
    let new = new.as_str();
    make_room(body, LIMIT, delimiter.len(), new.len())?;
    push(body, delimiter);
    push(body, new);
    Ok(())
}

/// Puts a text behind those of a JSON list, which isn't read again.
fn push_grouped(alloc: Global, list: &mut String, new: &Text) -> Result<(), StrategyFault>
    requires { IsGroup (string_bytes list.old) }
    ensures says { Says (λ _. string_bytes list.new) result
        (bounded 65536 (Ok (group_text (texts_read (string_bytes list.old) ++ new.now ∷ [])))) }
    ensures err { OnErr result (string_bytes list.new ≡ string_bytes list.old) }
{
    let word = quoted_word(alloc, new.as_str())?;
    make_room(list, LIMIT, 1, word.len())?;
    reopen(list);
    push(list, ",");
    push(list, word.as_str());
    push(list, "]");
    Ok(())
}

fn replace_by_sum(alloc: Global, body: &mut String, new: &Text) -> Result<(), StrategyFault>
    ensures says { Says (λ _. string_bytes body.new) result
        (bounded 65536 (in_decimal (sum_of (whole_of (string_bytes body.old)) (whole_of new.now)))) }
    ensures err { OnErr result (string_bytes body.new ≡ string_bytes body.old) }
{
    let sum = sum_text(alloc, body.as_bytes(), new)?;
    match sum.into_string(alloc) {
        Ok(sum) => {
            *body = sum;
            Ok(())
        }
        Err(_) => Err(StrategyFault::NoMemory),
    }
}

/// The sum of two bodies, in decimal.
pub fn sum_text(alloc: Global, old: &[u8], new: &Text) -> Result<Text, StrategyFault>
    ensures { Says (λ t. t) result
        (bounded 65536 (in_decimal (sum_of (whole_of old.now) (whole_of new.now)))) }
{
    let sum = sum_of(old, new.bytes())?;
    within_limit(signed_decimal(alloc, sum)?)
}

fn within_limit(text: Text) -> Result<Text, StrategyFault>
    ensures { Says (λ t. t) result (bounded 65536 (Ok text)) }
{
    if text.bytes().len() <= LIMIT {
        Ok(text)
    } else {
        Err(StrategyFault::TooLong)
    }
}

/// Makes room for two texts of so many bytes behind a body, where it has at most `limit` bytes with them.
pub fn make_room(
    body: &mut String,
    limit: usize,
    first: usize,
    second: usize,
) -> Result<(), StrategyFault>
    requires { limit < 18446744073709551615 }
    ensures same { string_bytes body.new ≡ string_bytes body.old }
    ensures len { string_len body.new ≡ string_len body.old }
    ensures room { OnOk result (string_len body.new + (first + second) ≤ string_capacity body.new) }
    ensures says { Says (λ _. string_len body.old + (first + second)) result (fitting limit (string_len body.old + (first + second))) }
{
    let more = first.saturating_add(second);
    if body.len().saturating_add(more) > limit {
        return Err(StrategyFault::TooLong);
    }
    body.reserve(more)?;
    Ok(())
}

/// Puts a text behind a body that has room for it.
pub fn push(body: &mut String, text: &str)
    requires { string_len body.old + length text.now ≤ string_capacity body.old }
    ensures bytes { string_bytes body.new ≡ string_bytes body.old ++ text.now }
    ensures len { string_len body.new ≡ string_len body.old + length text.now }
    ensures room { string_capacity body.old ≤ string_capacity body.new }
{
    match body.push_str(text) {
        Ok(()) => {}
        Err(_) => unreachable!(),
    }
}
