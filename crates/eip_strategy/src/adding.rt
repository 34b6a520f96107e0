ghost use Rattle.std.specs.Prelude.{◌≡◌, ◌≢◌, ◌↔◌, ◌<◌, ◌-◌, [], length, Some, Ok, IfOk, OnOk, OnErr, IsNone, string_bytes};
ghost use Rattle.std.specs.Option.{option_map};
ghost use Rattle.eip_exchange.specs.declared.setting.Strategy.TheVariants.{Sum};
ghost use Rattle.eip_resequence.specs.Packing.{IsPacked};
ghost use Rattle.eip_text.specs.Numbers.{whole_of};
ghost use Rattle.eip_strategy.specs.Adding.{added, sum_of, in_decimal, next_body, with_body, IsReadyBody, IsReady, KeepsMessage};
ghost use Rattle.eip_strategy.specs.Answers.{Says};
ghost use Rattle.eip_strategy.specs.Batches.{added_packed};
ghost use Rattle.eip_strategy.specs.Folding.{folded};
ghost use Rattle.eip_strategy.specs.Growing.{grown};
ghost use Rattle.eip_strategy.specs.Undoing.{Undoes, undo_of};

use crate::batch::push_message;
use crate::bodies::{grow, sum_text};
use crate::fault::StrategyFault;
use crate::growing::{Growing, LIMIT};
use crate::steps::step;
use crate::undo::Undo;
use eip_exchange::{Message, Strategy};
use eip_text::{NoMemory, Text};
use std::alloc::Global;
use std::mem::replace;

/// The messages so far, `old`, in one with a new message (Camel manual, *AggregationStrategy*); without `old` the new
/// message is the first.
///
/// The headers and properties are those of `old`, and with `Latest`, or without `old`, those of `new`. The body is with
/// `Original` that of `old`, with `Latest` that of `new`, with `Joined` both with the delimiter between them, with
/// `Grouped` the compact JSON list (RFC 8259) of the bodies as texts, and with `Sum` the sum of both as whole numbers, in
/// decimal. The first body is that of `new`, with `Grouped` in a list of its own, with `Sum` its number in decimal.
///
/// With `Batch` (Camel manual, *Resequence EIP*, batch resequencing) the body is what `eip_resequence::pack` gives of the
/// messages with their headers and properties; the headers and properties of `old` stay, and without `old` there are none.
///
/// `NotNumber` exactly where a body that is summed is no whole number of 64 bits, `SumTooLarge` exactly where their sum
/// isn't one, `TooLong` exactly where the body of the result has more than 65,536 bytes, with `Batch` more than
/// 16,777,216. `old` is dropped then.
///
/// With `Grouped` the body of `old` must be the compact JSON list of one or more texts, and with `Batch` the packed text of
/// a list, as it is where this call made it; it isn't read again.
pub fn add(
    alloc: Global,
    strategy: &Strategy,
    old: Option<Message>,
    new: &Message,
) -> Result<Message, StrategyFault>
    requires { IsReady strategy.now old }
    ensures says { Says (λ m. m) result (added strategy.now old new.now) }
    ensures ready { IfOk result (λ m. IsReadyBody strategy.now m.body) }
{
    let so_far = growing_of(alloc, old)?;
    Ok(step(alloc, strategy, so_far, new)?.into_message())
}

/// Takes a new message in with the messages so far, as `add` does, where those stand: the body grows where it is. It is
/// answered how they are made as they were, without memory. On a fault they stay as they were.
pub fn add_in_place(
    alloc: Global,
    strategy: &Strategy,
    so_far: &mut Message,
    new: &Message,
) -> Result<Undo, StrategyFault>
    requires { IsReadyBody strategy.now so_far.old.body }
    ensures says { Says (λ _. so_far.new) result
        (added strategy.now (Some so_far.old) new.now) }
    ensures err { OnErr result (so_far.new ≡ so_far.old) }
    ensures ready { OnOk result (IsReadyBody strategy.now so_far.new.body) }
    ensures undo { IfOk result (λ u. Undoes u so_far.old so_far.new) }
{
    match strategy {
        Strategy::Batch => pack_in_place(alloc, so_far, new),
        Strategy::Latest => become_latest(alloc, so_far, new),
        Strategy::Sum => become_sum(alloc, so_far, new),
        _ => grow_body(alloc, strategy, so_far, new),
    }
}

fn pack_in_place(alloc: Global, so_far: &mut Message, new: &Message) -> Result<Undo, StrategyFault>
    requires { IsPacked so_far.old.body }
    ensures says { Says (λ _. so_far.new) result (added_packed (Some so_far.old) new.now) }
    ensures err { OnErr result (so_far.new ≡ so_far.old) }
    ensures undo { IfOk result (λ u. Undoes u so_far.old so_far.new) }
{
    let mut body = take_body(alloc, so_far)?;
    let front = front_len(body.as_str());
    let done = push_message(alloc, &mut body, new);
    so_far.body = Text::of(body);
    done?;
    Ok(Undo::Reclose(front))
}

/// How many bytes of a JSON list stand in front of its closing bracket.
fn front_len(list: &str) -> usize
    requires { 0 < length list.now }
    ensures { result ≡ length list.now - 1 }
{
    list.len() - 1
}

fn become_latest(alloc: Global, so_far: &mut Message, new: &Message) -> Result<Undo, StrategyFault>
    ensures says { Says (λ _. so_far.new) result (with_body new.now (Ok new.now.body)) }
    ensures err { OnErr result (so_far.new ≡ so_far.old) }
    ensures undo { IfOk result (λ u. Undoes u so_far.old so_far.new) }
{
    let latest = Growing::copy_of(alloc, new)?.within(LIMIT)?;
    Ok(Undo::Whole(replace(so_far, latest.into_message())))
}

fn become_sum(alloc: Global, so_far: &mut Message, new: &Message) -> Result<Undo, StrategyFault>
    ensures says { Says (λ _. so_far.new) result
        (with_body so_far.old (in_decimal (sum_of (whole_of so_far.old.body) (whole_of new.now.body)))) }
    ensures err { OnErr result (so_far.new ≡ so_far.old) }
    ensures undo { IfOk result (λ u. Undoes u so_far.old so_far.new) }
{
    let sum = sum_text(alloc, so_far.body.bytes(), &new.body)?;
    Ok(Undo::Body(replace(&mut so_far.body, sum)))
}

/// Takes the body alone in, behind that of the messages so far or not at all.
fn grow_body(
    alloc: Global,
    strategy: &Strategy,
    so_far: &mut Message,
    new: &Message,
) -> Result<Undo, StrategyFault>
    requires ready { IsReadyBody strategy.now so_far.old.body }
    requires keeps { KeepsMessage strategy.now }
    requires grows { strategy.now ≢ Sum }
    ensures says { Says (λ _. so_far.new) result
        (with_body so_far.old (next_body strategy.now so_far.old.body new.now.body)) }
    ensures err { OnErr result (so_far.new ≡ so_far.old) }
    ensures undo { IfOk result (λ u. Undoes u so_far.old so_far.new) }
{
    let mut body = take_body(alloc, so_far)?;
    let undo = undo_of(strategy, body.as_str());
    let done = grow(alloc, strategy, &mut body, &new.body);
    so_far.body = Text::of(body);
    done?;
    Ok(undo)
}

/// How a body that grows is made as it was.
fn undo_of(strategy: &Strategy, body: &str) -> Undo
    requires { IsReadyBody strategy.now body.now }
    ensures { result ≡ undo_of strategy.now body.now }
{
    match strategy {
        Strategy::Grouped => Undo::Reclose(front_len(body)),
        _ => Undo::Cut(body.len()),
    }
}

/// Takes the body out of a message, to grow. Where memory is wanting for that it stays.
fn take_body(alloc: Global, message: &mut Message) -> Result<String, NoMemory>
    ensures body { IfOk result (λ b. string_bytes b ≡ message.old.body) }
    ensures rest { OnOk result (message.new ≡ record message.old { body = [] }) }
    ensures err { OnErr result (message.new ≡ message.old) }
{
    let taken = replace(&mut message.body, Text::of(String::new(alloc)));
    match taken.into_string(alloc) {
        Ok(body) => Ok(body),
        Err(taken) => {
            message.body = taken;
            Err(NoMemory)
        }
    }
}

fn growing_of(alloc: Global, old: Option<Message>) -> Result<Option<Growing>, NoMemory>
    ensures { IfOk result (λ g. option_map grown g ≡ old) }
{
    match old {
        None => Ok(None),
        Some(old) => Ok(Some(Growing::of(alloc, old)?)),
    }
}

/// The messages in one: each is taken in as by `add`, from the first to the last. `None` exactly where there are no
/// messages. The first fault of `add` ends it.
pub fn fold(
    alloc: Global,
    strategy: &Strategy,
    parts: &[Message],
) -> Result<Option<Message>, StrategyFault>
    ensures says { Says (λ m. m) result (folded strategy.now parts.now) }
    ensures none { IfOk result (λ m. IsNone m ↔ (parts.now ≡ [])) }
{
    let mut so_far = None;
    for part in parts {
        so_far = Some(step(alloc, strategy, so_far, part)?);
    }
    Ok(message_of(so_far))
}

fn message_of(so_far: Option<Growing>) -> Option<Message>
    ensures { result ≡ option_map grown so_far }
{
    match so_far {
        None => None,
        Some(so_far) => Some(so_far.into_message()),
    }
}
