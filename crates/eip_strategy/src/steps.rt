// One message more, by each strategy.
ghost use Rattle.std.specs.Prelude.{◌≡◌, ◌≢◌, ◌∷◌, ◌+ℤ◌, [], IfOk, OnOk, string_bytes};
ghost use Rattle.std.specs.Fmt.{signed_decimal};
ghost use Rattle.std.specs.Option.{option_map};
ghost use Rattle.json.specs.Print.{quoted};
ghost use Rattle.eip_text.specs.Numbers.{whole_of};
ghost use Rattle.eip_exchange.specs.declared.setting.Strategy.TheVariants.{Batch};
ghost use Rattle.eip_strategy.specs.Adding.{number_in, small_sum, sum_of, in_decimal, first_body, next_body, with_body, taken_in, added, IsReadyBody, IsReady, KeepsMessage};
ghost use Rattle.eip_strategy.specs.Answers.{Says};
ghost use Rattle.eip_strategy.specs.Groups.{group_text};
ghost use Rattle.eip_strategy.specs.Growing.{grown};

use crate::batch::packed_in;
use crate::bodies::grow;
use crate::fault::StrategyFault;
use crate::growing::{Growing, LIMIT};
use eip_exchange::{Message, Strategy};
use eip_resequence::lists::written;
use eip_text::{NoMemory, read_i64, signed_decimal};
use json::Writer;
use std::alloc::Global;

/// The messages so far, where there are any, with a new one.
#[tactic(auto, unfolding(crate::specs::Adding::added), using(crate::proofs::Says::batch_ready))]
pub fn step(
    alloc: Global,
    strategy: &Strategy,
    so_far: Option<Growing>,
    new: &Message,
) -> Result<Growing, StrategyFault>
    requires { IsReady strategy.now (option_map grown so_far) }
    ensures { Says grown result (added strategy.now (option_map grown so_far) new.now) }
{
    match strategy {
        Strategy::Batch => packed_in(alloc, so_far, new),
        _ => taken_in(alloc, strategy, so_far, new),
    }
}

/// The same, where the body alone is taken in.
fn taken_in(
    alloc: Global,
    strategy: &Strategy,
    so_far: Option<Growing>,
    new: &Message,
) -> Result<Growing, StrategyFault>
    requires ready { IsReady strategy.now (option_map grown so_far) }
    requires alone { strategy.now ≢ Batch }
    ensures { Says grown result (taken_in strategy.now (option_map grown so_far) new.now) }
{
    match so_far {
        None => first(alloc, strategy, new),
        Some(so_far) => next(alloc, strategy, so_far, new),
    }
}

fn first(alloc: Global, strategy: &Strategy, new: &Message) -> Result<Growing, StrategyFault>
    requires { strategy.now ≢ Batch }
    ensures { Says grown result (taken_in strategy.now None new.now) }
{
    let mut message = Growing::copy_of(alloc, new)?;
    begin(alloc, strategy, &mut message.body)?;
    message.within(LIMIT)
}

/// Makes the body of the first message that of the messages so far.
fn begin(alloc: Global, strategy: &Strategy, body: &mut String) -> Result<(), StrategyFault>
    requires { strategy.now ≢ Batch }
    ensures { Says (λ _. string_bytes body.new) result
        (first_body strategy.now (string_bytes body.old)) }
{
    match strategy {
        Strategy::Original => Ok(()),
        Strategy::Latest => Ok(()),
        Strategy::Joined(_) => Ok(()),
        Strategy::Grouped => Ok(begin_group(alloc, body)?),
        Strategy::Sum => begin_sum(alloc, body),
        Strategy::Batch => unreachable!(),
    }
}

fn begin_group(alloc: Global, body: &mut String) -> Result<(), NoMemory>
    ensures { OnOk result (string_bytes body.new ≡ group_text (string_bytes body.old ∷ [])) }
{
    let word = quoted_word(alloc, body.as_str())?;
    body.clear();
    body.push_str("[")?;
    body.push_str(word.as_str())?;
    body.push_str("]")?;
    Ok(())
}

fn begin_sum(alloc: Global, body: &mut String) -> Result<(), StrategyFault>
    ensures { Says (λ _. string_bytes body.new) result
        (in_decimal (number_in (whole_of (string_bytes body.old)))) }
{
    let number = number_in(body.as_bytes())?;
    Ok(set_number(alloc, body, number)?)
}

fn next(
    alloc: Global,
    strategy: &Strategy,
    so_far: Growing,
    new: &Message,
) -> Result<Growing, StrategyFault>
    requires ready { IsReadyBody strategy.now (string_bytes so_far.body) }
    requires alone { strategy.now ≢ Batch }
    ensures { Says grown result (taken_in strategy.now (Some (grown so_far)) new.now) }
{
    match strategy {
        Strategy::Latest => {
            drop(so_far);
            latest(alloc, new)
        }
        _ => grown(alloc, strategy, so_far, new),
    }
}

/// The messages so far with one more, but for the latest.
fn grown(
    alloc: Global,
    strategy: &Strategy,
    mut so_far: Growing,
    new: &Message,
) -> Result<Growing, StrategyFault>
    requires ready { IsReadyBody strategy.now (string_bytes so_far.body) }
    requires keeps { KeepsMessage strategy.now }
    ensures { Says grown result (with_body (grown so_far)
        (next_body strategy.now (string_bytes so_far.body) new.now.body)) }
{
    grow(alloc, strategy, &mut so_far.body, &new.body)?;
    Ok(so_far)
}

fn latest(alloc: Global, new: &Message) -> Result<Growing, StrategyFault>
    ensures { Says grown result (with_body new.now (Ok new.now.body)) }
{
    Growing::copy_of(alloc, new)?.within(LIMIT)
}

/// The text as a JSON string.
pub fn quoted_word(alloc: Global, text: &str) -> Result<String, NoMemory>
    ensures { IfOk result (λ s. string_bytes s ≡ quoted text.now) }
{
    let mut writer = Writer::new(Vec::new(alloc));
    writer.string(text)?;
    Ok(written(writer))
}

/// The sum of two bodies as whole numbers of 64 bits.
pub fn sum_of(old: &[u8], new: &[u8]) -> Result<i64, StrategyFault>
    ensures { Says (λ z. z) result (sum_of (whole_of old.now) (whole_of new.now)) }
{
    match whole_of(old) {
        None => Err(StrategyFault::NotNumber),
        Some(old) => match whole_of(new) {
            None => Err(StrategyFault::NotNumber),
            Some(new) => small_sum(old, new),
        },
    }
}

fn small_sum(old: i64, new: i64) -> Result<i64, StrategyFault>
    ensures { Says (λ z. z) result (small_sum (old +ℤ new)) }
{
    match old.checked_add(new) {
        Some(sum) => Ok(sum),
        None => Err(StrategyFault::SumTooLarge),
    }
}

fn number_in(body: &[u8]) -> Result<i64, StrategyFault>
    ensures { Says (λ z. z) result (number_in (whole_of body.now)) }
{
    match whole_of(body) {
        Some(number) => Ok(number),
        None => Err(StrategyFault::NotNumber),
    }
}

/// The whole number of 64 bits that a body spells.
fn whole_of(body: &[u8]) -> Option<i64>
    ensures { result ≡ whole_of body.now }
{
    read_i64(body)
}

/// Puts a number in decimal in the place of the body.
fn set_number(alloc: Global, body: &mut String, number: i64) -> Result<(), NoMemory>
    ensures { OnOk result (string_bytes body.new ≡ signed_decimal number) }
{
    let text = signed_decimal(alloc, number)?;
    body.clear();
    body.push_str(text.as_str())?;
    Ok(())
}
