ghost use Rattle.std.specs.Prelude.{◌≡◌, Ok, IfOk, OnErr, string_bytes};
ghost use Rattle.std.specs.Option.{option_map};
ghost use Rattle.eip_resequence.specs.Packing.{IsPacked};
ghost use Rattle.eip_strategy.specs.Answers.{Says, bounded};
ghost use Rattle.eip_strategy.specs.Batches.{packed_of, before, text_behind, added_packed, comma_in, IsBatch};
ghost use Rattle.eip_strategy.specs.Growing.{grown};

use crate::bodies::{make_room, push};
use crate::fault::StrategyFault;
use crate::growing::Growing;
use eip_exchange::{Headers, Message, Properties};
use eip_resequence::lists::reopen;
use eip_resequence::{Packed, object_text};
use eip_text::{NoMemory, Series, Text};
use std::alloc::Global;

/// The most bytes that the packed messages of a batch have.
const BATCH_LIMIT: usize = 16_777_216;

/// The messages so far, with a new one packed behind them: the body is what `eip_resequence::pack` gives of them.
pub fn packed_in(
    alloc: Global,
    so_far: Option<Growing>,
    new: &Message,
) -> Result<Growing, StrategyFault>
    requires { IsBatch (option_map grown so_far) }
    ensures { Says grown result (added_packed (option_map grown so_far) new.now) }
{
    let mut batch = batch_of(alloc, so_far)?;
    push_message(alloc, &mut batch.body, new)?;
    Ok(batch)
}

/// Packs a message behind those of a batch, which aren't read again. On a fault the batch stays as it was.
pub fn push_message(alloc: Global, batch: &mut String, new: &Message) -> Result<(), StrategyFault>
    requires { IsPacked (string_bytes batch.old) }
    ensures says { Says (λ _. string_bytes batch.new) result
        (bounded 16777216 (Ok (text_behind (string_bytes batch.old) new.now))) }
    ensures err { OnErr result (string_bytes batch.new ≡ string_bytes batch.old) }
{
    let packed = packed_of(alloc, new)?;
    let object = object_text(alloc, &packed)?;
    let comma = comma_in(batch.as_str());
    make_room(batch, BATCH_LIMIT, comma.len(), object.len())?;
    reopen(batch);
    push(batch, comma);
    push(batch, object.as_str());
    push(batch, "]");
    Ok(())
}

/// The comma in front of a value that is put behind those of a JSON list.
fn comma_in(list: &str) -> &'static str
    ensures { result.now ≡ comma_in list.now }
{
    if list.len() > 2 { "," } else { "" }
}

/// The messages so far, or a batch of none.
fn batch_of(alloc: Global, so_far: Option<Growing>) -> Result<Growing, NoMemory>
    ensures { IfOk result (λ g. grown g ≡ before (option_map grown so_far)) }
{
    match so_far {
        None => Ok(Growing {
            body: String::from_str(alloc, "[]")?,
            headers: Headers::new(alloc),
            properties: Properties::new(alloc),
        }),
        Some(so_far) => Ok(so_far),
    }
}

fn packed_of(alloc: Global, message: &Message) -> Result<Packed, NoMemory>
    ensures { IfOk result (λ p. p ≡ packed_of message.now) }
{
    Ok(Packed {
        body: message.body.copy()?,
        headers: Series::of(headers_of(alloc, &message.headers)?),
        properties: Series::of(properties_of(alloc, &message.properties)?),
    })
}

fn headers_of(alloc: Global, headers: &Headers) -> Result<Vec<(Text, Text)>, NoMemory>
    ensures { IfOk result (λ v. v.items ≡ headers.now) }
{
    let mut pairs = Vec::new(alloc);
    while let Some((name, value)) = headers.at(pairs.len()) {
        pairs.push((name.copy()?, value.copy()?))?;
    }
    Ok(pairs)
}

fn properties_of(alloc: Global, properties: &Properties) -> Result<Vec<(Text, Text)>, NoMemory>
    ensures { IfOk result (λ v. v.items ≡ properties.now) }
{
    let mut pairs = Vec::new(alloc);
    while let Some((name, value)) = properties.at(pairs.len()) {
        pairs.push((name.copy()?, value.copy()?))?;
    }
    Ok(pairs)
}
