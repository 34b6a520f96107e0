ghost use Rattle.std.specs.Prelude.{◌≡◌, ◌+◌, ◌-◌, ◌<◌, ◌^◌, false, IfOk, IfErr, OnOk, OnErr, decimal};
ghost use Rattle.eip_exchange.specs.Limits.{IsGivable};
ghost use Rattle.eip_exchange.specs.Headers.{put_header, is_one_too_many};
ghost use Rattle.eip_endpoint.specs.Pulls.{IsFair};
ghost use Rattle.eip_load.specs.Draws.{next_number, drawn};
ghost use Rattle.eip_load.specs.Items.{is_repeat, original, draws, message_of, GaveItem};

use eip_endpoint::Pulled;
use eip_exchange::{HeaderFault, Headers, Message, Properties};
use eip_text::{NoMemory, Text, decimal};
use std::alloc::Global;
use std::marker::Model;

/// The number that is drawn behind this one, by the linear congruential generator that the C standard gives as an
/// example of `rand` (ISO/IEC 9899, 7.22.2), in 31 bits.
fn next_number(number: u32) -> u32
    ensures { result ≡ next_number number }
{
    ((1_103_515_245 * u64::from(number) + 12_345) % (1 << 31)) as u32
}

/// Whether the item with this index repeats the one before it.
fn is_repeat(index: u32) -> bool
    ensures { result ≡ is_repeat index }
{
    index % 5 == 0
}

/// The index of the item whose message this one has: its own, or that of the item before it.
fn original(index: u32) -> u32
    requires { 0 < index }
    ensures { result ≡ original index }
{
    if is_repeat(index) { index - 1 } else { index }
}

/// The number that is drawn last behind the item with this index, by that behind the item before it.
fn last_drawn(index: u32, before: u32) -> u32
    requires index { 0 < index }
    requires before { before ≡ drawn (draws (index - 1)) }
    ensures { result ≡ drawn (draws index) }
{
    if is_repeat(index) {
        before
    } else {
        next_number(before)
    }
}

/// Sets a header, which is not one too many, to a number.
fn set_number(alloc: Global, headers: &mut Headers, name: &str, number: u32) -> Result<(), NoMemory>
    requires { is_one_too_many name.now headers.old ≡ false }
    ensures { OnOk result (headers.new ≡ put_header name.now (decimal number) headers.old) }
{
    let name = Text::of_str(alloc, name)?;
    let value = decimal(alloc, u64::from(number))?;
    match headers.set(name, value) {
        Ok(()) => Ok(()),
        Err(HeaderFault::TooManyHeaders) => unreachable!(),
        Err(HeaderFault::NoMemory) => Err(NoMemory),
    }
}

/// The headers of an item with this order for which this number was drawn.
fn headers_of(alloc: Global, order: u32, number: u32) -> Result<Headers, NoMemory>
    ensures { IfOk result (λ hs. hs ≡ (message_of order number).headers) }
{
    let mut headers = Headers::new(alloc);
    set_number(alloc, &mut headers, "order", order)?;
    set_number(alloc, &mut headers, "customer", number / 65_536 % 4)?;
    Ok(headers)
}

/// The message of an item with this order for which this number was drawn.
fn message_of(alloc: Global, order: u32, number: u32) -> Result<Message, NoMemory>
    ensures message { IfOk result (λ m. m ≡ message_of order number) }
    ensures givable { IfOk result IsGivable }
{
    Ok(Message {
        body: decimal(alloc, u64::from(number % 100))?,
        headers: headers_of(alloc, order, number)?,
        properties: Properties::new(alloc),
    })
}

/// Makes the items of a load test one by one: contracts see how many it has given.
#[derive(Drop)]
pub struct Generator {
    given: u32,
    number: u32,
}

impl Model for Generator {
    ghost use Rattle.std.specs.Prelude.{◌≡◌, ℕ};
    ghost use Rattle.eip_load.specs.Draws.{drawn};
    ghost use Rattle.eip_load.specs.Items.{draws};

    ghost Value = { ℕ };

    ghost view = { λ g. g.given };

    ghost invariant = { λ g. g.number ≡ drawn (draws g.given) };
}

impl Generator {
    /// A generator before the first item. It takes no memory.
    pub fn new() -> Generator
        ensures { result ≡ 0 }
    {
        Generator {
            given: 0,
            number: 0,
        }
    }

    /// Gives the next of `count` items, or the end where it has given so many. Where there is no memory, none is given.
    pub fn next(&mut self, alloc: Global, count: u32) -> Result<Pulled, NoMemory>
        ensures gave { IfOk result (GaveItem count self.old self.new) }
        ensures err { OnErr result (self.new ≡ self.old) }
        ensures fair { IfOk result IsFair }
    {
        if self.given >= count {
            return Ok(Pulled::End);
        }
        let index = self.given + 1;
        let number = last_drawn(index, self.number);
        let message = message_of(alloc, original(index), number)?;
        let item = decimal(alloc, u64::from(index))?;
        self.given = index;
        self.number = number;
        Ok(Pulled::Item { item, message })
    }
}
