ghost use Rattle.std.specs.Prelude.{◌≡◌, ◌<◌, max, IfOk, OnOk, IfErr, OnErr, Some, None, Ok, Err};
ghost use Rattle.eip_exchange.specs.Pairs.{put_property};
ghost use Rattle.eip_strategy.specs.Adding.{added, kept, IsReadyBody};
ghost use Rattle.eip_strategy.specs.Undoing.{Undoes};
ghost use Rattle.eip_aggregator.specs.Arrivals.{labels, labelled, closes, cause_at, size_cause, after};
ghost use Rattle.eip_aggregator.specs.Tables.{closed_as, Adds, Takes, Grows};

use crate::closed::{ArriveFault, Closed};
use crate::key::GroupKey;
use eip_exchange::{Message, Properties, Strategy};
use eip_frames::Completion;
use eip_route::Aggregate;
use eip_simple::{View, holds};
use eip_simple_read::Predicate;
use eip_strategy::{StrategyFault, Undo, add, add_in_place};
use eip_text::{NoMemory, Text, decimal};
use std::alloc::Global;
use std::marker::Model;
use std::mem::replace;

/// A group that is open: its message so far, and what its closing asks for.
#[derive(Drop)]
pub struct KeptGroup {
    key: GroupKey,
    message: Message,
    // How many parts it has.
    count: u64,
    // The greatest hops among them.
    hops: u32,
    // When it is due.
    due: Option<u64>,
    // Whether it may be forced to close.
    force: bool,
}

impl Model for KeptGroup {
    ghost use Rattle.eip_aggregator.specs.Arrivals.{Group};

    ghost Value = { Group };

    ghost view = { λ g. record { key = g.key; message = g.message; count = g.count; hops = g.hops; due = g.due; force = g.force } };
}

impl KeptGroup {
    /// Whose arrivals it takes.
    pub fn key(&self) -> &GroupKey
        ensures { result.now ≡ self.now.key }
    {
        &self.key
    }

    /// The moment at which it is due, where it has a timeout.
    pub fn due(&self) -> Option<u64>
        ensures { result ≡ self.now.due }
    {
        self.due
    }

    /// Whether it may be forced to close.
    pub fn is_forced(&self) -> bool
        ensures { result ≡ self.now.force }
    {
        self.force
    }

    /// How many parts it has.
    pub fn count(&self) -> u64
        ensures { result ≡ self.now.count }
    {
        self.count
    }

    /// The group, closed by this cause, under its number.
    pub fn into_closed(self, number: u64, cause: Completion) -> Closed
        ensures { result ≡ closed_as cause number self }
    {
        Closed {
            group: number,
            block: self.key.aggregator(),
            cause,
            hops: self.hops,
            message: self.message,
        }
    }

    /// Takes one more part in, which came from the exchange of this number in this route, with so many hops and at this
    /// moment; the body grows where it stands. It is answered what closes the group with it. On a fault the group stays as it
    /// was. `Unfit` exactly where the strategy can't add the part.
    pub fn grow(
        &mut self,
        alloc: Global,
        setting: &Aggregate,
        part: &Message,
        hops: u32,
        number: u64,
        route: &Text,
        tick: u64,
    ) -> Result<Option<Completion>, ArriveFault>
        requires ready { IsReadyBody setting.now.strategy self.old.message.body }
        requires fits { self.old.count < 18446744073709551615 }
        ensures ok { OnOk result (Grows setting.now self.old.key (Some self.old) part.now hops tick (Ok self.new)) }
        ensures cause { IfOk result (λ c. c ≡ cause_at setting.now self.new.message self.new.count number route.now) }
        ensures fault { IfErr result (λ e. Grows setting.now self.old.key (Some self.old) part.now hops tick (Err e)) }
        ensures err { OnErr result (self.new ≡ self.old) }
        ensures ready { OnOk result (IsReadyBody setting.now.strategy self.new.message.body) }
    {
        let count = self.count + 1;
        let key = self.key.text();
        let cause = take_part(
            alloc,
            setting,
            &mut self.message,
            key,
            count,
            part,
            number,
            route,
        )?;
        self.count = count;
        self.hops = greater(hops, self.hops);
        self.due = due_behind(tick, setting.timeout);
        self.force = setting.force;
        Ok(cause)
    }

    /// What closes it with its last part, which came from the exchange of this number in this route.
    pub fn cause(
        &self,
        alloc: Global,
        setting: &Aggregate,
        number: u64,
        route: &Text,
    ) -> Result<Option<Completion>, NoMemory>
        ensures { IfOk result (λ c. c ≡ cause_at setting.now self.now.message self.now.count number route.now) }
    {
        cause_at(alloc, setting, &self.message, self.count, number, route)
    }
}

/// What closes a group of so many parts with this message, the last of which came from the exchange of this number in this
/// route.
fn cause_at(
    alloc: Global,
    setting: &Aggregate,
    message: &Message,
    count: u64,
    number: u64,
    route: &Text,
) -> Result<Option<Completion>, NoMemory>
    ensures { IfOk result (λ c. c ≡ cause_at setting.now message.now count number route.now) }
{
    if is_met(alloc, &setting.predicate, message, number, route)? {
        return Ok(Some(Completion::Predicate));
    }
    Ok(size_cause(setting.size, count))
}

/// Whether there is a predicate and it holds of the message.
fn is_met(
    alloc: Global,
    predicate: &Option<Predicate>,
    message: &Message,
    number: u64,
    route: &Text,
) -> Result<bool, NoMemory>
    ensures { IfOk result (λ b. b ≡ closes predicate.now message.now number route.now) }
{
    match predicate {
        None => Ok(false),
        Some(predicate) => holds(
            alloc,
            predicate,
            &View {
                message,
                number,
                route,
            },
        ),
    }
}

fn size_cause(size: Option<u32>, count: u64) -> Option<Completion>
    ensures { result ≡ size_cause size count }
{
    match size {
        Some(size) if count == u64::from(size) => Some(Completion::Size),
        _ => None,
    }
}

/// A group of this key with its first part, which came with so many hops at this moment. `Unfit` exactly where the strategy
/// can't begin with it.
pub fn first(
    alloc: Global,
    setting: &Aggregate,
    key: &GroupKey,
    part: &Message,
    hops: u32,
    tick: u64,
) -> Result<KeptGroup, ArriveFault>
    ensures grows { Grows setting.now key.now None part.now hops tick result }
    ensures ready { IfOk result (λ g. IsReadyBody setting.now.strategy g.message.body) }
{
    let message = begun(alloc, &setting.strategy, part)?;
    let message = labelled(alloc, message, 1, key.text())?;
    Ok(KeptGroup {
        key: key.copy()?,
        message,
        count: 1,
        hops: greater(hops, 0),
        due: due_behind(tick, setting.timeout),
        force: setting.force,
    })
}

/// What the strategy makes of a first part.
fn begun(alloc: Global, strategy: &Strategy, part: &Message) -> Result<Message, ArriveFault>
    ensures adds { Adds (added strategy.now None part.now) result }
    ensures ready { IfOk result (λ m. IsReadyBody strategy.now m.body) }
{
    match add(alloc, strategy, None, part) {
        Ok(message) => Ok(message),
        Err(StrategyFault::NoMemory) => Err(ArriveFault::NoMemory),
        Err(fault) => Err(ArriveFault::Unfit(fault)),
    }
}

fn greater(a: u32, b: u32) -> u32
    ensures { result ≡ max a b }
{
    a.max(b)
}

/// The moment so many ticks behind another, at most the greatest one.
pub fn due_behind(tick: u64, timeout: Option<u64>) -> Option<u64>
    ensures { result ≡ after tick timeout }
{
    match timeout {
        None => None,
        Some(ticks) => Some(tick.saturating_add(ticks)),
    }
}

/// The message of so many parts that came by a key says so.
fn labelled(
    alloc: Global,
    mut message: Message,
    count: u64,
    key: &Text,
) -> Result<Message, NoMemory>
    ensures { IfOk result (λ m. m ≡ labelled count key.now message) }
{
    let properties = labels(alloc, &message.properties, count, key)?;
    message.properties = properties;
    Ok(message)
}

/// A message's properties and, beside them, of how many parts it is and by which key they came.
fn labels(
    alloc: Global,
    properties: &Properties,
    count: u64,
    key: &Text,
) -> Result<Properties, NoMemory>
    ensures { IfOk result (λ p. p ≡ labels count key.now properties.now) }
{
    let mut properties = properties.copy(alloc)?;
    let size = decimal(alloc, count)?;
    set(alloc, &mut properties, "CamelAggregatedSize", size)?;
    let key = key.copy()?;
    set(alloc, &mut properties, "CamelAggregatedCorrelationKey", key)?;
    Ok(properties)
}

fn set(alloc: Global, properties: &mut Properties, name: &str, value: Text) -> Result<(), NoMemory>
    ensures { OnOk result (properties.new ≡ put_property name.now value properties.old) }
{
    properties.set(Text::of_str(alloc, name)?, value)
}

/// The message whose headers and properties a strategy keeps.
fn kept<'a>(strategy: &Strategy, old: &'a Message, new: &'a Message) -> &'a Message
    ensures { result.now ≡ kept strategy.now old.now new.now }
{
    match strategy {
        Strategy::Latest => new,
        _ => old,
    }
}

/// A group's message takes one more part in where it stands, and says of how many parts it is then. It is answered what
/// closes the group with it. On a fault the message stays: where there is no memory for the answer, the part is taken out.
fn take_part(
    alloc: Global,
    setting: &Aggregate,
    message: &mut Message,
    key: &Text,
    count: u64,
    part: &Message,
    number: u64,
    route: &Text,
) -> Result<Option<Completion>, ArriveFault>
    requires { IsReadyBody setting.now.strategy message.old.body }
    ensures ok { OnOk result (Takes setting.now.strategy count key.now message.old part.now message.new) }
    ensures cause { IfOk result (λ c. c ≡ cause_at setting.now message.new count number route.now) }
    ensures fault { IfErr result (λ e. Adds (added setting.now.strategy (Some message.old) part.now) (Err e)) }
    ensures err { OnErr result (message.new ≡ message.old) }
    ensures ready { OnOk result (IsReadyBody setting.now.strategy message.new.body) }
{
    let kept = kept(&setting.strategy, message, part);
    let properties = labels(alloc, &kept.properties, count, key)?;
    let undo = take_in(alloc, &setting.strategy, message, part)?;
    let unlabelled = replace(&mut message.properties, properties);
    match cause_at(alloc, setting, message, count, number, route) {
        Ok(cause) => Ok(cause),
        Err(_) => {
            message.properties = unlabelled;
            undo.apply(message);
            Err(ArriveFault::NoMemory)
        }
    }
}

/// What the strategy makes of a group's message and one more part, in the place of the message. On a fault it stays.
fn take_in(
    alloc: Global,
    strategy: &Strategy,
    message: &mut Message,
    part: &Message,
) -> Result<Undo, ArriveFault>
    requires { IsReadyBody strategy.now message.old.body }
    ensures ok { OnOk result (added strategy.now (Some message.old) part.now ≡ Ok message.new) }
    ensures undo { IfOk result (λ u. Undoes u message.old message.new) }
    ensures fault { IfErr result (λ e. Adds (added strategy.now (Some message.old) part.now) (Err e)) }
    ensures err { OnErr result (message.new ≡ message.old) }
    ensures ready { OnOk result (IsReadyBody strategy.now message.new.body) }
{
    match add_in_place(alloc, strategy, message, part) {
        Ok(undo) => Ok(undo),
        Err(StrategyFault::NoMemory) => Err(ArriveFault::NoMemory),
        Err(fault) => Err(ArriveFault::Unfit(fault)),
    }
}
