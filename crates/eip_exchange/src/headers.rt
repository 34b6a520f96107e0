ghost use Rattle.std.specs.Prelude.{◌≡◌, ◌≤◌, ◌<◌, ◌↔◌, [], false, Ok, None, nat_le, length, IfOk, IfSome, IsTrue, OnOk, OnErr, IsErrOf, slice_get, is_some};
ghost use Rattle.std.specs.List.{IsDistinct};
ghost use Rattle.std.specs.Option.{option_copied, option_map};
ghost use Rattle.std.specs.Map.Iter.{deref_pair};
ghost use Rattle.eip_exchange.specs.Pairs.{names};
ghost use Rattle.eip_exchange.specs.Places.{place_of};
ghost use Rattle.eip_exchange.specs.Headers.{same_name, get_header, put_header, without_header, is_redelivery, counted, is_one_too_many};

use crate::pairs::Pairs;
use eip_text::{NoMemory, Text};
use std::alloc::Global;
use std::marker::Model;
use thiserror::Error;

/// How many headers a message holds, beside the two of redelivery.
pub const LIMIT: usize = 64;

/// Why a header was not set.
#[derive(Clone, Copy, Debug, PartialEq, Eq, Error)]
pub enum HeaderFault {
    /// The message holds as many headers as it may.
    #[error("too many headers")]
    TooManyHeaders,
    #[error("out of memory")]
    NoMemory,
}

impl From<NoMemory> for HeaderFault {
    ghost use Rattle.std.specs.Prelude.{◌≡◌};
    ghost use Rattle.eip_exchange.specs.declared.headers.HeaderFault.TheVariants.{NoMemory};

    ghost from_gives = { λ _ e. e ≡ NoMemory };

    fn from(_refused: NoMemory) -> HeaderFault {
        HeaderFault::NoMemory
    }
}

/// The headers of a message: pairs of a name and a value, in order of first setting. Names are equal up to ASCII case.
pub struct Headers {
    pairs: Pairs,
}

impl Drop for Headers {
    fn drop(self) {
        let Headers { pairs } = self;
        drop(pairs);
    }
}

impl Model for Headers {
    ghost use Rattle.std.specs.Prelude.{List, ℕ, ◌≤◌};
    ghost use Rattle.std.specs.List.{IsDistinct};

    ghost Value = { List (List ℕ × List ℕ) };

    ghost use Rattle.eip_exchange.specs.Pairs.{names};
    ghost use Rattle.eip_exchange.specs.Headers.{same_name, counted};

    ghost view = { λ h. h.pairs };

    ghost invariant = { λ h. IsDistinct same_name (names h.pairs) × (counted h.pairs ≤ 64) };
}

impl Headers {
    /// No headers, without memory.
    pub fn new(alloc: Global) -> Headers
        ensures { result ≡ [] }
    {
        Headers {
            pairs: Pairs::new(alloc),
        }
    }

    /// How many headers there are, those of redelivery among them.
    pub fn len(&self) -> usize
        ensures len { result ≡ length self.now }
        ensures limit { counted self.now ≤ 64 }
        ensures distinct { IsDistinct same_name (names self.now) }
    {
        self.pairs.len()
    }

    /// The value of a header, by its name up to ASCII case.
    pub fn get(&self, name: &[u8]) -> Option<&Text>
        ensures { option_copied result ≡ get_header name.now self.now }
    {
        self.pairs.value(find(&self.pairs, name))
    }

    /// A copy with the same pairs in the same order.
    pub fn copy(&self, alloc: Global) -> Result<Headers, NoMemory>
        ensures { IfOk result (λ h. h ≡ self.now) }
    {
        Ok(Headers {
            pairs: self.pairs.copy(alloc)?,
        })
    }

    /// The name, as it was first spelled, and the value of the header at this place, from 0; `None` behind the last one.
    pub fn at(&self, k: usize) -> Option<(&Text, &Text)>
        ensures { option_map deref_pair result ≡ slice_get self.now k }
    {
        self.pairs.at(k)
    }

    /// Sets a header. One that is there keeps its place and its spelling and takes the value, a new one goes last.
    /// `TooManyHeaders` exactly where it is new, is none of the two of redelivery, and the limit is reached; on any `Err` the headers stay.
    pub fn set(&mut self, name: Text, value: Text) -> Result<(), HeaderFault>
        ensures set { OnOk result (self.new ≡ put_header name value self.old) }
        ensures err { OnErr result (self.new ≡ self.old) }
        ensures too_many { IsErrOf result HeaderFault.TooManyHeaders ↔ IsTrue (is_one_too_many name self.old) }
    {
        let place = find(&self.pairs, name.bytes());
        if is_one_too_many(&self.pairs, place, name.bytes()) {
            return Err(HeaderFault::TooManyHeaders);
        }
        Ok(self.pairs.put(place, name, value)?)
    }

    /// Removes a header, by its name up to ASCII case; `true` exactly where it was there. The others keep their order. `NoMemory` comes only where it was there and a copy shares them; then they stay.
    pub fn remove(&mut self, name: &[u8]) -> Result<bool, NoMemory>
        ensures there { IfOk result (λ there. there ≡ is_some (get_header name.now self.old)) }
        ensures removed { OnOk result (self.new ≡ without_header name.now self.old) }
        ensures err { OnErr result (self.new ≡ self.old) }
        ensures none { get_header name.now self.old ≡ None → result ≡ Ok false }
    {
        let place = find(&self.pairs, name);
        self.pairs.take(place)
    }
}

/// The place of a header, by its name up to ASCII case.
fn find(pairs: &Pairs, name: &[u8]) -> Option<usize>
    ensures place { result ≡ place_of same_name name.now pairs.now }
    ensures within { IfSome result (λ k. k < length pairs.now) }
{
    pairs
        .items()
        .iter()
        .position(|pair| is_same(name, pair.name()))
}

/// Whether a header of this name, which has this place, would be one beyond the limit.
fn is_one_too_many(pairs: &Pairs, place: Option<usize>, name: &[u8]) -> bool
    requires { is_some place ≡ is_some (get_header name.now pairs.now) }
    ensures { result ≡ is_one_too_many name.now pairs.now }
{
    place.is_none() && !is_redelivery(name) && is_full(pairs)
}

/// Whether a name is one of the two that tell of redelivery.
#[tactic(auto, unfolding(crate::specs::Headers::is_redelivery))]
fn is_redelivery(name: &[u8]) -> bool
    ensures { result ≡ is_redelivery name.now }
{
    is_same(b"CamelRedelivered", name) || is_same(b"CamelRedeliveryCounter", name)
}

fn is_same(a: &[u8], b: &[u8]) -> bool
    ensures { result ≡ same_name a.now b.now }
{
    a.eq_ignore_ascii_case(b)
}

fn is_full(pairs: &Pairs) -> bool
    ensures { result ≡ nat_le 64 (counted pairs.now) }
{
    pairs.len() >= LIMIT && count(pairs) >= LIMIT
}

/// How many headers the limit counts.
fn count(pairs: &Pairs) -> usize
    ensures { result ≡ counted pairs.now }
{
    let mut count = 0;
    for pair in pairs.items() {
        if !is_redelivery(pair.name()) {
            count += 1;
        }
    }
    count
}
