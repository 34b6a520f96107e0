ghost use Rattle.std.specs.Prelude.{◌≡◌, ◌<◌, ◌++◌, ◌∷◌, [], ℕ, true, false, length, slice_index_or, slice_set, All, IfSome, IfNone, None, Ok, OnOk, OnErr};
ghost use Rattle.eip_simple_read.specs.Meaning.{predicate_of};
ghost use Rattle.eip_simple_read.specs.Reading.{HasGoodPattern};
ghost use Rattle.eip_route_grammar.specs.Known as spec;

use eip_simple_read::Predicate;
use eip_text::{NoMemory, Text};
use std::alloc::Global;
use std::marker::Model;

/// A predicate of a route file, and the text that it was read from.
#[derive(Drop)]
pub struct Entry {
    pub text: Text,
    pub predicate: Predicate,
}

/// The predicates of a route file that were read, in the order in which they stand there: so the
/// pattern of each `regex` is built once. Contracts see them as the list of the entries, each of which
/// is what its text spells, with good patterns.
#[derive(Drop)]
pub struct Known {
    /// One that was taken out leaves its place empty.
    places: Vec<Option<Entry>>,
    /// Where the last one was taken out. The next one stands near it, since building goes through the
    /// same tree as reading, and only the keys of an object may come in another order.
    near: usize,
}

impl Model for Known {
    ghost use Rattle.std.specs.Prelude.{List};
    ghost use Rattle.eip_route_grammar.specs.declared.known.Entry.{Entry};
    ghost use Rattle.eip_route_grammar.specs.Known.{AreRead, kept};

    ghost Value = { List Entry };

    ghost view = { λ k. kept k.places.items };

    ghost invariant = { λ k. AreRead (kept k.places.items) };
}

impl Known {
    /// No predicate. It takes no memory.
    pub fn new(alloc: Global) -> Known
        ensures { result ≡ [] }
    {
        Known {
            places: Vec::new(alloc),
            near: 0,
        }
    }

    /// Adds a predicate behind the others. Without memory nothing changes.
    pub fn add(&mut self, text: Text, predicate: Predicate) -> Result<(), NoMemory>
        requires value { predicate_of text ≡ Ok predicate }
        requires patterns { All (All HasGoodPattern) predicate.any }
        ensures added { OnOk result (self.new ≡ self.old ++ record { text = text; predicate = predicate } ∷ []) }
        ensures same { OnErr result (self.new ≡ self.old) }
    {
        self.places.push(Some(Entry { text, predicate }))?;
        Ok(())
    }

    /// Takes a predicate of this text out, where there is one: all that have this text are the same.
    pub fn take(&mut self, text: &str) -> Option<Predicate>
        ensures first { result ≡ spec.first_read text.now self.old }
        ensures gone { IfSome result (λ _. spec.IsWithoutOne text.now self.old self.new) }
        ensures same { IfNone result (self.new ≡ self.old) }
        ensures value { IfSome result (λ p. predicate_of text.now ≡ Ok p) }
        ensures patterns { IfSome result (λ p. All (All HasGoodPattern) p.any) }
    {
        match place_of(&self.places, self.near, text) {
            None => None,
            Some(place) => {
                self.near = place;
                let removed = taken_at(&mut self.places, place);
                predicate_in(removed)
            }
        }
    }
}

/// Whether an entry of this text stands at the place.
fn is_at(places: &[Option<Entry>], place: usize, text: &str) -> bool
    ensures { result ≡ spec.has_text text.now (slice_index_or places.now place None) }
{
    if place < places.len() {
        has_text(&places[place], text)
    } else {
        false
    }
}

fn has_text(entry: &Option<Entry>, text: &str) -> bool
    ensures { result ≡ spec.has_text text.now entry.now }
{
    match entry {
        None => false,
        Some(entry) => entry.text.as_str() == text,
    }
}

/// The place of an entry of this text. It is looked for from near a place, in both directions.
#[tactic(auto, using(crate::proofs::Places::none_behind))]
fn place_of(places: &[Option<Entry>], near: usize, text: &str) -> Option<usize>
    ensures there { IfSome result (λ i. spec.has_text text.now (slice_index_or places.now i None) ≡ true) }
    ensures nowhere { IfNone result ((i : ℕ) → spec.has_text text.now (slice_index_or places.now i None) ≡ false) }
{
    let mut low = near.min(places.len());
    let mut high = low;
    while low > 0 || high < places.len() {
        if is_at(places, high, text) {
            return Some(high);
        }
        if high < places.len() {
            high += 1;
        }
        if low > 0 {
            low -= 1;
            if is_at(places, low, text) {
                return Some(low);
            }
        }
    }
    None
}

fn taken_at(places: &mut Vec<Option<Entry>>, place: usize) -> Option<Entry>
    requires { place < length places.old.items }
    ensures value { result ≡ slice_index_or places.old.items place None }
    ensures left { places.new.items ≡ slice_set places.old.items place None }
{
    places[place].take()
}

fn predicate_in(entry: Option<Entry>) -> Option<Predicate>
    ensures { result ≡ spec.predicate_in entry }
{
    match entry {
        None => None,
        Some(entry) => Some(entry.predicate),
    }
}
