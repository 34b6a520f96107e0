ghost use Rattle.std.specs.Prelude.{◌≡◌, ◌<◌, ℕ, List, Some, [], false, bytes_eq, length, vec_len, IfOk, IfErr, OnErr};
ghost use Rattle.eip_text.specs.Causes.{Rises};
ghost use Rattle.eip_keyed.specs.Keyed.{StandsAt};
ghost use Rattle.eip_uri.specs.Printed.{printed};
ghost use Rattle.eip_endpoint.specs.Content.{extended, preceded, where_same};
ghost use Rattle.eip_endpoint.specs.Pulls.{given_by, all_taken, EndsAtEnd, IsFair, pull_failure, committed, commit_failure};
ghost use Rattle.eip_load.specs.Items.{items_of, GaveItem};
ghost use Rattle.eip_load.specs.Sources.{untold_items, untold_commits, given_of, items_at, items_for, left_of};

use crate::generator::Generator;
use eip_endpoint::{CommitFault, PullFault, Pulled, Source};
use eip_exchange::End;
use eip_keyed::find;
use eip_text::{NoMemory, Text};
use eip_uri::Uri;
use std::alloc::Global;
use std::marker::Model;

/// The index of the generator of a printed URI, which is made where there is none yet.
fn place_for(generators: &mut Vec<(Text, Generator)>, uri: Text) -> Result<usize, NoMemory>
    ensures same { (v : List ℕ) → given_of v generators.new.items ≡ given_of v generators.old.items }
    ensures first { IfOk result (λ k. StandsAt uri k generators.new.items) }
    ensures within { IfOk result (λ k. k < vec_len generators.new) }
{
    if let Some(place) = find(generators.as_slice(), uri.bytes()) {
        return Ok(place);
    }
    let place = generators.len();
    generators.push((uri, Generator::new()))?;
    Ok(place)
}

/// Gives the next of `count` items by the generator with this index, which is the first one of its URI. The others
/// are as before.
fn next_at(
    alloc: Global,
    generators: &mut [(Text, Generator)],
    place: usize,
    count: u32,
    from: &Uri,
) -> Result<Pulled, NoMemory>
    requires within { place < length generators.old }
    requires first { StandsAt (printed from.now) place generators.old }
    ensures gave { IfOk result (GaveItem count (given_of (printed from.now) generators.old) (given_of (printed from.now) generators.new)) }
    ensures err { OnErr result (given_of (printed from.now) generators.new ≡ given_of (printed from.now) generators.old) }
    ensures others { (v : List ℕ) → bytes_eq (printed from.now) v ≡ false → given_of v generators.new ≡ given_of v generators.old }
    ensures fair { IfOk result IsFair }
{
    let named = &mut generators[place];
    named.1.next(alloc, count)
}

/// The source of the load test that is built in. It tells what is left for each URI: at first all items of `load:N`
/// for its printed form, and nothing for another.
#[derive(Drop)]
pub struct LoadSource {
    alloc: Global,
    /// The generator of each endpoint that was pulled from, by its printed URI.
    generators: Vec<(Text, Generator)>,
}

impl Model for LoadSource {
    ghost use Rattle.std.specs.Prelude.{ℕ};
    ghost use Rattle.eip_keyed.specs.Keyed.{Keyed};

    ghost Value = { Keyed ℕ };

    ghost view = { λ s. s.generators.items };
}

impl LoadSource {
    /// A source before the first pull. It takes no memory.
    pub fn new(alloc: Global) -> LoadSource
        ensures { result ≡ [] }
    {
        LoadSource {
            alloc,
            generators: Vec::new(alloc),
        }
    }

    /// Gives the next of the items of `load:N` for this number, or the end.
    fn next(&mut self, from: &Uri, count: u32) -> Result<Pulled, NoMemory>
        requires { from.now ≡ Uri.Load count }
        ensures items { items_at (printed from.now) ≡ items_of count }
        ensures gave { IfOk result (GaveItem count (given_of (printed from.now) self.old) (given_of (printed from.now) self.new)) }
        ensures err { OnErr result (given_of (printed from.now) self.new ≡ given_of (printed from.now) self.old) }
        ensures others { (v : List ℕ) → bytes_eq (printed from.now) v ≡ false → given_of v self.new ≡ given_of v self.old }
        ensures fair { IfOk result IsFair }
    {
        let uri = from.print(self.alloc)?;
        let place = place_for(&mut self.generators, uri)?;
        next_at(
            self.alloc,
            self.generators.as_mut_slice(),
            place,
            count,
            from,
        )
    }
}

impl Source for LoadSource {
    ghost given = { λ _ _. untold_items };

    ghost left = { λ s u. Some (left_of u s) };

    ghost commits = { λ _ _. untold_commits };

    ghost inlet_faults = { λ _. 0 };

    /// Gives the next item of `load:N`, or the end where all N are given; each URI has its own items, and one that is
    /// no `load:N` has none. Its only fault is want of memory, and then no item is lost.
    fn pull(&mut self, from: &Uri) -> Result<Pulled, PullFault>
        ensures given { (u : List ℕ) → untold_items ≡ extended untold_items (where_same u (printed from.now) (given_by result)) }
        ensures left { (u : List ℕ) → Some (left_of u self.old) ≡ preceded (all_taken (where_same u (printed from.now) (given_by result))) (Some (left_of u self.new)) }
        ensures ends { IfOk result (EndsAtEnd (Some (left_of (printed from.now) self.old))) }
        ensures commits { (u : List ℕ) → untold_commits ≡ untold_commits }
        ensures fair { IfOk result IsFair }
        ensures faults { Rises (pull_failure result) 0 0 }
        ensures items { items_at (printed from.now) ≡ items_for from.now }
        ensures fault { IfErr result (λ f. f ≡ PullFault.NoMemory) }
    {
        let Uri::Load(count) = from else {
            return Ok(Pulled::End);
        };
        match self.next(from, *count) {
            Ok(pulled) => Ok(pulled),
            Err(NoMemory) => Err(PullFault::NoMemory),
        }
    }

    /// Does nothing, since what is generated is nowhere kept.
    fn commit(&mut self, _from: &Uri, _item: &Text, _end: &End) -> Result<(), CommitFault>
        ensures given { (u : List ℕ) → untold_items ≡ untold_items }
        ensures left { (u : List ℕ) → Some (left_of u self.new) ≡ Some (left_of u self.old) }
        ensures commits { (u : List ℕ) → untold_commits ≡ extended untold_commits (where_same u (printed _from.now) (committed _item.now _end.now result)) }
        ensures faults { Rises (commit_failure result) 0 0 }
        ensures done { result ≡ Ok tt }
        ensures same { self.new ≡ self.old }
    {
        Ok(())
    }
}
