ghost use Rattle.std.specs.Prelude.{◌≡◌, ◌<◌, [], false, Ok, None, length, IfOk, IfSome, OnOk, OnErr, slice_get, is_some, bytes_eq};
ghost use Rattle.std.specs.List.{IsDistinct};
ghost use Rattle.std.specs.Option.{option_copied, option_map};
ghost use Rattle.std.specs.Map.Iter.{deref_pair};
ghost use Rattle.eip_exchange.specs.Pairs.{names, get_property, put_property, without_property};
ghost use Rattle.eip_exchange.specs.Places.{place_of};

use crate::pairs::Pairs;
use eip_text::{NoMemory, Text};
use std::alloc::Global;
use std::marker::Model;

/// The properties of an exchange: pairs of a name and a value, in order of first setting, without a limit. Names are compared byte for byte.
pub struct Properties {
    pairs: Pairs,
}

impl Drop for Properties {
    fn drop(self) {
        let Properties { pairs } = self;
        drop(pairs);
    }
}

impl Model for Properties {
    ghost use Rattle.std.specs.Prelude.{List, ℕ, bytes_eq};
    ghost use Rattle.std.specs.List.{IsDistinct};

    ghost Value = { List (List ℕ × List ℕ) };

    ghost use Rattle.eip_exchange.specs.Pairs.{names};

    ghost view = { λ p. p.pairs };

    ghost invariant = { λ p. IsDistinct bytes_eq (names p.pairs) };
}

impl Properties {
    /// No properties, without memory.
    pub fn new(alloc: Global) -> Properties
        ensures { result ≡ [] }
    {
        Properties {
            pairs: Pairs::new(alloc),
        }
    }

    /// Where they find memory.
    pub fn alloc(&self) -> Global {
        self.pairs.alloc()
    }

    /// How many properties there are.
    pub fn len(&self) -> usize
        ensures len { result ≡ length self.now }
        ensures distinct { IsDistinct bytes_eq (names self.now) }
    {
        self.pairs.len()
    }

    /// The value of a property.
    pub fn get(&self, name: &[u8]) -> Option<&Text>
        ensures { option_copied result ≡ get_property name.now self.now }
    {
        self.pairs.value(find(&self.pairs, name))
    }

    /// A copy with the same pairs in the same order.
    pub fn copy(&self, alloc: Global) -> Result<Properties, NoMemory>
        ensures { IfOk result (λ p. p ≡ self.now) }
    {
        Ok(Properties {
            pairs: self.pairs.copy(alloc)?,
        })
    }

    /// The name and the value of the property at this place, from 0; `None` behind the last one.
    pub fn at(&self, k: usize) -> Option<(&Text, &Text)>
        ensures { option_map deref_pair result ≡ slice_get self.now k }
    {
        self.pairs.at(k)
    }

    /// Sets a property. One that is there keeps its place and takes the value, a new one goes last. On `Err` the properties stay.
    pub fn set(&mut self, name: Text, value: Text) -> Result<(), NoMemory>
        ensures set { OnOk result (self.new ≡ put_property name value self.old) }
        ensures err { OnErr result (self.new ≡ self.old) }
    {
        let place = find(&self.pairs, name.bytes());
        self.pairs.put(place, name, value)
    }

    /// Removes a property; `true` exactly where it was there. The others keep their order. `NoMemory` comes only where it was there and a copy shares them; then they stay.
    pub fn remove(&mut self, name: &[u8]) -> Result<bool, NoMemory>
        ensures there { IfOk result (λ there. there ≡ is_some (get_property name.now self.old)) }
        ensures removed { OnOk result (self.new ≡ without_property name.now self.old) }
        ensures err { OnErr result (self.new ≡ self.old) }
        ensures none { get_property name.now self.old ≡ None → result ≡ Ok false }
    {
        let place = find(&self.pairs, name);
        self.pairs.take(place)
    }
}

/// The place of a property, by its name.
fn find(pairs: &Pairs, name: &[u8]) -> Option<usize>
    ensures place { result ≡ place_of bytes_eq name.now pairs.now }
    ensures within { IfSome result (λ k. k < length pairs.now) }
{
    pairs.items().iter().position(|pair| name == pair.name())
}
