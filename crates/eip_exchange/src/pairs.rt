ghost use Rattle.std.specs.Prelude.{◌≡◌, ◌<◌, [], false, length, Ok, IfOk, IfSome, OnOk, OnErr, is_some, slice_get};
ghost use Rattle.std.specs.Option.{option_copied, option_map};
ghost use Rattle.std.specs.Map.Iter.{deref_pair};
ghost use Rattle.eip_exchange.specs.Places.{value_at, put_at, without_at};
ghost use Rattle.std.specs.Arc.{arc_value};

use eip_text::{NoMemory, Text};
use std::alloc::Global;
use std::marker::Model;
use std::sync::Arc;

/// A name and its value.
#[derive(Drop)]
pub struct Pair {
    name: Text,
    value: Text,
}

impl Model for Pair {
    ghost use Rattle.std.specs.Prelude.{List, ℕ};

    ghost Value = { List ℕ × List ℕ };

    ghost view = { λ p. (p.name, p.value) };
}

impl Pair {
    /// The bytes of the name.
    pub fn name(&self) -> &[u8]
        ensures { result.now ≡ self.now.0 }
    {
        self.name.bytes()
    }

    /// The name and the value.
    fn parts(&self) -> (&Text, &Text)
        ensures { deref_pair result ≡ self.now }
    {
        (&self.name, &self.value)
    }

    fn value(&self) -> &Text
        ensures { result.now ≡ self.now.1 }
    {
        &self.value
    }

    fn set(&mut self, value: Text)
        ensures { self.new ≡ (self.old.0, value) }
    {
        self.value = value;
    }

    fn copy(&self) -> Result<Pair, NoMemory>
        ensures { IfOk result (λ p. p ≡ self.now) }
    {
        Ok(Pair {
            name: self.name.copy()?,
            value: self.value.copy()?,
        })
    }
}

/// Pairs of a name and a value in order. A place in them counts from 0. A copy shares them until one of the two changes.
pub struct Pairs {
    alloc: Global,
    shared: Option<Arc<Vec<Pair>>>,
}

impl Drop for Pairs {
    fn drop(self) {
        let Pairs { alloc: _, shared } = self;
        drop(shared);
    }
}

impl Model for Pairs {
    ghost use Rattle.std.specs.Prelude.{List, ℕ};
    ghost use Rattle.std.specs.Option.{option_map};
    ghost use Rattle.std.specs.Arc.{arc_value};
    ghost use Rattle.eip_exchange.specs.Shared.{items_of};

    ghost Value = { List (List ℕ × List ℕ) };

    ghost view = { λ p. items_of (option_map arc_value p.shared) };
}

impl Pairs {
    /// No pairs, without memory.
    pub fn new(alloc: Global) -> Pairs
        ensures { result ≡ [] }
    {
        Pairs {
            alloc,
            shared: None,
        }
    }

    /// Where they find memory.
    pub fn alloc(&self) -> Global {
        self.alloc
    }

    /// How many pairs there are.
    pub fn len(&self) -> usize
        ensures { result ≡ length self.now }
    {
        self.items().len()
    }

    /// The pairs, the first one first.
    pub fn items(&self) -> &[Pair]
        ensures { result.now ≡ self.now }
    {
        match &self.shared {
            Some(list) => list.as_slice(),
            None => &[],
        }
    }

    /// A copy with the same pairs in the same order.
    pub fn copy(&self, alloc: Global) -> Result<Pairs, NoMemory>
        ensures { IfOk result (λ p. p ≡ self.now) }
    {
        match &self.shared {
            Some(list) => Ok(Pairs {
                alloc,
                shared: Some(Arc::try_clone(list)?),
            }),
            None => Ok(Pairs::new(alloc)),
        }
    }

    /// The name and the value at a place; `None` behind the last one.
    pub fn at(&self, k: usize) -> Option<(&Text, &Text)>
        ensures { option_map deref_pair result ≡ slice_get self.now k }
    {
        match self.items().get(k) {
            Some(pair) => Some(pair.parts()),
            None => None,
        }
    }

    /// The value at a place, where there is one.
    pub fn value(&self, place: Option<usize>) -> Option<&Text>
        ensures { option_copied result ≡ value_at place self.now }
    {
        match self.items().get(place?) {
            Some(pair) => Some(pair.value()),
            None => None,
        }
    }

    /// Sets the value at the place of its name, or last where it has none. On `Err` the pairs stay.
    pub fn put(&mut self, place: Option<usize>, name: Text, value: Text) -> Result<(), NoMemory>
        requires { IfSome place (λ k. k < length self.old) }
        ensures set { OnOk result (self.new ≡ put_at place name value self.old) }
        ensures err { OnErr result (self.new ≡ self.old) }
    {
        if let Some(list) = &mut self.shared {
            if let Some(items) = Arc::get_mut(list) {
                return put_in(items, place, name, value);
            }
        }
        let mut items = copied(self.alloc, self.items())?;
        put_in(&mut items, place, name, value)?;
        self.shared = Some(shared(self.alloc, items)?);
        Ok(())
    }

    /// Removes the pair at a place; `true` exactly where there is such a place. The others keep their order. On `Err`, for which there is
    /// a place and a copy that shares the pairs, they stay.
    pub fn take(&mut self, place: Option<usize>) -> Result<bool, NoMemory>
        requires { IfSome place (λ k. k < length self.old) }
        ensures there { IfOk result (λ there. there ≡ is_some place) }
        ensures taken { OnOk result (self.new ≡ without_at place self.old) }
        ensures err { OnErr result (self.new ≡ self.old) }
        ensures none { is_some place ≡ false → result ≡ Ok false }
    {
        let Some(k) = place else {
            return Ok(false);
        };
        if let Some(list) = &mut self.shared {
            if let Some(items) = Arc::get_mut(list) {
                let _ = items.remove(k);
                return Ok(true);
            }
        }
        let mut items = copied(self.alloc, self.items())?;
        let _ = items.remove(k);
        self.shared = Some(shared(self.alloc, items)?);
        Ok(true)
    }
}

/// A list that copies can share.
fn shared(alloc: Global, items: Vec<Pair>) -> Result<Arc<Vec<Pair>>, NoMemory>
    ensures { IfOk result (λ list. (arc_value list).items ≡ items.items) }
{
    match Arc::new(alloc, items) {
        Ok(list) => Ok(list),
        Err(_) => Err(NoMemory),
    }
}

/// Sets the value at the place of its name, or last, in a list that nothing shares.
fn put_in(
    items: &mut Vec<Pair>,
    place: Option<usize>,
    name: Text,
    value: Text,
) -> Result<(), NoMemory>
    requires { IfSome place (λ k. k < length items.old.items) }
    ensures set { OnOk result (items.new.items ≡ put_at place name value items.old.items) }
    ensures err { OnErr result (items.new.items ≡ items.old.items) }
{
    match place {
        Some(k) => {
            drop(name);
            items[k].set(value);
        }
        None => items.push(Pair { name, value })?,
    }
    Ok(())
}

/// Copies of pairs, with room for three more: so many a part of a split has.
fn copied(alloc: Global, pairs: &[Pair]) -> Result<Vec<Pair>, NoMemory>
    ensures { IfOk result (λ v. v.items ≡ pairs.now) }
{
    let mut copies = Vec::with_capacity(alloc, pairs.len().saturating_add(3))?;
    for pair in pairs {
        copies.push(pair.copy()?)?;
    }
    Ok(copies)
}
