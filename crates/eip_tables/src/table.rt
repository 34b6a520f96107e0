ghost use Rattle.std.specs.Prelude.{◌≡◌, ◌+◌, ◌<◌, ◌≤◌, ◌-◌, ◌++◌, ◌∷◌, [], OnOk, length, slice_set, slice_get, Some};

use eip_text::NoMemory;
use std::alloc::Global;
use std::marker::Model;
use std::mem;

/// A table by number, from 1, with room that is reserved before rows are added.
#[derive(Drop)]
pub struct Table<T: Drop> {
    items: Vec<T>,
}

impl<T: Drop> Model for Table<T> {
    ghost use Rattle.std.specs.Prelude.{vec_capacity, vec_len, ◌-◌};
    ghost use Rattle.eip_tables.specs.Numbers.{TableView};

    ghost Value = { TableView T };

    ghost view = { λ r. record { items = r.items.items; spare = vec_capacity r.items - vec_len r.items } };
}

impl<T: Drop> Table<T> {
    /// An empty table, without memory.
    pub fn new(alloc: Global) -> Table<T>
        ensures { result.items ≡ [] }
    {
        Table {
            items: Vec::new(alloc),
        }
    }

    /// How many rows there are.
    pub fn len(&self) -> usize
        ensures { result ≡ length self.now.items }
    {
        self.items.len()
    }

    /// Room for `count` more rows.
    pub fn reserve(&mut self, count: usize) -> Result<(), NoMemory>
        ensures items { self.new.items ≡ self.old.items }
        ensures ok { OnOk result (count ≤ self.new.spare) }
        ensures spare { self.old.spare ≤ self.new.spare }
    {
        Ok(self.items.reserve(count)?)
    }

    /// The row goes behind the others, into room that was reserved.
    pub fn put_last(&mut self, item: T)
        requires { 0 < self.old.spare }
        ensures items { self.new.items ≡ self.old.items ++ item ∷ [] }
        ensures spare { self.old.spare ≤ self.new.spare + 1 }
    {
        self.items.push_reserved(item);
    }

    /// The row with a number.
    pub fn get(&self, number: u64) -> &T
        requires above { 0 < number }
        requires within { number ≤ length self.now.items }
        ensures { slice_get self.now.items (number - 1) ≡ Some result.now }
    {
        &self.items[(number - 1) as usize]
    }

    /// Puts a row in the place of the one with a number, and hands that one out.
    pub fn replace(&mut self, number: u64, item: T) -> T
        requires above { 0 < number }
        requires within { number ≤ length self.old.items }
        ensures was { slice_get self.old.items (number - 1) ≡ Some result }
        ensures items { self.new.items ≡ slice_set self.old.items (number - 1) item }
        ensures spare { self.old.spare ≤ self.new.spare }
    {
        mem::replace(&mut self.items[(number - 1) as usize], item)
    }

    /// The rows, by number.
    pub fn items(&self) -> &[T]
        ensures { result.now ≡ self.now.items }
    {
        self.items.as_slice()
    }
}
