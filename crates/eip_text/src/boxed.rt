ghost use Rattle.std.specs.Prelude.{◌≡◌, IfOk};

use crate::memory::NoMemory;
use std::alloc::Global;
use std::marker::Model;

/// A value on the heap, so that it moves as a pointer does; contracts see the value.
#[derive(Drop)]
pub struct Boxed<T> {
    inner: Box<T>,
}

impl<T> Model for Boxed<T> {
    ghost use Rattle.std.specs.Prelude.{◌≡◌};

    ghost Value = { T };

    ghost coded = { T.code };

    ghost view = { λ b. b.inner.value };
}

impl<T: Drop> Boxed<T> {
    /// The value on the heap.
    pub fn of(alloc: Global, value: T) -> Result<Boxed<T>, NoMemory>
        ensures { IfOk result (λ b. b ≡ value) }
    {
        match Box::new(alloc, value) {
            Ok(inner) => Ok(Boxed { inner }),
            Err(_) => Err(NoMemory),
        }
    }
}

impl<T> Boxed<T> {
    ghost use Rattle.std.specs.Prelude.{◌≡◌};
    ghost use Rattle.std.specs.Borrow.{sem, Lends};
    ghost use Rattle.eip_text.specs.contracts.boxed.Boxed.{the_row};

    /// The value, lent.
    pub fn get(&self) -> &T
        ensures { result.now ≡ self.now }
    {
        &*self.inner
    }

    /// Another value in the same place; the one before is handed out.
    pub fn replace(&mut self, value: T) -> T
        ensures before { result ≡ self.old }
        ensures after { self.new ≡ value }
    {
        Box::replace(&mut self.inner, value)
    }

    /// The value, to be changed where it is.
    pub fn get_mut(&mut self) -> &mut T
        ensures* writes_back { sem 𝓛 (Lends (the_row T.row) T.row self.entry result (λ w. w)) }
        ensures value { result.now ≡ self.old }
    {
        &mut *self.inner
    }
}
