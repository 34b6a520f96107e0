//! The rule that holds between any two steps of the table, and what each step tells.
ghost use Rattle.eip_turnstile.specs.Rule.{Kept, first_view};
ghost use Rattle.eip_turnstile.specs.Steps.{Claims, Counts, Releases, split_left, split_right, joined, spent_view};

use crate::chronicle::Chronicle;
use crate::view::View;
use atomic_table::{Join, Play, Split, TableRule};
use std::marker::PhantomData;
use std::snapshot::Snapshot;

/// The rule of a table that holds a value of type `V`. The table's key is the value as it was locked, so the rule knows its base.
pub struct Law<V> {
    value: PhantomData<V>,
}

impl<V: Chronicle> TableRule<Option<V>, View<V::Entry, V::Base>, Snapshot<V>> for Law<V> {
    ghost holds = { λ key. Kept V.entries V.base (V.base key.value) };

    ghost first = { λ key. first_view (V.base key.value) };
}

/// A try for the turn.
pub(crate) struct Claim<V> {
    value: PhantomData<V>,
}

impl<V: Chronicle> Play<Option<V>, View<V::Entry, V::Base>> for Claim<V> {
    ghost then = { Claims V.entries V.base };
}

/// The entries of the turn are counted.
pub(crate) struct Count<V> {
    value: PhantomData<V>,
}

impl<V: Chronicle> Play<Option<V>, View<V::Entry, V::Base>> for Count<V> {
    ghost then = { Counts V.entries V.base };
}

/// The turn ends.
pub(crate) struct Release<V> {
    value: PhantomData<V>,
}

impl<V: Chronicle> Play<Option<V>, View<V::Entry, V::Base>> for Release<V> {
    ghost then = { Releases V.entries V.base };
}

/// A seat is made of the first one.
pub(crate) struct NewSeat;

impl<E, B> Split<View<E, B>> for NewSeat {
    ghost left = { split_left };

    ghost right = { split_right };
}

/// A seat takes another one in.
pub(crate) struct TakenIn;

impl<E, B> Join<View<E, B>> for TakenIn {
    ghost both = { joined };

    ghost spent = { spent_view };
}
