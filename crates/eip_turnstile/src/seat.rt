//! The lock, its seats, and a seat that has the turn. Seats cannot be dropped, so each ends in `join` or `close`.
ghost use Rattle.std.specs.Prelude.{◌≡◌, true, false, [], length};
ghost use Rattle.eip_turnstile.specs.Rule.{is_lent};

use crate::chronicle::Chronicle;
use crate::law::Law;
use crate::view::View;
use atomic_table::Table;
use std::alloc::Global;
use std::snapshot::Snapshot;

/// The token by which a seat takes its steps.
pub(crate) type Place<V> = atomic_table::Seat<
    Option<V>,
    View<<V as Chronicle>::Entry, <V as Chronicle>::Base>,
>;

/// A lock round one value. Word 0 of its table counts the entries; word 1 is 0, or one more than the number of the seat that has
/// the turn; slot 0 has the value while nobody has the turn.
pub struct Turnstile<V: Chronicle> {
    pub(crate) table: Table<Option<V>, View<V::Entry, V::Base>, Snapshot<V>, Law<V>, Global>,
    /// How many seats there may be, the first one among them.
    pub(crate) seats: u32,
    ghost sized: { (table.shared.table_id.words ≡ 2) × (table.shared.table_id.slots ≡ 1) },
}

/// A place at a turnstile, without the turn. Contracts read what it knows by `knows`, and which turnstile it is of by `lock_of`.
pub struct Seat<V: Chronicle> {
    pub(crate) place: Place<V>,
    pub(crate) number: u32,
    /// For the first seat, how many seats were made so far, itself among them.
    pub(crate) made: u32,
    /// How long the list is, as far as the seat has seen it.
    pub(crate) seen: u64,
    ghost saw: { seen ≡ length place.me.0.seen },
    ghost empty: { place.me.1 ≡ [] },
    ghost live: { place.me.0.spent ≡ false },
    ghost rests: { place.me.0.turn ≡ false },
    ghost numbered: { place.me.0.number ≡ number },
    ghost counted: { place.me.0.made ≡ made },
}

/// A seat that has the turn, and with it the value. Contracts read what it knows by `held_knows`, and which turnstile it is of by
/// `lock_held`. It ends in `leave`.
pub struct Held<V: Chronicle> {
    pub(crate) place: Place<V>,
    pub(crate) number: u32,
    /// For the first seat, how many seats were made so far, itself among them.
    pub(crate) made: u32,
    /// How long the list was when the turn began.
    pub(crate) begun: u64,
    pub(crate) value: V,
    ghost began: { begun ≡ length place.me.0.seen },
    ghost lent: { is_lent place.me.1 ≡ true },
    ghost live: { place.me.0.spent ≡ false },
    ghost turned: { place.me.0.turn ≡ true },
    ghost numbered: { place.me.0.number ≡ number },
    ghost counted: { place.me.0.made ≡ made },
}
