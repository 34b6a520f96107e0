//! What a seat knows.
use std::collections::LinkedList;

/// The knowledge of one seat, `E` being what an entry tells and `B` the base. No value of it is ever built: contracts read it off
/// a `Seat` by `knows` and off a `Held` by `held_knows`.
pub struct View<E, B> {
    /// The number under which the seat makes its entries.
    pub number: u32,
    /// Another seat has taken this one in, with all that it knew.
    pub spent: bool,
    /// The seat has the turn.
    pub turn: bool,
    /// The list as far as the seat has seen it.
    pub seen: LinkedList<(u32, E)>,
    /// What the entries of the seat's own number tell.
    pub mine: LinkedList<E>,
    /// The base of the value that was locked. Only a seat that is spent has none.
    pub base: Option<B>,
    /// For the first seat, how many seats were made so far, itself among them.
    pub made: u32,
    /// The numbers that the seat took in, each with its entries.
    pub olds: LinkedList<(u32, LinkedList<E>)>,
}
