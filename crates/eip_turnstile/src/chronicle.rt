//! What can be locked.
ghost use Rattle.std.specs.Prelude.{◌≡◌, ℕ, List, length};

/// A value with a list of entries that only grows, each entry with the number of the seat in whose turn it was made.
pub trait Chronicle: Send + Drop {
    /// What an entry tells, its number aside.
    type Entry;

    /// What the base is made of. No value of it is ever built: contracts alone speak of it.
    type Base;

    /// The entries that were made since the value was locked, the oldest first.
    ghost entries: { Self → List (ℕ × Self.Entry) };

    /// What no turn may change.
    ghost base: { Self → Self.Base };

    /// How many entries there are. Since this is a `u64`, a word can count them.
    fn length(&self) -> u64
        ensures { result ≡ length (entries self.now) };
}
