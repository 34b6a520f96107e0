ghost use Rattle.std.specs.Prelude.{◌≡◌};
ghost use Rattle.eip_route_values.specs.Nesting.{step_key};

use eip_route_grammar::keys::Key;
use eip_route_grammar::table::{Kind, Row};

/// Where the steps that the object of a step holds stand. Each place gives groups of steps, and each
/// group becomes a block.
#[derive(Clone, Copy)]
pub enum Place {
    /// The list `steps`: one group.
    Steps,
    /// The list `steps`, of which each step is a group.
    Branches,
    /// The objects that this key lists: the `steps` of each.
    Each(Key),
    /// The object of this key, where it is there: its `steps`.
    One(Key),
    /// The list `steps`: one group of a split into the messages of a batch, which holds these steps.
    Batch,
}

/// The kind of step that a key of a step's object says, by the table of the language.
pub fn step_key(text: &str) -> Option<Key>
    ensures { result ≡ step_key text.now }
{
    Kind::Step.row(text).map(Row::key)
}
