ghost use Rattle.std.specs.Prelude.{◌≡◌};
ghost use Rattle.eip_text.specs.Json.{json, items_json, members_json};
ghost use Rattle.eip_text.specs.JsonText.{has_float, items_have_float, members_have_float};

use crate::series::Series;
use crate::text::Text;

/// A JSON value (RFC 8259). The members of an object that was read stand in byte order of their keys.
#[derive(Drop)]
pub enum Tree {
    Null,
    Flag(bool),
    /// A whole number. Those that were read fit 64 bits, signed below and unsigned above.
    Whole(i128),
    /// Any other number, as `1.5`, `1.0`, `1e2` and `-0`.
    Float,
    Word(Text),
    List(Series<Tree>),
    Object(Series<(Text, Tree)>),
}

impl Tree {
    /// Whether a number that is not whole stands anywhere in the tree.
    #[cycle(floats)]
    #[tactic(auto, using(crate::proofs::Levels::json_levels))]
    pub fn has_float(&self) -> bool
        ensures { result ≡ has_float (json self.now) }
    {
        match self {
            Tree::Null => false,
            Tree::Flag(_) => false,
            Tree::Whole(_) => false,
            Tree::Float => true,
            Tree::Word(_) => false,
            Tree::List(items) => has_float_item(items.items()),
            Tree::Object(members) => has_float_member(members.items()),
        }
    }
}

#[cycle(floats)]
fn has_float_item(items: &[Tree]) -> bool
    ensures { result ≡ items_have_float (items_json items.now) }
{
    for item in items {
        if item.has_float() {
            return true;
        }
    }
    false
}

#[cycle(floats)]
fn has_float_member(members: &[(Text, Tree)]) -> bool
    ensures { result ≡ members_have_float (members_json members.now) }
{
    for (_, member) in members {
        if member.has_float() {
            return true;
        }
    }
    false
}
