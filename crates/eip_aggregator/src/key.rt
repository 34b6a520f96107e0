ghost use Rattle.std.specs.Prelude.{◌≡◌, IfOk};

use eip_text::{NoMemory, Text};
use std::hash::{Hash, Hasher};
use std::marker::Model;

/// Whose arrivals come together: an aggregator, by the number of its block, and the value that they have in common.
#[derive(Drop)]
pub struct GroupKey {
    aggregator: u32,
    text: Text,
}

impl Model for GroupKey {
    ghost use Rattle.eip_aggregator.specs.Arrivals.{Key};

    ghost Value = { Key };

    ghost view = { λ k. (k.aggregator, k.text) };
}

impl GroupKey {
    /// The key of an aggregator's arrivals with this value.
    pub fn of(aggregator: u32, text: &Text) -> Result<GroupKey, NoMemory>
        ensures { IfOk result (λ k. k ≡ (aggregator, text.now)) }
    {
        Ok(GroupKey {
            aggregator,
            text: text.copy()?,
        })
    }

    /// The number of the aggregator's block.
    pub fn aggregator(&self) -> u32
        ensures { result ≡ self.now.0 }
    {
        self.aggregator
    }

    /// The value that the arrivals have in common.
    pub fn text(&self) -> &Text
        ensures { result.now ≡ self.now.1 }
    {
        &self.text
    }

    /// The same key.
    pub fn copy(&self) -> Result<GroupKey, NoMemory>
        ensures { IfOk result (λ k. k ≡ self.now) }
    {
        GroupKey::of(self.aggregator, &self.text)
    }
}

impl PartialEq for GroupKey {
    ghost use Rattle.eip_aggregator.specs.Arrivals.{same_key};
    ghost use Rattle.eip_aggregator.specs.Tables.{key_line};
    ghost use Rattle.std.specs.Cmp.{partial_equiv_from_equiv, on_equiv};
    ghost use Rattle.std.specs.Cmp.Lexicographic.{nat_list_eq_equiv};

    ghost eq = { same_key };

    ghost laws = { partial_equiv_from_equiv (on_equiv key_line nat_list_eq_equiv) };

    fn eq(&self, other: &Self) -> bool {
        self.aggregator == other.aggregator && self.text.bytes() == other.text.bytes()
    }
}

impl Eq for GroupKey {
    ghost use Rattle.eip_aggregator.specs.Tables.{key_line};
    ghost use Rattle.std.specs.Cmp.{on_equiv};
    ghost use Rattle.std.specs.Cmp.Lexicographic.{nat_list_eq_equiv};

    ghost laws = { on_equiv key_line nat_list_eq_equiv };
}

impl Hash for GroupKey {
    ghost use Rattle.eip_aggregator.specs.Tables.{key_writes};
    ghost use Rattle.std.proofs.Common.{rules};
    ghost use Rattle.std.specs.Cmp.Rules.{comparing, hashing};

    ghost hash_input = { λ k. key_writes k };

    ghost respects_eq = { Prim.search (hashing, rules) };

    fn hash<H: Hasher>(&self, state: &mut H) {
        for byte in self.text.bytes() {
            state.write_u8(*byte);
        }
    }
}
