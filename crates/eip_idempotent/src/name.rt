ghost use Rattle.std.specs.Prelude.{◌≡◌, IfOk};

use eip_text::{NoMemory, Text};
use std::hash::{Hash, Hasher};
use std::marker::Model;

/// A text as a part of a key, which is compared byte for byte.
#[derive(Drop)]
pub struct Name {
    text: Text,
}

impl Model for Name {
    ghost use Rattle.std.specs.Prelude.{List, ℕ};

    ghost Value = { List ℕ };

    ghost view = { λ n. n.text };
}

/// A repository and a key in it.
pub type Key = (Name, Name);

impl Name {
    /// The name that is spelled so.
    pub fn of(text: &Text) -> Result<Name, NoMemory>
        ensures { IfOk result (λ n. n ≡ text.now) }
    {
        Ok(Name { text: text.copy()? })
    }
}

impl PartialEq for Name {
    ghost use Rattle.std.specs.Prelude.{bytes_eq};
    ghost use Rattle.std.specs.Cmp.{partial_equiv_from_equiv};
    ghost use Rattle.std.specs.Cmp.Lexicographic.{nat_list_eq_equiv};

    ghost eq = { bytes_eq };

    ghost laws = { partial_equiv_from_equiv nat_list_eq_equiv };

    fn eq(&self, other: &Self) -> bool {
        self.text.as_str() == other.text.as_str()
    }
}

impl Eq for Name {
    ghost use Rattle.std.specs.Cmp.Lexicographic.{nat_list_eq_equiv};

    ghost laws = { nat_list_eq_equiv };
}

impl Hash for Name {
    ghost use Rattle.std.specs.Hash as fed;
    ghost use Rattle.std.proofs.Common.{rules};
    ghost use Rattle.std.specs.Cmp.Rules.{comparing, hashing};

    ghost hash_input = { λ n. fed.str n };

    ghost respects_eq = { Prim.search (hashing, rules) };

    fn hash<H: Hasher>(&self, state: &mut H) {
        self.text.as_str().hash(state);
    }
}

/// The key of these texts.
pub fn key_of(repository: &Text, key: &Text) -> Result<Key, NoMemory>
    ensures { IfOk result (λ k. k ≡ (repository.now, key.now)) }
{
    Ok((Name::of(repository)?, Name::of(key)?))
}
