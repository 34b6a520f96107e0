ghost use Rattle.std.specs.Prelude.{◌≡◌, List, [], ◌∷◌, None, IfOk, OnErr};
ghost use Rattle.eip_idempotent.specs.Keys.{Call, Settled, Stands, IsAnswer, end_of, offered_by};

use crate::claims::Claim;
use crate::holders::Holders;
use crate::keys::{
    ClaimMap, KeyMap, add_claim, least_holder, put_holders, reserve_key, settle_claims, take_claims,
};
use crate::name::key_of;
use eip_exchange::Ending;
use eip_text::{NoMemory, Text};
use indexmap::IndexMap;
use std::alloc::Global;
use std::marker::Model;

/// What the offer of a key is answered.
#[derive(Clone, Copy, Debug, PartialEq, Eq)]
pub enum Offered {
    /// Nobody held the key: the exchange has claimed it.
    Fresh,
    /// The key is held, and this is the least number of those who hold it.
    Duplicate(u64),
}

/// The keys of idempotent consumers by their repositories: who claimed and who holds each (Hohpe and Woolf, *Idempotent
/// Receiver*; Camel manual, *Idempotent Consumer EIP*). It stands for the list of its calls.
///
/// An eager claim holds its key at once, another one from its exchange's end on. Where the exchange completes, its claims
/// hold for ever; where it doesn't, those hold for ever that aren't to be removed, and the others are given up.
pub struct Repo {
    alloc: Global,
    keys: KeyMap,
    claims: ClaimMap,
}

impl Drop for Repo {
    fn drop(self) {
        let Repo {
            alloc: _,
            keys,
            claims,
        } = self;
        drop(keys);
        drop(claims);
    }
}

impl Model for Repo {
    ghost use Rattle.eip_idempotent.specs.Keys.{Table};

    ghost Value = { Table };

    ghost view = { λ r. record { keys = r.keys.entries; claims = r.claims.entries } };
}

impl Repo {
    /// No key is claimed. It takes no memory.
    pub fn new(alloc: Global) -> Repo
        ensures { Stands [] result }
    {
        Repo {
            alloc,
            keys: IndexMap::new(alloc),
            claims: IndexMap::new(alloc),
        }
    }

    /// An exchange offers a key of a repository. It has claimed the key exactly where nobody held it, itself among them;
    /// else the answer is the least holder. The exchange hasn't been settled.
    pub fn offer(
        &mut self,
        repository: &Text,
        key: &Text,
        number: u64,
        eager: bool,
        remove: bool,
    ) -> Result<Offered, NoMemory>
        ensures answer { IfOk result (λ answer. (calls : List Call) → Stands calls self.old → IsAnswer calls (repository.now, key.now) answer) }
        ensures stands { IfOk result (λ answer. (calls : List Call) → Stands calls self.old → end_of calls number ≡ None → Stands (offered_by (repository.now, key.now) number eager remove answer calls) self.new) }
        ensures err { OnErr result (self.new ≡ self.old) }
    {
        let name = key_of(repository, key)?;
        if let Some(holder) = least_holder(&self.keys, &name) {
            return Ok(Offered::Duplicate(holder));
        }
        let claim = Claim::new(key_of(repository, key)?, eager, remove);
        reserve_key(&mut self.keys)?;
        add_claim(self.alloc, &mut self.claims, number, claim)?;
        put_holders(&mut self.keys, name, Holders::claimed(number, eager));
        Ok(Offered::Fresh)
    }

    /// An exchange has ended so: its claims on keys hold for ever, or are given up. The exchange hasn't been settled. It
    /// takes no memory.
    pub fn settle(&mut self, number: u64, ending: Ending)
        ensures { (calls : List Call) → Stands calls self.old → end_of calls number ≡ None → Stands (Settled number ending ∷ calls) self.new }
    {
        if let Some(claims) = take_claims(&mut self.claims, number) {
            settle_claims(&mut self.keys, &claims, number, ending);
        }
    }
}
