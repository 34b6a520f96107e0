ghost use Rattle.std.specs.Prelude.{◌≡◌, ◌++◌, ◌<◌, [], ◌∷◌, Some, None, OnOk, OnErr, option_map};
ghost use Rattle.indexmap.specs.IndexMap.{spare};
ghost use Rattle.eip_idempotent.specs.Keys.{Key, value_at, claims_at, row_at, holders_at, least_holder, settled_claim, settled_claims, PutsKey, PutsClaims};

use crate::claims::{Claim, Claims};
use crate::holders::Holders;
use crate::name::Key;
use eip_exchange::Ending;
use eip_text::NoMemory;
use indexmap::IndexMap;
use std::alloc::Global;

/// Who holds each key.
pub type KeyMap = IndexMap<Key, Holders>;

/// The claims of each exchange that hasn't ended.
pub type ClaimMap = IndexMap<u64, Claims>;

/// The least holder of a key.
pub fn least_holder(keys: &KeyMap, key: &Key) -> Option<u64>
    ensures { result ≡ least_holder (holders_at keys.now.entries key.now) }
{
    keys.get(key)?.least()
}

/// Makes room for the holders of one more key.
pub fn reserve_key(keys: &mut KeyMap) -> Result<(), NoMemory>
    ensures entries { keys.new.entries ≡ keys.old.entries }
    ensures ok { OnOk result (0 < spare keys.new) }
{
    keys.reserve(1)?;
    Ok(())
}

/// A key has these holders from now on.
pub fn put_holders(keys: &mut KeyMap, key: Key, holders: Holders)
    requires { 0 < spare keys.old }
    ensures { PutsKey keys.old.entries keys.new.entries key holders }
{
    drop(keys.insert(key, holders));
}

/// A claim of an exchange goes behind its others.
pub fn add_claim(
    alloc: Global,
    claims: &mut ClaimMap,
    number: u64,
    claim: Claim,
) -> Result<(), NoMemory>
    ensures ok { OnOk result (PutsClaims claims.old.entries claims.new.entries number (Some (claims_at claims.old.entries number ++ claim ∷ []))) }
    ensures err { OnErr result (claims.new.entries ≡ claims.old.entries) }
{
    match claims.get_mut(&number) {
        Some(more) => more.add(claim)?,
        None => {
            claims.insert(number, Claims::of(alloc, claim)?)?;
        }
    }
    Ok(())
}

/// The claims of an exchange are taken out.
pub fn take_claims(claims: &mut ClaimMap, number: u64) -> Option<Claims>
    ensures claims { result ≡ value_at claims.old.entries number }
    ensures rest { PutsClaims claims.old.entries claims.new.entries number None }
{
    claims.swap_remove(&number)
}

/// The exchange of these claims has ended so.
pub fn settle_claims(keys: &mut KeyMap, claims: &Claims, number: u64, ending: Ending)
    ensures { (k : Key) → row_at keys.new.entries k ≡ option_map (settled_claims number ending k claims.now) (row_at keys.old.entries k) }
{
    for claim in claims.as_slice() {
        settle_claim(keys, claim, number, ending);
    }
}

/// The exchange of this claim has ended so.
fn settle_claim(keys: &mut KeyMap, claim: &Claim, number: u64, ending: Ending)
    ensures { (k : Key) → row_at keys.new.entries k ≡ option_map (settled_claim number ending k claim.now) (row_at keys.old.entries k) }
{
    if let Some(holders) = keys.get_mut(claim.key()) {
        holders.settle(number, claim.is_eager(), claim.lasts(ending));
    }
}
