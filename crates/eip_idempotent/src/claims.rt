ghost use Rattle.std.specs.Prelude.{◌≡◌, ◌++◌, [], ◌∷◌, Some, OnOk, OnErr, IfOk};
ghost use Rattle.eip_idempotent.specs.Keys.{claim, is_held};

use crate::name::Key;
use eip_exchange::Ending;
use eip_text::NoMemory;
use std::alloc::Global;
use std::marker::Model;

/// A claim of an exchange on a key.
#[derive(Drop)]
pub struct Claim {
    key: Key,
    // Whether it holds at once, and not from the exchange's end on.
    eager: bool,
    // Whether it is given up where the exchange doesn't complete.
    remove: bool,
}

impl Model for Claim {
    ghost use Rattle.eip_idempotent.specs.Keys.{ClaimView};

    ghost Value = { ClaimView };

    ghost view = { λ c. record { key = c.key; eager = c.eager; remove = c.remove } };
}

impl Claim {
    pub fn new(key: Key, eager: bool, remove: bool) -> Claim
        ensures { result ≡ claim key eager remove }
    {
        Claim { key, eager, remove }
    }

    /// The key.
    pub fn key(&self) -> &Key
        ensures { result.now ≡ self.now.key }
    {
        &self.key
    }

    /// Whether it holds at once.
    pub fn is_eager(&self) -> bool
        ensures { result ≡ self.now.eager }
    {
        self.eager
    }

    /// Whether it holds its key for ever, where its exchange ended so.
    pub fn lasts(&self, ending: Ending) -> bool
        ensures { result ≡ is_held (Some ending) self.now }
    {
        match ending {
            Ending::Completed => true,
            Ending::Handled | Ending::Failed => !self.remove,
        }
    }
}

/// The claims of one exchange, the first one first.
#[derive(Drop)]
pub struct Claims {
    claims: Vec<Claim>,
}

impl Model for Claims {
    ghost use Rattle.std.specs.Prelude.{List};
    ghost use Rattle.eip_idempotent.specs.Keys.{ClaimView};

    ghost Value = { List ClaimView };

    ghost view = { λ c. c.claims.items };
}

impl Claims {
    /// One claim.
    pub fn of(alloc: Global, claim: Claim) -> Result<Claims, NoMemory>
        ensures { IfOk result (λ c. c ≡ claim ∷ []) }
    {
        let mut claims = Vec::new(alloc);
        claims.push(claim)?;
        Ok(Claims { claims })
    }

    /// A claim goes behind the others.
    pub fn add(&mut self, claim: Claim) -> Result<(), NoMemory>
        ensures ok { OnOk result (self.new ≡ self.old ++ claim ∷ []) }
        ensures err { OnErr result (self.new ≡ self.old) }
    {
        self.claims.push(claim)?;
        Ok(())
    }

    /// The claims, the first one first.
    pub fn as_slice(&self) -> &[Claim]
        ensures { result.now ≡ self.now }
    {
        self.claims.as_slice()
    }
}
