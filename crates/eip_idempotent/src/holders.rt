ghost use Rattle.std.specs.Prelude.{◌≡◌, Some};
ghost use Rattle.eip_idempotent.specs.Keys.{held_by, settled, least, least_holder};

use std::marker::Model;

/// Who holds one key.
#[derive(Drop)]
pub struct Holders {
    // Who holds it and hasn't ended: one at most, since nobody else may claim it meanwhile.
    unended: Option<u64>,
    // The least of those who hold it for ever.
    lasting: Option<u64>,
}

impl Model for Holders {
    ghost use Rattle.eip_idempotent.specs.Keys.{HoldersView};

    ghost Value = { HoldersView };

    ghost view = { λ h. record { unended = h.unended; lasting = h.lasting } };
}

impl Holders {
    /// Of a key that this exchange has claimed, and nobody else holds.
    pub fn claimed(number: u64, eager: bool) -> Holders
        ensures { result ≡ held_by number eager }
    {
        Holders {
            unended: if eager { Some(number) } else { None },
            lasting: None,
        }
    }

    /// The least holder.
    pub fn least(&self) -> Option<u64>
        ensures { result ≡ least_holder self.now }
    {
        least(self.unended, self.lasting)
    }

    /// An exchange that has a claim on the key has ended: whether the claim was eager, and whether it lasts.
    pub fn settle(&mut self, number: u64, eager: bool, lasts: bool)
        ensures { self.new ≡ settled number eager lasts self.old }
    {
        if eager {
            self.unended = None;
        }
        if lasts {
            self.lasting = least(Some(number), self.lasting);
        }
    }
}

/// The lesser of two numbers, where there are any.
fn least(a: Option<u64>, b: Option<u64>) -> Option<u64>
    ensures { result ≡ least a b }
{
    match (a, b) {
        (Some(a), Some(b)) => Some(a.min(b)),
        (Some(a), None) => Some(a),
        (None, b) => b,
    }
}
