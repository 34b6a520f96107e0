use eip_exchange::Message;
use eip_processor::Predicate;

/// What a shipped predicate tests (Camel manual, *Predicate*).
#[derive(Clone, Copy, Debug, PartialEq, Eq)]
pub enum SamplePredicate {
    /// The body is empty.
    Empty,
}

impl Predicate for SamplePredicate {
    ghost use Rattle.std.specs.Prelude.{◌≡◌};
    ghost use Rattle.eip_samples.specs.Samples.{is_empty};

    ghost tells = { λ _ m b. b ≡ is_empty m.body };

    fn passes(&self, message: &Message) -> bool {
        match self {
            SamplePredicate::Empty => message.body.bytes().is_empty(),
        }
    }
}
