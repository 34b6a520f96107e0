ghost use Rattle.std.specs.Prelude.{◌≡◌, Bool};
ghost use Rattle.eip_exchange.specs.declared.message.Message.{Message as AMessage};

use eip_exchange::Message;

/// What tells whether a message passes (Camel manual, *Predicate*). It is called through a shared reference, by several
/// threads at once.
pub trait Predicate: Send + Sync + Drop {
    /// What it may tell of a message.
    ghost tells: { Self → AMessage → Bool → Type 0 };

    /// Whether the message passes.
    fn passes(&self, message: &Message) -> bool
        ensures { tells self.now message.now result };
}

type TestOf = Box<dyn Fn(&Message) -> bool + Send + Sync>;

/// A predicate that is kept under a name (Camel manual, *Predicate*): a test that may be called on every message,
/// through a shared reference, by several threads at once.
#[derive(Drop)]
pub struct StoredPredicate {
    test: TestOf,
    ghost callable: { TestOf.IsAlwaysCallable test },
}

impl StoredPredicate {
    /// The predicate of a test that may be called on every message. It takes no memory.
    pub fn new(test: TestOf) -> StoredPredicate
        requires { TestOf.IsAlwaysCallable test }
        ensures { result.test ≡ test }
    {
        StoredPredicate { test }
    }

    /// Whether the message passes: what the test may answer on it.
    pub fn test(&self, message: &Message) -> bool
        ensures { TestOf.post self.now.test message.entry result }
    {
        (self.test)(message)
    }
}

/// A stored predicate tells what its test may answer.
impl Predicate for StoredPredicate {
    ghost tells = { λ s m b. (shown : _) × ((shown.now ≡ m) × TestOf.post s.test shown b) };

    fn passes(&self, message: &Message) -> bool {
        self.test(message)
    }
}
