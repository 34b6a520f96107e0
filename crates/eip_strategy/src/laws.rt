ghost use Rattle.std.specs.Prelude.{◌≡◌, ◌++◌, ◌∷◌, [], List, Some, None, Ok};
ghost use Rattle.eip_exchange.specs.declared.message.Message.{Message};
ghost use Rattle.eip_strategy.specs.Batches.{IsPackedOf, added_packed};

/// What a batch holds is the messages that `add` took in with `Batch`, in order of arrival. It does nothing.
///
/// The two clauses are the steps of it: the first message alone, and one more behind those before. Between two steps only
/// the body has to stay as it is.
pub fn batch_law()
    ensures begins { (new m : Message) → added_packed None new ≡ Ok m
        → IsPackedOf m.body (new ∷ []) }
    ensures grows { (arrivals : List Message) (old new m : Message) → IsPackedOf old.body arrivals
        → added_packed (Some old) new ≡ Ok m → IsPackedOf m.body (arrivals ++ new ∷ []) }
{}
