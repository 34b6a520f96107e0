ghost use Rattle.std.specs.Prelude.{◌≤◌, List, length};
ghost use Rattle.eip_exchange.specs.declared.message.Message.{Message};
ghost use Rattle.eip_exchange.specs.declared.setting.Key.{Key};
ghost use Rattle.eip_strategy.specs.Batches.{IsPackedOf};
ghost use Rattle.eip_splitter.specs.Batches.{AreHeld, IsBatchOf, batch_parts};

/// The parts of a batch (Camel manual, *Resequence EIP*). It does nothing.
///
/// Where a body is packed of the messages that arrived, as the law of `eip_strategy` says of `add`, its parts are
/// these messages, each once, in the order of their keys and ties in order of arrival, each with its place.
pub fn batch_law()
    ensures { (key : Key) (arrivals : List Message) (m : Message) → AreHeld arrivals
        → length arrivals ≤ 10000 → IsPackedOf m.body arrivals
        → IsBatchOf key arrivals (batch_parts key m) }
{}
