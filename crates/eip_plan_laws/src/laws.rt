ghost use Rattle.eip_plan_laws.specs.Statements.{BatchesResequenced};

/// The batch resequencer (Camel manual, *Resequence EIP*). The exchange of a closed batch cuts it into the messages that arrived,
/// each once, in the order of their keys, ties in order of arrival; it has them go on one behind the other in this order, and has
/// had all of them go on once it has ended, unless it was ended for want of memory. It does nothing.
pub fn resequencing_law()
    ensures { BatchesResequenced }
{}
