ghost use Rattle.eip_meaning.specs.LastBlock.{LastRunsOnce};

/// The last steps of a try run in any case (Camel manual, *doTry*: `doFinally`): before it goes on or faults it has asked for
/// them exactly once. It does nothing.
pub fn finally_law()
    ensures { LastRunsOnce }
{}
