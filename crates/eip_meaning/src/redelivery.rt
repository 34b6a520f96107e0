ghost use Rattle.eip_meaning.specs.Attempting.{TriedOnce, TriedAgain, HandlersTryOnce};

/// A step whose try doesn't fault is this try. It does nothing.
pub fn once_law()
    ensures { TriedOnce }
{}

/// Redelivery (Camel manual, *Error Handler*): behind a fault the same step, not the route, is tried again on the message as
/// it stood, exactly where the number of the try is at most the policy's maximum; else the fault is handled. It does nothing.
pub fn redelivery_law()
    ensures { TriedAgain }
{}

/// While a fault is handled nothing is tried again, and parts that are born then are bare. It does nothing.
pub fn handling_law()
    ensures { HandlersTryOnce }
{}
