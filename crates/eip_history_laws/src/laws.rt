ghost use Rattle.eip_history_laws.specs.Statements.{SomebodyActs, InnerAnswered, TurnOrProgress, EndsOnce, OneEagerHolder, KeysAnswered, HeldForEver, EachArrivalOnce, GroupsFold, GroupsWithin, ClosedGroupsRun, TotalsAddUp, OwnersAreWorkers};

/// No run gets stuck: where nobody holds anything and the run has no stop, there are turns left, and an exchange is Ready,
/// or a queue or a source has something to give, or a moment is due, or groups are closed by force. It does nothing.
pub fn waiting_law()
    ensures { SomebodyActs }
{}

/// A request that the run answers itself can be answered as long as turns are left. It does nothing.
pub fn answering_law()
    ensures { InnerAnswered }
{}

/// Each legal entry is a turn or leaves less to do. It does nothing.
pub fn progress_law()
    ensures { TurnOrProgress }
{}

/// An exchange that has ended stays ended. It does nothing.
pub fn ending_law()
    ensures { EndsOnce }
{}

/// Of the claims to a key of a repository that are made when it is offered (Camel manual, *Idempotent Consumer EIP*, `eager`)
/// at most one holds it. It does nothing.
pub fn holder_law()
    ensures { OneEagerHolder }
{}

/// An exchange that offers a key is answered that it is fresh exactly where nobody holds it, else the least holder's number
/// (Camel manual, *Idempotent Consumer EIP*). It does nothing.
pub fn key_law()
    ensures { KeysAnswered }
{}

/// An exchange that has ended holds the keys for ever that it holds then, and no other. It does nothing.
pub fn held_law()
    ensures { HeldForEver }
{}

/// Each arrival of an aggregator and key stands in exactly one group (Camel manual, *Aggregate EIP*): the groups one behind
/// the other are the arrivals in the journal's order. It does nothing.
pub fn arrivals_law()
    ensures { EachArrivalOnce }
{}

/// The message of a group is the fold of its parts by the aggregator's strategy (Camel manual, *Aggregate EIP*), at which none of
/// them faulted. It does nothing.
pub fn folding_law()
    ensures { GroupsFold }
{}

/// A group has at most as many parts as its size says (Camel manual, *Aggregate EIP*, `completionSize`), and fewer while it is
/// open. It does nothing.
pub fn size_law()
    ensures { GroupsWithin }
{}

/// Each closed group goes on as an exchange with its message. It does nothing.
pub fn closing_law()
    ensures { ClosedGroupsRun }
{}

/// The totals of the book add up: each exchange is completed, handled, failed or waits. It does nothing.
pub fn totals_law()
    ensures { TotalsAddUp }
{}

/// The owner of a lane or an inlet is one of the workers. It does nothing.
pub fn owner_law()
    ensures { OwnersAreWorkers }
{}
