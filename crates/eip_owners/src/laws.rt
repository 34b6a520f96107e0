ghost use Rattle.eip_owners.specs.Statements.{AnswersInParts, CallsInPart, CommitsInPart, OwnedCalls, OwnedCommits, OwnedSources, OwnersPullOn, HomeIsOwned, LanesByOwners, InletsByOwners, OwnedInParts, OwnedGoesOn, PartStays, PartGrows, HandStays, PullStays};

/// The calls of a lane that one worker alone sends on are those of that worker's answers, in their order. It does nothing.
pub fn calls_law()
    ensures { CallsInPart }
{}

/// What an inlet is told of ends, where one worker alone tells it, is what that worker's answers say, in their order. It does nothing.
pub fn commits_law()
    ensures { CommitsInPart }
{}

/// The calls of a lane are those of its owner's answers, in their order, where each Send is made by the owner. It does nothing.
pub fn owned_calls_law()
    ensures { OwnedCalls }
{}

/// What an inlet is told of ends is what its owner's answers say, in their order, where each commit is made by the owner. It does nothing.
pub fn owned_commits_law()
    ensures { OwnedCommits }
{}

/// What came of the pulls of an inlet stands in its owner's entries, in their order, where each Pull is made by the owner. It does nothing.
pub fn sources_law()
    ensures { OwnedSources }
{}

/// A pull that is out is one of its inlet's owner, where each Pull is made by the owner. It does nothing.
pub fn pullers_law()
    ensures { OwnersPullOn }
{}

/// Where no hand is out, each pull that is out is one of its inlet's owner. It does nothing.
pub fn home_law()
    ensures { HomeIsOwned }
{}

/// Lanes of which each has had the calls of its owner's answers have had the calls of all answers. It does nothing.
pub fn lanes_law()
    ensures { LanesByOwners }
{}

/// Inlets of which each did what its owner's entries and answers say did what all entries and answers say. It does nothing.
pub fn inlets_law()
    ensures { InletsByOwners }
{}

/// A journal is owned that was so up to some entry and is so behind it. It does nothing.
pub fn parts_law()
    ensures { OwnedInParts }
{}

/// A journal is owned behind a past that is so up to some entry and is so behind it. It does nothing.
pub fn owned_more_law()
    ensures { OwnedGoesOn }
{}

/// A worker's part of a journal stays as it is while other workers make entries. It does nothing.
pub fn part_stays_law()
    ensures { PartStays }
{}

/// An entry of a worker adds itself, and the answer that it gives, to that worker's part of the journal. It does nothing.
pub fn part_grows_law()
    ensures { PartGrows }
{}

/// The answers of a journal are those up to some entry and those behind it. It does nothing.
pub fn answers_law()
    ensures { AnswersInParts }
{}

/// What a worker has in hand stays there, and asks the same, whatever other workers do. It does nothing.
pub fn hand_law()
    ensures { HandStays }
{}

/// A worker's pull stays out, whatever other workers do. It does nothing.
pub fn pull_law()
    ensures { PullStays }
{}
