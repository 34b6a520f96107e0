ghost use Rattle.std.specs.Prelude.{◌≡◌};
ghost use Rattle.eip_verdict.specs.Verdicts.{rule_of};

use eip_ledger::Kind;

/// What an audit finds in a journal.
#[derive(Clone, Copy, Debug, PartialEq, Eq)]
pub enum Verdict {
    /// Each of so many entries keeps its rule.
    Legal(u64),
    /// The first entry, from 1, that breaks its rule, and the rule's number.
    Wrong { entry: u64, rule: u32 },
}

/// The number of the rule that says where an entry may come. Each kind of entry has one of its own, from 1 for a pull on.
pub fn rule_of(kind: &Kind) -> u32
    ensures { result ≡ rule_of kind.now }
{
    match kind {
        Kind::Pull(_) => 1,
        Kind::Accept { .. } => 2,
        Kind::Refuse { .. } => 3,
        Kind::SourceEnd(_) => 4,
        Kind::SourceFault(_) => 5,
        Kind::Start { .. } => 6,
        Kind::Take(_) => 7,
        Kind::Answer { .. } => 8,
        Kind::Tick(_) => 9,
        Kind::Force => 10,
        Kind::Starve(_) => 11,
        Kind::Return(_) => 12,
    }
}
