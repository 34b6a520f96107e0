ghost use Rattle.std.specs.Prelude.{◌≡◌, ◌≤◌, ◌↔◌, [], length, IfOk};
ghost use Rattle.eip_history.specs.Rules.{IsLegal};
ghost use Rattle.eip_plan.specs.Plan.{plan_of};
ghost use Rattle.eip_verdict.specs.Verdicts.{Says};
ghost use Rattle.eip_verdict.specs.declared.verdict.Verdict.TheVariants.{Legal};
ghost use Rattle.eip_hub.specs.View.{plan};
ghost use Rattle.eip_audit.specs.Judging.{Holds};

use crate::auditor::Auditor;
use eip_ledger::Journal;
use eip_route::RouteSet;
use eip_text::NoMemory;
use eip_verdict::{Verdict, rule_of};
use std::alloc::Global;

/// The verdict on a journal, by an auditor who has its limits and has judged no entry.
fn verdict_by(auditor: &mut Auditor, journal: &Journal) -> Result<Verdict, NoMemory>
    requires holds { Holds auditor.old }
    requires workers { auditor.old.books.journal.workers ≡ journal.now.workers }
    requires turns { auditor.old.books.journal.turns ≡ journal.now.turns }
    requires past { auditor.old.books.journal.past ≡ [] }
    ensures { IfOk result (λ v. Says (plan auditor.old.books) journal.now.workers journal.now.turns journal.now.past v) }
{
    let entries = journal.entries();
    let total = entries.len() as u64;
    for (index, entry) in entries.iter().enumerate() {
        let kept = auditor.judge(entry)?;
        if !kept {
            return Ok(Verdict::Wrong {
                entry: index as u64 + 1,
                rule: rule_of(&entry.kind),
            });
        }
    }
    Ok(Verdict::Legal(total))
}

/// Whether a journal is a legal history of a route set: `Legal` exactly where it is, else the first entry that breaks its rule, and the
/// rule's number. It goes over the entries once. What lanes, processors, predicates and sources answered is free: it is not looked at but
/// for its form.
pub fn audit(alloc: Global, set: RouteSet, journal: &Journal) -> Result<Verdict, NoMemory>
    requires few { length set.routes ≤ 256 }
    requires workers { journal.now.workers ≤ 16 }
    requires some { 1 ≤ journal.now.turns }
    requires limit { journal.now.turns ≤ 1000000 }
    ensures verdict { IfOk result (λ v. Says (plan_of set) journal.now.workers journal.now.turns journal.now.past v) }
    ensures legal { IfOk result (λ v. v ≡ Legal (length journal.now.past) ↔ IsLegal (plan_of set) journal.now.workers journal.now.turns journal.now.past) }
{
    let mut auditor = Auditor::new(alloc, set, journal.workers(), journal.turns())?;
    let verdict = verdict_by(&mut auditor, journal);
    auditor.close();
    verdict
}
