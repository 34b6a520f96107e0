ghost use Rattle.std.specs.Prelude.{◌≡◌, ◌≤◌, ◌*◌, [], length, IfOk, None};
ghost use Rattle.eip_plan.specs.Plan.{plan_of};
ghost use Rattle.eip_hub.specs.View.{plan};
ghost use Rattle.eip_audit.specs.Judging.{Holds};
ghost use Rattle.eip_audit.specs.Dumped.{Finds, ReadsNextOf, JudgesLines, Audits};

use crate::auditor::Auditor;
use crate::rest::Rest;
use eip_dump::{DumpFault, first_limits, next_entry};
use eip_ledger::Entry;
use eip_route::RouteSet;
use eip_text::NoMemory;
use eip_verdict::{Verdict, rule_of};
use std::alloc::Global;

/// The verdict on the first wrong entry up to this one, which has this number; `None` where there is none yet.
fn first_wrong(
    auditor: &mut Auditor,
    found: Option<Verdict>,
    entry: &Entry,
    number: u64,
) -> Result<Option<Verdict>, NoMemory>
    requires { found ≡ None → Holds auditor.old }
    ensures { IfOk result (λ now. Finds auditor.old auditor.new found entry.now number now) }
{
    if found.is_some() {
        return Ok(found);
    }
    let kept = auditor.judge(entry)?;
    if kept {
        return Ok(None);
    }
    Ok(Some(Verdict::Wrong {
        entry: number,
        rule: rule_of(&entry.kind),
    }))
}

/// The same, and the entry is let go of.
fn first_wrong_with(
    auditor: &mut Auditor,
    found: Option<Verdict>,
    entry: Entry,
    number: u64,
) -> Result<Option<Verdict>, NoMemory>
    requires { found ≡ None → Holds auditor.old }
    ensures { IfOk result (λ now. Finds auditor.old auditor.new found entry number now) }
{
    let now = first_wrong(auditor, found, &entry, number);
    drop(entry);
    now
}

/// The next entry behind so many, and how many bytes stand behind its line, as `next_entry` reads them.
fn next_of(
    alloc: Global,
    count: Option<u64>,
    entries: u64,
    rest: &Rest,
) -> Result<Option<(Entry, usize)>, DumpFault>
    requires { 2 * entries ≤ 9223372036854775807 }
    ensures { ReadsNextOf count entries rest.now result }
{
    match next_entry(alloc, count, entries, rest.bytes())? {
        Some((entry, more)) => Ok(Some((entry, more.len()))),
        None => Ok(None),
    }
}

/// The verdict on the entries whose lines these are, by an auditor who has judged none yet. No more than one of them is kept beside the
/// auditor's books. Behind the first wrong one the others are read too, since a bad line goes before it.
fn verdict_on(
    alloc: Global,
    auditor: &mut Auditor,
    count: Option<u64>,
    lines: Rest,
) -> Result<Verdict, DumpFault>
    requires holds { Holds auditor.old }
    requires past { auditor.old.books.journal.past ≡ [] }
    requires few { length lines ≤ 9223372036854775807 }
    ensures { JudgesLines (plan auditor.old.books) auditor.old.books.journal.workers auditor.old.books.journal.turns count lines result }
{
    let mut rest = lines;
    let mut entries: u64 = 0;
    let mut found = None;
    while let Some((entry, left)) = next_of(alloc, count, entries, &rest)? {
        entries += 1;
        found = first_wrong_with(auditor, found, entry, entries)?;
        rest.leave(alloc, left)?;
    }
    match found {
        Some(verdict) => Ok(verdict),
        None => Ok(Verdict::Legal(entries)),
    }
}

/// What `audit` says of the journal that `read_dump` reads from these bytes, with its refusals: `BadDump` with the first bad line. Each
/// entry is judged as its line is read, so that the journal is kept once, and of the bytes no more than twice those that are left.
pub fn audit_dump(alloc: Global, set: RouteSet, bytes: Vec<u8>) -> Result<Verdict, DumpFault>
    requires { length set.routes ≤ 256 }
    ensures { Audits (plan_of set) bytes.items result }
{
    let (first, rest) = first_limits(alloc, bytes.as_slice())?;
    let left = rest.len();
    let mut lines = Rest::new(bytes);
    lines.leave(alloc, left)?;
    let mut auditor = Auditor::new(alloc, set, first.workers, first.turns)?;
    let verdict = verdict_on(alloc, &mut auditor, first.count, lines);
    auditor.close();
    verdict
}
