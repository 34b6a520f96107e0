ghost use Rattle.std.specs.Prelude.{◌≡◌, IfOk, codes};
ghost use Rattle.eip_verdict.specs.declared.verdict.Verdict.TheVariants as verdict;
ghost use Rattle.eip_run.specs.Dumps.{number_line, verdict_line};
ghost use Rattle.eip_run.specs.Reports.{Told, account_text, run_text, summary_text};
ghost use Rattle.eip_run.specs.Printed.{TellsRefusal, TellsCheck, TellsLine, TellsNoJournal, TellsVerdict, TellsMigration, TellsAccount, TellsRun};

use crate::dumps::DumpRefusal;
use crate::prepare::Refusal;
use crate::report::Outcome;
use eip_audit::Verdict;
use eip_command::fault_line;
use eip_core::Hub;
use eip_endbook::{push_book, push_log, summary_text};
use eip_endpoint::{FilesFault, Sink, SinkFault};
use eip_ledger::Stop;
use eip_route::RouteSet;
use eip_route_print::print_routes;
use eip_text::{NoMemory, Text, decimal};
use std::alloc::Global;

/// How many bytes a line of the log or of the book is likely to have.
const LIKELY_LINE: usize = 48;

/// For how many lines of either room is made at once.
const LIKELY_LINES: usize = 1_000_000;

/// What is told of a run.
#[derive(Clone, Copy)]
pub enum Account {
    /// The log, and behind it the book.
    Whole,
    /// The last three lines of the book alone.
    Summary,
}

/// Writes the text of an outcome, by one call. Answers the outcome, or what a failing sink leaves of it.
fn tell<O: Sink>(out: &mut O, text: &str, told: Outcome) -> Outcome
    ensures { Told told text.now (O.bytes out.old) (O.bytes out.new) (O.sink_faults out.old) (O.sink_faults out.new) result }
{
    match out.write(text.as_bytes()) {
        Ok(()) => told,
        Err(SinkFault::Failed) => told.unwritten(),
        Err(SinkFault::NoMemory) => Outcome::NoMemory,
    }
}

/// Says that no memory was left.
pub fn tell_memory<O: Sink>(out: &mut O, told: Outcome) -> Outcome
    ensures { Told told (codes "error memory\n") (O.bytes out.old) (O.bytes out.new) (O.sink_faults out.old) (O.sink_faults out.new) result }
{
    tell(out, "error memory\n", told)
}

/// Says why nothing runs.
pub fn tell_refusal<O: Sink>(alloc: Global, out: &mut O, refusal: Refusal) -> Outcome
    ensures { TellsRefusal refusal (O.bytes out.old) (O.bytes out.new) (O.sink_faults out.old) (O.sink_faults out.new) result }
{
    match refusal {
        Refusal::Words => tell(out, "error words\n", Outcome::Words),
        Refusal::FilesFault => tell(out, "error files\n", Outcome::FilesFault),
        Refusal::NoMemory => tell_memory(out, Outcome::NoMemory),
        Refusal::Routes(fault) => match fault_line(alloc, &fault) {
            Ok(line) => tell(out, line.as_str(), Outcome::Routes(fault)),
            Err(NoMemory) => tell_memory(out, Outcome::NoMemory),
        },
    }
}

/// Writes routes in their canonical form.
pub fn tell_check<O: Sink>(alloc: Global, out: &mut O, set: &RouteSet) -> Outcome
    ensures { TellsCheck set.now (O.bytes out.old) (O.bytes out.new) (O.sink_faults out.old) (O.sink_faults out.new) result }
{
    match print_routes(alloc, set) {
        Ok(text) => tell(out, text.as_str(), Outcome::Checked),
        Err(NoMemory) => tell_memory(out, Outcome::NoMemory),
    }
}

/// A line of a word and a number.
fn number_line(alloc: Global, word: &str, number: u64) -> Result<Text, NoMemory>
    ensures { IfOk result (λ t. t ≡ number_line word.now number) }
{
    let digits = decimal(alloc, number)?;
    let mut line = String::from_str(alloc, word)?;
    line.push_str(" ")?;
    line.push_str(digits.as_str())?;
    line.push_str("\n")?;
    Ok(Text::of(line))
}

/// The line of a journal that isn't legal: the first entry that breaks its rule, and the rule's number.
fn wrong_line(alloc: Global, entry: u64, rule: u32) -> Result<Text, NoMemory>
    ensures { IfOk result (λ t. t ≡ verdict_line (verdict.Wrong entry rule)) }
{
    let entry_digits = decimal(alloc, entry)?;
    let rule_digits = decimal(alloc, rule as u64)?;
    let mut line = String::from_str(alloc, "wrong ")?;
    line.push_str(entry_digits.as_str())?;
    line.push_str(" ")?;
    line.push_str(rule_digits.as_str())?;
    line.push_str("\n")?;
    Ok(Text::of(line))
}

/// The line of a verdict.
fn verdict_line(alloc: Global, verdict: Verdict) -> Result<Text, NoMemory>
    ensures { IfOk result (λ t. t ≡ verdict_line verdict) }
{
    match verdict {
        Verdict::Legal(entries) => number_line(alloc, "legal", entries),
        Verdict::Wrong { entry, rule } => wrong_line(alloc, entry, rule),
    }
}

/// Writes a line under an outcome, if there was memory for it.
fn tell_line<O: Sink>(out: &mut O, line: Result<Text, NoMemory>, told: Outcome) -> Outcome
    ensures { TellsLine told line (O.bytes out.old) (O.bytes out.new) (O.sink_faults out.old) (O.sink_faults out.new) result }
{
    match line {
        Ok(line) => tell(out, line.as_str(), told),
        Err(NoMemory) => tell_memory(out, Outcome::NoMemory),
    }
}

/// Says why nothing is done with a journal.
fn tell_no_journal<O: Sink>(alloc: Global, out: &mut O, refusal: DumpRefusal) -> Outcome
    ensures { TellsNoJournal refusal (O.bytes out.old) (O.bytes out.new) (O.sink_faults out.old) (O.sink_faults out.new) result }
{
    match refusal {
        DumpRefusal::BadDump(line) => tell_line(
            out,
            number_line(alloc, "error dump", line),
            Outcome::BadDump(line),
        ),
        DumpRefusal::FilesFault => tell(out, "error files\n", Outcome::FilesFault),
        DumpRefusal::NoMemory => tell_memory(out, Outcome::NoMemory),
    }
}

/// Writes what an audit said of a journal, or why there was none.
pub fn tell_verdict<O: Sink>(
    alloc: Global,
    out: &mut O,
    judged: Result<Verdict, DumpRefusal>,
) -> Outcome
    ensures { TellsVerdict judged (O.bytes out.old) (O.bytes out.new) (O.sink_faults out.old) (O.sink_faults out.new) result }
{
    match judged {
        Ok(verdict) => tell_line(
            out,
            verdict_line(alloc, verdict),
            Outcome::of_verdict(verdict),
        ),
        Err(refusal) => tell_no_journal(alloc, out, refusal),
    }
}

/// Writes how many entries a migration wrote, or why it wrote none.
pub fn tell_migration<O: Sink>(
    alloc: Global,
    out: &mut O,
    migrated: Result<u64, DumpRefusal>,
) -> Outcome
    ensures { TellsMigration migrated (O.bytes out.old) (O.bytes out.new) (O.sink_faults out.old) (O.sink_faults out.new) result }
{
    match migrated {
        Ok(entries) => tell_line(
            out,
            number_line(alloc, "migrated", entries),
            Outcome::Migrated(entries),
        ),
        Err(refusal) => tell_no_journal(alloc, out, refusal),
    }
}

/// How long the log and the book are likely to be, in bytes: so that most need not grow.
fn likely_length(hub: &Hub) -> usize {
    let notes = hub.notes().len().min(LIKELY_LINES);
    let exchanges = hub.total().min(LIKELY_LINES as u64) as usize;
    (notes + exchanges) * LIKELY_LINE
}

/// The log, and behind it the book.
fn whole_text(alloc: Global, hub: &Hub, stop: Stop) -> Result<Text, NoMemory>
    ensures { IfOk result (λ t. t ≡ run_text hub.now.set hub.now.journal.past stop) }
{
    // Where there is no room for all at once, the text asks for it piece by piece.
    let mut text = match String::with_capacity(alloc, likely_length(hub)) {
        Ok(text) => text,
        Err(_) => String::new(alloc),
    };
    push_log(&mut text, hub)?;
    push_book(&mut text, hub, &stop)?;
    Ok(Text::of(text))
}

/// What an account of a run says.
fn text_of(alloc: Global, hub: &Hub, account: Account, stop: Stop) -> Result<Text, NoMemory>
    ensures { IfOk result (λ t. t ≡ account_text account hub.now.set hub.now.journal.past stop) }
{
    match account {
        Account::Whole => whole_text(alloc, hub, stop),
        Account::Summary => summary_text(alloc, hub, &stop),
    }
}

/// Writes an account of a run under an outcome.
fn tell_account<O: Sink>(
    alloc: Global,
    hub: &Hub,
    account: Account,
    stop: Stop,
    told: Outcome,
    out: &mut O,
) -> Outcome
    ensures { TellsAccount told (account_text account hub.now.set hub.now.journal.past stop) (O.bytes out.old) (O.bytes out.new) (O.sink_faults out.old) (O.sink_faults out.new) result }
{
    match text_of(alloc, hub, account, stop) {
        Ok(text) => tell(out, text.as_str(), told),
        Err(NoMemory) => tell_memory(out, Outcome::NoMemory),
    }
}

/// Writes an account of a run that came to a stop and whose journal was written to its file, or was not.
pub fn tell_run<O: Sink>(
    alloc: Global,
    hub: &Hub,
    account: Account,
    stop: Stop,
    kept: Result<(), FilesFault>,
    out: &mut O,
) -> Outcome
    ensures { TellsRun account hub.now.set hub.now.journal.past stop kept (O.bytes out.old) (O.bytes out.new) (O.sink_faults out.old) (O.sink_faults out.new) result }
{
    match stop {
        Stop::NoMemory => tell_memory(out, Outcome::Ran(Stop::NoMemory)),
        _ => match kept {
            Ok(()) => tell_account(alloc, hub, account, stop, Outcome::Ran(stop), out),
            Err(FilesFault::Failed) => {
                tell_account(alloc, hub, account, stop, Outcome::unkept(stop), out)
            }
            Err(FilesFault::NoMemory) => tell_memory(out, Outcome::NoMemory),
        },
    }
}
