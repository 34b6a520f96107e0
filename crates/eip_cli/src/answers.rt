ghost use Rattle.std.specs.Prelude.{◌≡◌, [], None, IfOk, IfErr, IfSome, OnErr};
ghost use Rattle.std.specs.Process.{exit_status};
ghost use Rattle.std.specs.Result.{IsOkAnd};
ghost use Rattle.eip_endpoint.specs.Inlets.{inlet_views};
ghost use Rattle.eip_endpoint.specs.Lanes.{lane_views};
ghost use Rattle.eip_host.specs.Outputs.{Said};
ghost use Rattle.eip_host.specs.Words.{question_in, text_of};
ghost use Rattle.eip_run.specs.Given.{outside};
ghost use Rattle.eip_cli.specs.Answers.{WasRun, Commanded, TellsFault};

use eip_endpoint::{Endpoint, Files, Inlet, Lane, Sink, Source};
use eip_host::{question_of, say};
use eip_processor::Registered;
use eip_run::run;
use eip_simple_read::Patterns;
use eip_text::{NoMemory, Text, TextFault};
use std::alloc::Global;
use std::mem;
use std::process::ExitCode;
use std::sync::Wait;
use std::thread::Threads;

/// The status of words that are refused.
const REFUSED: u8 = 1;

/// The status where memory was wanting.
const NO_MEMORY: u8 = 5;

/// What is handed in to a command: lanes, inlets and a registry.
type Handed<E, S, R> = (Vec<Lane<E>>, Vec<Inlet<S>>, R);

/// Runs a command over lanes, inlets and a registry, and answers the status of its outcome.
fn ended<
    F: Files,
    P: Patterns,
    E: Endpoint,
    S: Source,
    R: Registered + Sync,
    O: Sink,
    W: Threads + Wait + Sync,
>(
    rt: &W,
    alloc: Global,
    words: &[Text],
    lanes: &mut Vec<Lane<E>>,
    inlets: &mut Vec<Inlet<S>>,
    registry: &R,
    files: &mut F,
    patterns: &mut P,
    out: &mut O,
) -> u8
    ensures { WasRun words.now
        (outside F.Files O.Sink files.old (P.pattern_faults patterns.old) [] [] out.old)
        (outside F.Files O.Sink files.new (P.pattern_faults patterns.new) [] [] out.new)
        (lane_views E.Endpoint lanes.old.items) (inlet_views S.Source inlets.old.items) (R.view registry.now) result }
{
    let report = run(
        rt, alloc, words, files, patterns, lanes, inlets, registry, out,
    );
    let status = report.status;
    // The process is about to end, and the system takes the journal's memory back at once, not entry by entry.
    mem::forget(report);
    status
}

/// The same over what is handed in. Where memory was wanting for that, nothing is done.
fn carry_out<
    F: Files,
    P: Patterns,
    E: Endpoint,
    S: Source,
    R: Registered + Sync + Drop,
    O: Sink,
    W: Threads + Wait + Sync,
>(
    rt: &W,
    alloc: Global,
    words: &[Text],
    handed: Result<Handed<E, S, R>, NoMemory>,
    files: &mut F,
    patterns: &mut P,
    out: &mut O,
) -> Result<u8, NoMemory>
    ensures ran { IfOk result (λ status. IsOkAnd handed (λ h. WasRun words.now
        (outside F.Files O.Sink files.old (P.pattern_faults patterns.old) [] [] out.old)
        (outside F.Files O.Sink files.new (P.pattern_faults patterns.new) [] [] out.new)
        (lane_views E.Endpoint h.0.items) (inlet_views S.Source h.1.items) (R.view h.2) status)) }
    ensures files { OnErr result (F.files_faults files.new ≡ F.files_faults files.old) }
    ensures patterns { OnErr result (P.pattern_faults patterns.new ≡ P.pattern_faults patterns.old) }
    ensures out { OnErr result (out.new ≡ out.old) }
{
    let (mut lanes, mut inlets, registry) = handed?;
    let status = ended(
        rt,
        alloc,
        words,
        &mut lanes,
        &mut inlets,
        &registry,
        files,
        patterns,
        out,
    );
    Ok(status)
}

/// Answers words: what they ask of the program itself is told, and others are run as a command.
fn answer_words<
    F: Files,
    P: Patterns,
    E: Endpoint,
    S: Source,
    R: Registered + Sync + Drop,
    O: Sink,
    W: Threads + Wait + Sync,
>(
    rt: &W,
    alloc: Global,
    words: &[Text],
    handed: Result<Handed<E, S, R>, NoMemory>,
    files: &mut F,
    patterns: &mut P,
    out: &mut O,
) -> u8
    ensures question { IfSome (question_in words.now) (λ q. Said (text_of q) 0 (O.bytes out.old) (O.bytes out.new) (O.sink_faults out.old) (O.sink_faults out.new) result) }
    ensures command { question_in words.now ≡ None → Commanded (λ h. lane_views E.Endpoint h.0.items) (λ h. inlet_views S.Source h.1.items) (λ h. R.view h.2) words.now handed
        (outside F.Files O.Sink files.old (P.pattern_faults patterns.old) [] [] out.old)
        (outside F.Files O.Sink files.new (P.pattern_faults patterns.new) [] [] out.new)
        result }
{
    if let Some(question) = question_of(words) {
        return say(out, question.text(), 0);
    }
    match carry_out(rt, alloc, words, handed, files, patterns, out) {
        Ok(status) => status,
        Err(NoMemory) => say(out, "error memory\n", NO_MEMORY),
    }
}

/// Tells why there are no words, and answers the status.
fn tell_fault<O: Sink>(fault: TextFault, out: &mut O) -> u8
    ensures { TellsFault fault (O.bytes out.old) (O.bytes out.new) (O.sink_faults out.old) (O.sink_faults out.new) result }
{
    match fault {
        TextFault::NotText => say(out, "error words\n", REFUSED),
        TextFault::NoMemory => say(out, "error memory\n", NO_MEMORY),
    }
}

/// What the program does: it answers the words that the host gave, and ends with the status. `--help` and `--version`
/// are told. Other words are run as a command, with the files, the patterns, the lanes, the inlets and the registry that are
/// handed in; where they name workers, it isn't said that the call returns. Where the host gave no words since one of them is
/// not UTF-8, that is told as words that are refused; where memory was wanting, that is told.
pub fn answer<
    F: Files,
    P: Patterns,
    E: Endpoint,
    S: Source,
    R: Registered + Sync + Drop,
    O: Sink,
    W: Threads + Wait + Sync,
>(
    rt: &W,
    alloc: Global,
    words: Result<Vec<Text>, TextFault>,
    handed: Result<Handed<E, S, R>, NoMemory>,
    files: &mut F,
    patterns: &mut P,
    out: &mut O,
) -> ExitCode
    ensures no_words { IfErr words (λ fault. TellsFault fault
        (O.bytes out.old) (O.bytes out.new) (O.sink_faults out.old) (O.sink_faults out.new) (exit_status result)) }
    ensures question { IfOk words (λ w. IfSome (question_in w.items) (λ q. Said (text_of q) 0
        (O.bytes out.old) (O.bytes out.new) (O.sink_faults out.old) (O.sink_faults out.new) (exit_status result))) }
    ensures command { IfOk words (λ w. question_in w.items ≡ None → Commanded (λ h. lane_views E.Endpoint h.0.items) (λ h. inlet_views S.Source h.1.items) (λ h. R.view h.2) w.items handed
        (outside F.Files O.Sink files.old (P.pattern_faults patterns.old) [] [] out.old)
        (outside F.Files O.Sink files.new (P.pattern_faults patterns.new) [] [] out.new)
        (exit_status result)) }
{
    let words = match words {
        Ok(words) => words,
        Err(fault) => return ExitCode::from(tell_fault(fault, out)),
    };
    ExitCode::from(answer_words(rt, alloc, words.as_slice(), handed, files, patterns, out))
}
