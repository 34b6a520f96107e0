ghost use Rattle.std.specs.Prelude.{◌≡◌, ◌++◌, IfOk, OnErr, codes};
ghost use Rattle.std.specs.Fmt.{signed_decimal};
ghost use Rattle.eip_host.specs.Outputs.{Said};

use crate::handed::{registry, sum_in};
use crate::kinds::OwnLane;
use crate::words::rounds_in;
use eip_doors::patterns;
use eip_endpoint::{Files, Inlet, Lane, Sink, Source};
use eip_host::say;
use eip_run::run;
use eip_text::{NoMemory, Text, TextFault, signed_decimal};
use std::alloc::Global;
use std::process::ExitCode;
use std::sync::Wait;
use std::thread::Threads;

/// The status of words that are refused.
const REFUSED: u8 = 1;

/// The status where memory was wanting.
const NO_MEMORY: u8 = 5;

/// What is handed in: lanes and inlets.
type Handed<F, S> = (Vec<Lane<OwnLane<F>>>, Vec<Inlet<S>>);

/// Tells the sum of the till, and answers the status that the program ends with.
fn tell_sum<O: Sink>(alloc: Global, sum: i64, status: u8, out: &mut O) -> Result<u8, NoMemory>
    ensures told { IfOk result (λ s. Said (codes "till " ++ signed_decimal sum ++ codes "\n") status (O.bytes out.old) (O.bytes out.new) (O.sink_faults out.old) (O.sink_faults out.new) s) }
    ensures out { OnErr result (out.new ≡ out.old) }
{
    let mut line = String::from_str(alloc, "till ")?;
    line.push_str(signed_decimal(alloc, sum)?.as_str())?;
    line.push_str("\n")?;
    Ok(say(out, line.as_str(), status))
}

/// Runs a command with a seal of so many rounds, and tells the sum of the till. It answers the status of the run.
fn run_sealed<L: Files + Send + Drop, S: Source, F: Files, O: Sink, W: Threads + Wait + Sync>(
    rt: &W,
    alloc: Global,
    rounds: u32,
    words: &[Text],
    handed: Result<Handed<L, S>, NoMemory>,
    files: &mut F,
    out: &mut O,
) -> Result<u8, NoMemory> {
    let registry = registry(alloc, rounds)?;
    let (mut lanes, mut inlets) = handed?;
    let report = run(
        rt,
        alloc,
        words,
        files,
        &mut patterns(alloc),
        &mut lanes,
        &mut inlets,
        &registry,
        out,
    );
    tell_sum(alloc, sum_in(lanes.as_slice()), report.status, out)
}

/// Answers the words: the first names the rounds, and those behind it are run.
fn answer_words<L: Files + Send + Drop, S: Source, F: Files, O: Sink, W: Threads + Wait + Sync>(
    rt: &W,
    alloc: Global,
    words: &[Text],
    handed: Result<Handed<L, S>, NoMemory>,
    files: &mut F,
    out: &mut O,
) -> u8 {
    let [first, command @ ..] = words else {
        return say(out, "error words\n", REFUSED);
    };
    let Some(rounds) = rounds_in(first.as_str()) else {
        return say(out, "error words\n", REFUSED);
    };
    match run_sealed(rt, alloc, rounds, command, handed, files, out) {
        Ok(status) => status,
        Err(NoMemory) => say(out, "error memory\n", NO_MEMORY),
    }
}

/// What the program does: it runs the words that the host gave, with the lanes, the inlets and the files that are handed in, and ends
/// with the status. Words of which the first names no rounds are refused, and so are those that are not UTF-8; want of memory is told.
pub fn answer<L: Files + Send + Drop, S: Source, F: Files, O: Sink, W: Threads + Wait + Sync>(
    rt: &W,
    alloc: Global,
    words: Result<Vec<Text>, TextFault>,
    handed: Result<Handed<L, S>, NoMemory>,
    files: &mut F,
    out: &mut O,
) -> ExitCode {
    let status = match words {
        Ok(words) => answer_words(rt, alloc, words.as_slice(), handed, files, out),
        Err(TextFault::NotText) => say(out, "error words\n", REFUSED),
        Err(TextFault::NoMemory) => say(out, "error memory\n", NO_MEMORY),
    };
    ExitCode::from(status)
}
