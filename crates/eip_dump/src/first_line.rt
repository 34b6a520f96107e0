ghost use Rattle.std.specs.Prelude.{◌≡◌, ◌++◌, IfOk, OnOk, string_bytes};
ghost use Rattle.eip_dump.specs.Dump as spec;
ghost use Rattle.eip_dump.specs.Reading.{Gives};

use crate::fault::Stop;
use crate::message_printer::push_number;
use crate::number_reader::{behind, number_at, small_at};
use eip_text::NoMemory;
use std::alloc::Global;

/// The greatest number of workers.
const WORKERS: u32 = 16;

/// The greatest limit on turns.
const TURNS: u32 = 1_000_000;

/// What the first line of a dump says.
#[derive(Clone, Copy, Debug, PartialEq, Eq)]
pub struct First {
    /// The greatest worker number.
    pub workers: u32,
    /// The limit on turns.
    pub turns: u32,
    /// The number of entries, in version 2.
    pub count: Option<u64>,
}

impl First {
    /// Whether the limits are those that a run may have.
    fn is_within(&self) -> bool
        ensures { result ≡ spec.is_within self.now }
    {
        self.workers <= WORKERS && 1 <= self.turns && self.turns <= TURNS
    }
}

/// The word in front of a first line, with its version.
fn word(count: Option<u64>) -> &'static str
    ensures { result.now ≡ spec.version_word count }
{
    match count {
        None => "eip-journal 1",
        Some(_) => "eip-journal 2",
    }
}

/// Appends the number of entries, where there is one.
fn push_count(out: &mut String, count: Option<u64>) -> Result<(), NoMemory>
    ensures text { OnOk result (string_bytes out.new ≡ string_bytes out.old ++ spec.count_field count) }
    ensures fits { OnOk result (spec.CountFits count) }
{
    match count {
        None => Ok(()),
        Some(count) => push_number(out, count),
    }
}

/// Appends the first line of a dump. Where memory is wanting, a front part of it may stand there.
#[tactic(auto, unfolding(crate::specs::Dump::first_text))]
pub fn push_first(out: &mut String, first: First) -> Result<(), NoMemory>
    ensures text { OnOk result (string_bytes out.new ≡ string_bytes out.old ++ spec.first_text first) }
    ensures fits { OnOk result (spec.CountFits first.count) }
{
    out.push_str(word(first.count))?;
    push_number(out, u64::from(first.workers))?;
    push_number(out, u64::from(first.turns))?;
    push_count(out, first.count)?;
    out.push_str("\n")?;
    Ok(())
}

/// The limits of version 1.
fn old_limits(bytes: &[u8]) -> Result<First, Stop>
    ensures { Gives (λ f. f) result (spec.old_limits bytes.now) }
{
    let (workers, behind_workers) = small_at(bytes)?;
    let (turns, _) = small_at(behind_workers)?;
    Ok(First {
        workers,
        turns,
        count: None,
    })
}

/// The limits and the number of entries of version 2.
fn new_limits(bytes: &[u8]) -> Result<First, Stop>
    ensures { Gives (λ f. f) result (spec.new_limits bytes.now) }
{
    let (workers, behind_workers) = small_at(bytes)?;
    let (turns, behind_turns) = small_at(behind_workers)?;
    let (count, _) = number_at(behind_turns)?;
    Ok(First {
        workers,
        turns,
        count: Some(count),
    })
}

/// The first line in front of the bytes, which may be spelled otherwise.
#[tactic(auto, unfolding(crate::specs::Dump::first_at))]
fn first_at(bytes: &[u8]) -> Result<First, Stop>
    ensures { Gives (λ f. f) result (spec.first_at bytes.now) }
{
    if let Some(rest) = behind(bytes, b"eip-journal 1") {
        return old_limits(rest);
    }
    match behind(bytes, b"eip-journal 2") {
        Some(rest) => new_limits(rest),
        None => Err(Stop::Bad),
    }
}

/// The first line in front of the bytes, and what stands behind it: one is read, and then its text is compared.
#[tactic(auto, unfolding(crate::specs::Dump::first_front))]
pub fn first_front(alloc: Global, bytes: &[u8]) -> Result<(First, &[u8]), Stop>
    ensures reads { Gives (λ x. (x.0, x.1.now)) result (spec.first_front bytes.now) }
    ensures is_first { IfOk result (λ x. spec.IsFirst x.0) }
{
    let first = first_at(bytes)?;
    if !first.is_within() {
        return Err(Stop::Bad);
    }
    let mut spelled = String::new(alloc);
    push_first(&mut spelled, first)?;
    match behind(bytes, spelled.as_bytes()) {
        Some(rest) => Ok((first, rest)),
        None => Err(Stop::Bad),
    }
}
