// Answers by their words.
use eip_exchange::{End, Ended, Fault};
use eip_frames::Answer;
use eip_test_support::message_of;
use eip_text::{Boxed, NoMemory, Series, Text};
use std::alloc::Global;

/// The answer that these words say: its own word, and what it holds behind a space.
pub fn answer_of(alloc: Global, words: &str) -> Result<Option<Answer>, NoMemory> {
    let (word, rest) = words.split_once(' ').unwrap_or((words, ""));
    match word {
        "became" => Ok(Some(Answer::Became(Boxed::of(alloc, message_of(alloc, rest)?)?))),
        "raised" => Ok(Some(Answer::Raised(Boxed::of(alloc, fault_of(alloc, rest)?)?))),
        "joined" => Ok(Some(joined(alloc, rest)?)),
        _ => Ok(plain(word, rest)),
    }
}

/// The answers that hold no message.
fn plain(word: &str, rest: &str) -> Option<Answer> {
    match word {
        "done" => Some(Answer::Done),
        "failed" => Some(Answer::SendFailed),
        "holds" => Some(Answer::Holds(rest.is_empty())),
        "entered" => Some(Answer::Entered),
        "fresh" => Some(Answer::Fresh),
        "noted" => Some(Answer::Noted),
        "finished" => Some(Answer::Finished),
        "born" => Some(born(rest)),
        _ => numbered(word, number(rest)),
    }
}

/// The answers that hold one number.
fn numbered(word: &str, number: u32) -> Option<Answer> {
    match word {
        "queued" => Some(Answer::Queued(number as u64)),
        "full" => Some(Answer::Full(number)),
        "arrived" => Some(Answer::Arrived(number as u64)),
        "duplicate" => Some(Answer::Duplicate(number as u64)),
        "slept" => Some(Answer::Slept(number as u64)),
        _ => None,
    }
}

fn number(text: &str) -> u32 {
    text.parse().unwrap_or(0)
}

/// Parts are born: the number of the first, and how many.
fn born(numbers: &str) -> Answer {
    let (first, count) = numbers.split_once(' ').unwrap_or(("", ""));
    Answer::Born {
        first: number(first) as u64,
        count: number(count),
    }
}

/// Parts have ended with these bodies, a space between them; one with `!` in front has failed.
fn joined(alloc: Global, bodies: &str) -> Result<Answer, NoMemory> {
    let mut parts = Vec::new(alloc);
    for body in bodies.split(' ') {
        parts.push(part_of(alloc, body)?)?;
    }
    Ok(Answer::Joined(Series::of(parts)))
}

fn part_of(alloc: Global, body: &str) -> Result<Ended, NoMemory> {
    match body.strip_prefix('!') {
        Some(body) => ended(alloc, End::Failed(fault_of(alloc, "Bad")?), body),
        None => ended(alloc, End::Completed, body),
    }
}

fn ended(alloc: Global, end: End, body: &str) -> Result<Ended, NoMemory> {
    let message = message_of(alloc, body)?;
    Ok(Ended { end, message })
}

/// A fault of this kind.
fn fault_of(alloc: Global, kind: &str) -> Result<Fault, NoMemory> {
    Ok(Fault {
        kind: Text::of_str(alloc, kind)?,
        text: Text::of_str(alloc, "no")?,
    })
}
