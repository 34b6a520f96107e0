// An exchange of the first route of a file, answered by hand.
ghost use Rattle.std.specs.Prelude.{◌≡◌, true, [], IfOk, MatchOption};
ghost use Rattle.eip_frames.specs.declared.request.At.{At as APlace};
ghost use Rattle.eip_progress.specs.Rest.{next_fate, AnswerFits};

use crate::cursor::answered::answer_of;
use crate::cursor::shown::push_next;
use eip_cursor::{Advance, Next};
use eip_exchange::{Birth, Care, Origin, Work};
use eip_frames::{Answer, fits};
use eip_route::{Names, RouteSet};
use eip_route_json::{RouteRefusal, read_routes};
use eip_simple_read::CratePatterns;
use eip_test_support::{message_of, texts};
use eip_text::{NoMemory, Series, Text};
use std::alloc::Global;
use std::mem;

/// A route file, and rows: the body of an item, the answers with a semicolon between them, and what is asked.
pub struct Case {
    pub file: &'static str,
    pub rows: &'static [(&'static str, &'static str, &'static str)],
}

/// What is asked at the first row that isn't as it wants, or the empty text.
pub fn first_wrong<A: Advance + Drop>(alloc: Global, case: &Case) -> Result<String, NoMemory> {
    for (body, answers, wanted) in case.rows {
        let asked = asked::<A>(alloc, case.file, body, answers)?;
        if asked.as_str() != *wanted {
            return Ok(asked);
        }
    }
    Ok(String::new(alloc))
}

/// What an exchange asks, before and behind each answer, with `|` between; `stray` where an answer doesn't fit, and
/// `refused` where the file is none.
fn asked<A: Advance + Drop>(
    alloc: Global,
    file: &str,
    body: &str,
    answers: &str,
) -> Result<String, NoMemory> {
    match read(alloc, file) {
        Ok(set) => {
            let asked = asked_in::<A>(alloc, &set, body, answers);
            drop(set);
            asked
        }
        Err(RouteRefusal::Refused(fault)) => {
            drop(fault);
            Ok(String::from_str(alloc, "refused")?)
        }
        Err(RouteRefusal::NoMemory) => Err(NoMemory),
    }
}

fn names(alloc: Global) -> Result<Names, NoMemory> {
    Ok(Names {
        lanes: Series::of(texts(alloc, &["lane:x", "file", "line"])?),
        inlets: Series::of(texts(alloc, &["stream"])?),
        processors: Series::of(texts(alloc, &["keep"])?),
        predicates: Series::of(texts(alloc, &["empty"])?),
    })
}

/// The routes of a file, with lanes, a processor and a predicate handed in.
fn read(alloc: Global, file: &str) -> Result<RouteSet, RouteRefusal> {
    let names = names(alloc)?;
    let mut patterns = CratePatterns::new(Vec::new(alloc));
    read_routes(alloc, file.as_bytes(), &names, &mut patterns)
}

/// The first exchange, of an item of the first route with this body.
fn birth_of(alloc: Global, set: &RouteSet, body: &str) -> Result<Birth, NoMemory> {
    let block = first_block(set);
    let message = message_of(alloc, body)?;
    let item = Text::of_str(alloc, "1")?;
    Ok(Birth {
        number: 1,
        origin: Origin::Source { route: 0, item },
        work: Work::Block(block),
        hops: 0,
        depth: 0,
        route: 0,
        care: Care::Full,
        message,
    })
}

/// The block of the first route's steps.
fn first_block(set: &RouteSet) -> u32 {
    match set.routes.items().first() {
        Some(route) => route.block,
        None => 0,
    }
}

/// The same of this set.
fn asked_in<A: Advance + Drop>(
    alloc: Global,
    set: &RouteSet,
    body: &str,
    answers: &str,
) -> Result<String, NoMemory> {
    let mut cursor: A = started(alloc, set, body)?;
    let asked = asked_by(alloc, set, &mut cursor, answers);
    drop(cursor);
    asked
}

fn started<A: Advance>(alloc: Global, set: &RouteSet, body: &str) -> Result<A, NoMemory>
    ensures { IfOk result (λ k. A.is_first k) }
{
    let birth = birth_of(alloc, set, body)?;
    A::start(alloc, birth, set)
}

fn asked_by<A: Advance>(
    alloc: Global,
    set: &RouteSet,
    cursor: &mut A,
    answers: &str,
) -> Result<String, NoMemory>
    requires { A.is_first cursor.old }
{
    let mut out = String::new(alloc);
    push_asked(alloc, set, cursor, answers, &mut out)?;
    Ok(out)
}

fn push_asked<A: Advance>(
    alloc: Global,
    set: &RouteSet,
    cursor: &mut A,
    answers: &str,
    out: &mut String,
) -> Result<(), NoMemory>
    requires { A.is_first cursor.old }
{
    let mut next = cursor.advance(alloc, set, None)?;
    let pushed = push_behind(alloc, set, cursor, &mut next, answers, out);
    drop(next);
    pushed
}

fn push_behind<A: Advance>(
    alloc: Global,
    set: &RouteSet,
    cursor: &mut A,
    next: &mut Next,
    answers: &str,
    out: &mut String,
) -> Result<(), NoMemory>
    requires asks { A.rest set.now cursor.old [] ≡ next_fate (A.asked_at cursor.old) next.old }
    requires later { A.is_first cursor.old → ⊥ }
{
    push_next(out, next)?;
    for words in answers.split_terminator(';') {
        if !goes_on(alloc, set, cursor, next, words.trim())? {
            return Ok(out.push_str("|stray")?);
        }
        out.push_str("|")?;
        push_next(out, next)?;
    }
    Ok(())
}

/// Goes on by an answer, if it fits what is asked.
fn goes_on<A: Advance>(
    alloc: Global,
    set: &RouteSet,
    cursor: &mut A,
    next: &mut Next,
    words: &str,
) -> Result<bool, NoMemory>
    requires asks { A.rest set.now cursor.old [] ≡ next_fate (A.asked_at cursor.old) next.old }
    requires later { A.is_first cursor.old → ⊥ }
    ensures asks { IfOk result (λ went. went ≡ true → A.rest set.now cursor.new [] ≡ next_fate (A.asked_at cursor.new) next.new) }
    ensures later { IfOk result (λ went. went ≡ true → A.is_first cursor.new → ⊥) }
{
    match behind(alloc, set, cursor, next, words)? {
        Some(later) => {
            put(next, later);
            Ok(true)
        }
        None => Ok(false),
    }
}

fn put(next: &mut Next, later: Next)
    ensures { next.new ≡ later }
{
    drop(mem::replace(next, later));
}

/// What comes behind an answer, if it fits what is asked.
fn behind<A: Advance>(
    alloc: Global,
    set: &RouteSet,
    cursor: &mut A,
    next: &Next,
    words: &str,
) -> Result<Option<Next>, NoMemory>
    requires asks { A.rest set.now cursor.old [] ≡ next_fate (A.asked_at cursor.old) next.now }
    requires later { A.is_first cursor.old → ⊥ }
    ensures asks { IfOk result (λ o. MatchOption o (Unit {0}) (λ n. A.rest set.now cursor.new [] ≡ next_fate (A.asked_at cursor.new) n)) }
    ensures later { IfOk result (λ o. MatchOption o (Unit {0}) (λ n. A.is_first cursor.new → ⊥)) }
{
    match answer_of(alloc, words)? {
        Some(answer) => {
            if takes(next, &answer) {
                Ok(Some(cursor.advance(alloc, set, Some(&answer))?))
            } else {
                Ok(None)
            }
        }
        None => Ok(None),
    }
}

/// Whether an answer may follow.
fn takes(next: &Next, answer: &Answer) -> bool
    ensures { (at : APlace) → result ≡ true → AnswerFits (next_fate at next.now) answer.now }
{
    match next {
        Next::Asks(request) => fits(request, answer),
        Next::Ended(..) => false,
    }
}
