ghost use Rattle.std.specs.Prelude.{◌≡◌, ◌≢◌, ◌++◌, ℕ, Bool, false, List, [], ◌∷◌, IfOk, OnOk, OnErr, MatchOption};
ghost use Rattle.eip_uri.specs.declared.fault.UriFault.TheVariants.{NoMemory as NoMemoryLeft};
ghost use Rattle.eip_route.specs.declared.route.RouteSet.{RouteSet as ARouteSet};
ghost use Rattle.eip_frames.specs.Fate.{Fate as AFate};
ghost use Rattle.eip_frames.specs.declared.answer.Answer.{Answer as AnAnswer};
ghost use Rattle.eip_frames.specs.declared.request.At.{At as APlace};
ghost use Rattle.eip_uri.specs.Reading.{read};
ghost use Rattle.eip_meaning.specs.Contexts.{place_in};
ghost use Rattle.eip_meaning.specs.Meaning.{mean, item_of, work_mean, send_to, finished};
ghost use Rattle.eip_turns.specs.Courses.{now_of, state_of, IsLast};
ghost use Rattle.eip_progress.specs.Rest.{rest, rest_of, behind_all, now_mean, IsFirst, IsStarting, asked_at, state_place, next_fate, answers_of, AnswerFits};

use crate::asked::{asked, put_in};
use crate::ends::{end_answered, is_told_origin};
use crate::last::message_in;
use crate::waits::on_answer;
use eip_copies::copy_frames;
use eip_exchange::{Birth, Message, Work};
use eip_frames::Answer;
use eip_meaning::Context;
use eip_progress::{Cursor, Frame, Next, State};
use eip_route::RouteSet;
use eip_text::{Boxed, NoMemory, Text};
use eip_turns::{Course, begin_whole, into_state, run};
use eip_uri::{Uri, UriFault};
use std::alloc::Global;

/// What runs an exchange: it is made of a birth, and goes from one request of its route to the next.
pub trait Advance: Sized {
    ghost is_first: { Self → Type 0 };

    ghost rest: { ARouteSet → Self → List AnAnswer → AFate };

    ghost asked_at: { Self → APlace };

    /// The cursor of a birth, which has asked nothing yet.
    fn start(alloc: Global, birth: Birth, set: &RouteSet) -> Result<Self, NoMemory>
        ensures { IfOk result (λ k. is_first k × ((A : List AnAnswer) → rest set.now k A ≡ mean set.now birth A)) };

    /// From one request to the next: `None` at first, later an answer that fits the last request. After an end no call may
    /// come. On `NoMemory` the cursor is as before.
    fn advance(
        &mut self,
        alloc: Global,
        set: &RouteSet,
        answer: Option<&Answer>,
    ) -> Result<Next, NoMemory>
        requires { MatchOption answer (is_first self.old) (λ a. (is_first self.old → ⊥) × AnswerFits (rest set.now self.old []) a.now) }
        ensures rest { IfOk result (λ _. (A : List AnAnswer) → rest set.now self.new A ≡ rest set.now self.old (answers_of answer.entry ++ A)) }
        ensures asks { IfOk result (λ n. rest set.now self.new [] ≡ next_fate (asked_at self.new) n) }
        ensures later { OnOk result (is_first self.new → ⊥) }
        ensures err { OnErr result (self.new ≡ self.old) };
}

/// Where a cursor comes to: the endpoint of a send that is its whole work, the frames, and the state.
#[derive(Drop)]
pub struct Reached {
    pub whole: Option<Boxed<Uri>>,
    pub stack: Vec<Frame>,
    pub state: State,
}

impl Advance for Cursor {
    ghost is_first = { IsFirst };

    ghost rest = { rest };

    ghost asked_at = { asked_at };

    #[tactic(auto, unfolding(eip_progress::specs::Rest::IsFirst, eip_progress::specs::Rest::rest, eip_meaning::specs::Meaning::mean))]
    fn start(alloc: Global, birth: Birth, set: &RouteSet) -> Result<Cursor, NoMemory> {
        Ok(Cursor {
            context: Context::of(&birth),
            commit: is_told_origin(set, &birth.origin),
            origin: birth.origin,
            whole: None,
            stack: Vec::new(alloc),
            state: State::Starting(birth.work, birth.message),
        })
    }

    #[tactic(auto, unfolding(eip_progress::specs::Rest::rest, eip_progress::specs::Rest::IsFirst, eip_progress::specs::Rest::asked_at))]
    fn advance(
        &mut self,
        alloc: Global,
        set: &RouteSet,
        answer: Option<&Answer>,
    ) -> Result<Next, NoMemory> {
        let (reached, next) = coming(self, alloc, set, answer)?;
        put(self, reached);
        Ok(next)
    }
}

/// Where a cursor comes to, and what it asks there.
fn coming(
    cursor: &Cursor,
    alloc: Global,
    set: &RouteSet,
    answer: Option<&Answer>,
) -> Result<(Reached, Next), NoMemory>
    requires { MatchOption answer (IsFirst cursor.now) (λ a. (IsFirst cursor.now → ⊥) × AnswerFits (rest set.now cursor.now []) a.now) }
    ensures rest { IfOk result (λ r. (A : List AnAnswer) → rest_of set.now cursor.now.commit (item_of cursor.now.origin) cursor.now.context r.0.whole r.0.stack.items r.0.state A ≡ rest set.now cursor.now (answers_of answer.entry ++ A)) }
    ensures asks { IfOk result (λ r. rest_of set.now cursor.now.commit (item_of cursor.now.origin) cursor.now.context r.0.whole r.0.stack.items r.0.state [] ≡ next_fate (state_place cursor.now.context r.0.state) r.1) }
    ensures later { IfOk result (λ r. IsStarting r.0.state → ⊥) }
{
    let reached = following(cursor, alloc, set, answer)?;
    match asked(alloc, cursor.commit, &reached.state) {
        Ok(next) => Ok((reached, next)),
        Err(NoMemory) => {
            drop(reached);
            Err(NoMemory)
        }
    }
}

/// The cursor stands there.
pub fn put(cursor: &mut Cursor, reached: Reached)
    ensures { cursor.new ≡ record cursor.old { whole = reached.whole; stack = reached.stack; state = reached.state } }
{
    put_in(&mut cursor.whole, reached.whole);
    put_in(&mut cursor.stack, reached.stack);
    put_in(&mut cursor.state, reached.state);
}

/// What comes next.
fn following(
    cursor: &Cursor,
    alloc: Global,
    set: &RouteSet,
    answer: Option<&Answer>,
) -> Result<Reached, NoMemory>
    requires { MatchOption answer (IsFirst cursor.now) (λ a. (IsFirst cursor.now → ⊥) × AnswerFits (rest set.now cursor.now []) a.now) }
    ensures rest { IfOk result (λ r. (A : List AnAnswer) → rest_of set.now cursor.now.commit (item_of cursor.now.origin) cursor.now.context r.whole r.stack.items r.state A ≡ rest set.now cursor.now (answers_of answer.entry ++ A)) }
    ensures later { IfOk result (λ r. IsStarting r.state → ⊥) }
{
    match answer {
        None => opened(cursor, alloc, set),
        Some(answer) => answered(cursor, alloc, set, answer),
    }
}

/// Up to the first request.
#[tactic(auto, unfolding(eip_progress::specs::Rest::rest, eip_progress::specs::Rest::IsFirst))]
fn opened(cursor: &Cursor, alloc: Global, set: &RouteSet) -> Result<Reached, NoMemory>
    requires { IsFirst cursor.now }
    ensures rest { IfOk result (λ r. (A : List AnAnswer) → rest_of set.now cursor.now.commit (item_of cursor.now.origin) cursor.now.context r.whole r.stack.items r.state A ≡ rest set.now cursor.now A) }
    ensures later { IfOk result (λ r. IsStarting r.state → ⊥) }
{
    let State::Starting(work, message) = &cursor.state else {
        unreachable!()
    };
    let mut stack = copy_frames(alloc, &cursor.stack)?;
    let mut whole = None;
    let mut message = message.copy(alloc)?;
    let course = first_turns(
        alloc,
        set,
        cursor.context,
        work,
        &mut message,
        &mut whole,
        &mut stack,
    )?;
    Ok(Reached {
        whole,
        stack,
        state: into_state(course, message),
    })
}

/// The work of a birth up to the first request, before the frames of this stack; the endpoint of a send that is the whole work goes
/// into its place.
pub fn first_turns(
    alloc: Global,
    set: &RouteSet,
    context: Context,
    work: &Work,
    message: &mut Message,
    whole: &mut Option<Boxed<Uri>>,
    stack: &mut Vec<Frame>,
) -> Result<Course, NoMemory>
    ensures rest { IfOk result (λ x. (commit : Bool) (item : List ℕ) (A : List AnAnswer) → rest_of set.now commit item context whole.new stack.new.items (state_of x message.new) A
        ≡ finished commit item (place_in context 0) (behind_all set.now stack.old.items (work_mean set.now context work.now message.old A))) }
    ensures last { IfOk result (λ x. IsLast x) }
{
    let course = begun(alloc, set, context, work, message, whole)?;
    run(alloc, set, stack, message, course)
}

/// The work of a birth begins.
fn begun(
    alloc: Global,
    set: &RouteSet,
    context: Context,
    work: &Work,
    message: &mut Message,
    whole: &mut Option<Boxed<Uri>>,
) -> Result<Course, NoMemory>
    ensures { IfOk result (λ n. (A : List AnAnswer) → now_mean set.now whole.new (now_of n message.new) A ≡ work_mean set.now context work.now message.old A) }
{
    match work {
        Work::Block(block) => Ok(Course::Enters {
            context,
            block: *block,
        }),
        Work::To(text) => {
            let course = sent(alloc, set, context, text, message, whole)?;
            Ok(course)
        }
    }
}

/// One send to the endpoint that a text names, which goes into its place; a text that names none is no send.
fn sent(
    alloc: Global,
    set: &RouteSet,
    context: Context,
    text: &Text,
    message: &mut Message,
    whole: &mut Option<Boxed<Uri>>,
) -> Result<Course, NoMemory>
    ensures { IfOk result (λ n. (A : List AnAnswer) → now_mean set.now whole.new (now_of n message.new) A ≡ send_to set.now context (read text.now []) message.old A) }
{
    match Uri::read(alloc, text, &[]) {
        Ok(uri) => {
            put_in(whole, Some(Boxed::of(alloc, uri)?));
            let course = begin_whole(alloc, set, whole, context, 1000, message)?;
            Ok(course)
        }
        Err(fault) => {
            if is_want_of_memory(&fault) {
                return Err(NoMemory);
            }
            Ok(Course::Goes)
        }
    }
}

fn is_want_of_memory(fault: &UriFault) -> bool
    ensures { result ≡ false → fault.now ≢ NoMemoryLeft }
{
    match fault {
        UriFault::NoMemory => true,
        UriFault::UnknownScheme
        | UriFault::BadUri(_)
        | UriFault::UnknownOption(_)
        | UriFault::BadOption(_)
        | UriFault::DoubleOption(_) => false,
    }
}

/// What follows an answer, by turns of the steps up to the next request; what they take is a copy.
#[tactic(auto, unfolding(eip_progress::specs::Rest::rest, eip_progress::specs::Rest::IsFirst))]
pub fn answered(
    cursor: &Cursor,
    alloc: Global,
    set: &RouteSet,
    answer: &Answer,
) -> Result<Reached, NoMemory>
    requires later { IsFirst cursor.now → ⊥ }
    requires fits { AnswerFits (rest set.now cursor.now []) answer.now }
    ensures rest { IfOk result (λ r. (A : List AnAnswer) → rest_of set.now cursor.now.commit (item_of cursor.now.origin) cursor.now.context r.whole r.stack.items r.state A ≡ rest set.now cursor.now (answer.now ∷ A)) }
    ensures later { IfOk result (λ r. IsStarting r.state → ⊥) }
{
    let mut stack = copy_frames(alloc, &cursor.stack)?;
    let whole = copy_whole(alloc, &cursor.whole)?;
    match &cursor.state {
        State::Runs(wait) => {
            let mut message = message_in(wait).copy(alloc)?;
            let course = on_answer(alloc, set, &whole, wait, &mut message, answer)?;
            let course = run(alloc, set, &mut stack, &mut message, course)?;
            Ok(Reached {
                whole,
                stack,
                state: into_state(course, message),
            })
        }
        State::Finishing(end, message) => {
            let origin = &cursor.origin;
            let state = end_answered(
                alloc,
                cursor.commit,
                origin,
                cursor.context,
                end,
                message,
                answer,
            )?;
            Ok(Reached {
                whole,
                stack,
                state,
            })
        }
        State::Starting(_, _) | State::Over(_, _) => unreachable!(),
    }
}

fn copy_whole(alloc: Global, whole: &Option<Boxed<Uri>>) -> Result<Option<Boxed<Uri>>, NoMemory>
    ensures { IfOk result (λ u. u ≡ whole.now) }
{
    match whole {
        Some(uri) => Ok(Some(Boxed::of(alloc, uri.get().copy(alloc)?)?)),
        None => Ok(None),
    }
}
