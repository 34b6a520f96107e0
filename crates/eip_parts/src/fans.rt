ghost use Rattle.std.specs.Prelude.{◌≡◌, ◌≢◌, ◌++◌, ◌∷◌, ◌&&◌, true, [], map, is_some, Ok, IfOk, IfErr};
ghost use Rattle.eip_splitter.specs.Faults.{IsFault as IsSplitFault};
ghost use Rattle.eip_splitter.specs.Splitting.{HasToken};
ghost use Rattle.eip_splitter.specs.declared.fault.SplitFault.TheVariants.{NoMemory as NoMemoryLeft};
ghost use Rattle.eip_router.specs.declared.fault.RecipientFault.TheVariants.{NoMemory as NoMemoryHere};
ghost use Rattle.eip_router.specs.Faults.{IsFault as IsRecipientFault};
ghost use Rattle.eip_strategy.specs.Folding.{folded};
ghost use Rattle.eip_meaning.specs.FanOuts as spec;
ghost use Rattle.eip_meaning.specs.Parts.{block_seed, send_seed, first_born, count_born, parts_in, first_fault, messages_of, made_one};
ghost use Rattle.eip_uri.specs.Printed.{printed};
ghost use Rattle.eip_progress.specs.FirstTry.{fan_tried, pieces_tried, branches_tried, listed_tried};
ghost use Rattle.eip_progress.specs.Answered.{taken_tried, join_tried, next_seed, next_tried, fan_on};
ghost use Rattle.eip_parts.specs.Effects.{tried_of};

use crate::effect::Effect;
use crate::faults::{bare_fault, counted_fault, strategy_fault, too_many_parts};
use crate::messages::set_content;
use eip_copies::{copy_ended, copy_queue};
use eip_exchange::{Care, End, Ended, Fault, How, Message, Strategy, Work};
use eip_frames::{Answer, Request, Seed};
use eip_meaning::Context;
use eip_progress::{Progress, Queue};
use eip_route::Fan;
use eip_router::{RecipientFault, recipients};
use eip_splitter::{SplitFault, parts};
use eip_strategy::fold;
use eip_text::{NoMemory, Series, Text};
use eip_uri::Uri;
use std::alloc::Global;

/// How many parts a fan-out has at most.
const PARTS: usize = 10_000;

// ---- the seeds

/// A part for each piece of the body (Camel manual, *Split EIP*).
#[tactic(auto, using(crate::proofs::Refusing::split_refused))]
pub fn split(
    alloc: Global,
    context: Context,
    how: &How,
    fan: &Fan,
    block: u32,
    message: &mut Message,
) -> Result<Effect, NoMemory>
    ensures { IfOk result (λ e. tried_of e message.new ≡ pieces_tried (spec.cut how.now message.old) context fan.now block message.old) }
{
    match cut(alloc, how, message) {
        Ok(pieces) => split_into(alloc, context, fan, block, pieces, message),
        Err(fault) => {
            let fault = split_fault(alloc, fault)?;
            Effect::faulting(alloc, fault, false)
        }
    }
}

fn split_into(
    alloc: Global,
    context: Context,
    fan: &Fan,
    block: u32,
    pieces: Vec<Message>,
    message: &mut Message,
) -> Result<Effect, NoMemory>
    ensures { IfOk result (λ e. tried_of e message.new ≡ pieces_tried (Ok pieces.items) context fan.now block message.old) }
{
    let care = context.care_of_parts(fan.share);
    let seeds = piece_seeds(alloc, care, block, pieces)?;
    fan_out(alloc, fan, seeds, message)
}

/// The pieces of a message; an empty token cuts nothing.
fn cut(alloc: Global, how: &How, message: &Message) -> Result<Vec<Message>, SplitFault>
    ensures pieces { IfOk result (λ ps. spec.cut how.now message.now ≡ Ok ps.items) }
    ensures fault { IfErr result (λ e. IsSplitFault e (spec.cut how.now message.now)) }
{
    if can_cut(how) {
        parts(alloc, message, how)
    } else {
        Ok(Vec::new(alloc))
    }
}

fn can_cut(how: &How) -> bool
    ensures value { result ≡ spec.can_cut how.now }
    ensures token { result ≡ true → HasToken how.now }
{
    match how {
        How::Token(token) => 0 < token.bytes().len(),
        How::JsonArray => true,
        How::Batch(_) => true,
    }
}

fn split_fault(alloc: Global, found: SplitFault) -> Result<Fault, NoMemory>
    ensures fault { IfOk result (λ f. f ≡ spec.fault_of_split found) }
    ensures memory { IfOk result (λ _. found ≢ NoMemoryLeft) }
{
    match found {
        SplitFault::TooManyParts(count) => Ok(too_many_parts(alloc, count)?),
        SplitFault::NotArray => Ok(bare_fault(alloc, "NotArray")?),
        SplitFault::NoMemory => Err(NoMemory),
    }
}

fn piece_seeds(
    alloc: Global,
    care: Care,
    block: u32,
    pieces: Vec<Message>,
) -> Result<Vec<Seed>, NoMemory>
    ensures { IfOk result (λ v. v.items ≡ map (λ piece. block_seed care block piece) pieces.items) }
{
    let mut seeds = Vec::with_capacity(alloc, pieces.len())?;
    for piece in pieces {
        seeds.push(block_seed(care, block, piece))?;
    }
    Ok(seeds)
}

/// A part that runs a block.
pub fn block_seed(care: Care, block: u32, message: Message) -> Seed
    ensures { result ≡ block_seed care block message }
{
    Seed {
        work: Work::Block(block),
        care,
        message,
    }
}

/// A part for each block (Camel manual, *Multicast EIP*).
pub fn multicast(
    alloc: Global,
    context: Context,
    fan: &Fan,
    blocks: &[u32],
    message: &mut Message,
) -> Result<Effect, NoMemory>
    ensures { IfOk result (λ e. tried_of e message.new ≡ branches_tried context fan.now blocks.now message.old) }
{
    if blocks.len() <= PARTS {
        let care = context.care_of_parts(fan.share);
        let seeds = branch_seeds(alloc, care, blocks, message)?;
        fan_out(alloc, fan, seeds, message)
    } else {
        let fault = too_many_parts(alloc, blocks.len())?;
        Effect::faulting(alloc, fault, false)
    }
}

fn branch_seeds(
    alloc: Global,
    care: Care,
    blocks: &[u32],
    message: &Message,
) -> Result<Vec<Seed>, NoMemory>
    ensures { IfOk result (λ v. v.items ≡ map (λ b. block_seed care b message.now) blocks.now) }
{
    let mut seeds = Vec::with_capacity(alloc, blocks.len())?;
    for block in blocks {
        seeds.push(block_seed(care, *block, message.copy(alloc)?))?;
    }
    Ok(seeds)
}

/// A part for each endpoint that a value lists (Camel manual, *Recipient List EIP*).
#[tactic(auto, using(crate::proofs::Refusing::recipients_refused))]
pub fn recipient_list(
    alloc: Global,
    context: Context,
    fan: &Fan,
    delimiter: &Text,
    value: &Text,
    message: &mut Message,
) -> Result<Effect, NoMemory>
    ensures { IfOk result (λ e. tried_of e message.new ≡ listed_tried (spec.listed delimiter.now value.now) context fan.now message.old) }
{
    match listed(alloc, delimiter, value) {
        Ok(uris) => send_to_each(alloc, context, fan, &uris, message),
        Err(fault) => {
            let fault = recipient_fault(alloc, fault)?;
            Effect::faulting(alloc, fault, false)
        }
    }
}

fn send_to_each(
    alloc: Global,
    context: Context,
    fan: &Fan,
    uris: &[Uri],
    message: &mut Message,
) -> Result<Effect, NoMemory>
    ensures { IfOk result (λ e. tried_of e message.new ≡ listed_tried (Ok uris.now) context fan.now message.old) }
{
    let care = context.care_of_parts(fan.share);
    let seeds = recipient_seeds(alloc, care, uris, message)?;
    fan_out(alloc, fan, seeds, message)
}

/// The endpoints that a value lists; between empty delimiters there is none.
fn listed(alloc: Global, delimiter: &Text, value: &Text) -> Result<Vec<Uri>, RecipientFault>
    ensures uris { IfOk result (λ us. spec.listed delimiter.now value.now ≡ Ok us.items) }
    ensures fault { IfErr result (λ e. IsRecipientFault e (spec.listed delimiter.now value.now)) }
{
    if 0 < delimiter.bytes().len() {
        recipients(alloc, value, delimiter)
    } else {
        Ok(Vec::new(alloc))
    }
}

fn recipient_fault(alloc: Global, found: RecipientFault) -> Result<Fault, NoMemory>
    ensures fault { IfOk result (λ f. f ≡ spec.fault_of_recipient found) }
    ensures memory { IfOk result (λ _. found ≢ NoMemoryHere) }
{
    match found {
        RecipientFault::TooManyParts(count) => Ok(too_many_parts(alloc, count)?),
        RecipientFault::BadRecipient(place) => Ok(counted_fault(alloc, "BadRecipient", place)?),
        RecipientFault::NoMemory => Err(NoMemory),
    }
}

fn recipient_seeds(
    alloc: Global,
    care: Care,
    uris: &[Uri],
    message: &Message,
) -> Result<Vec<Seed>, NoMemory>
    ensures { IfOk result (λ v. v.items ≡ map (λ u. send_seed care (printed u) message.now) uris.now) }
{
    let mut seeds = Vec::with_capacity(alloc, uris.len())?;
    for uri in uris {
        seeds.push(Seed {
            work: Work::To(uri.print(alloc)?),
            care,
            message: message.copy(alloc)?,
        })?;
    }
    Ok(seeds)
}

// ---- their order

/// All parts at once, or the first of them; without any the message goes on.
#[tactic(auto, using(crate::proofs::Seeding::at_once, crate::proofs::Seeding::none, crate::proofs::Seeding::in_turn))]
fn fan_out(
    alloc: Global,
    fan: &Fan,
    seeds: Vec<Seed>,
    message: &mut Message,
) -> Result<Effect, NoMemory>
    ensures { IfOk result (λ e. tried_of e message.new ≡ fan_tried fan.now seeds.items message.old) }
{
    if seeds.is_empty() {
        return Ok(Effect::Goes);
    }
    if fan.parallel {
        let parts = Series::of(seeds);
        let request = Request::Spawn { parts };
        return Effect::asking(alloc, Progress::SpawningAll, request, 0);
    }
    let ended = Vec::new(alloc);
    next_seed(
        alloc,
        &Strategy::Original,
        ended,
        0,
        Queue::of(seeds),
        message,
    )
}

/// The next part, or what all of them give.
fn next_seed(
    alloc: Global,
    strategy: &Strategy,
    ended: Vec<Ended>,
    index: u32,
    mut left: Queue<Seed>,
    message: &mut Message,
) -> Result<Effect, NoMemory>
    ensures { IfOk result (λ e. tried_of e message.new ≡ next_seed strategy.now ended.items index left message.old) }
{
    match left.take() {
        Some(seed) => {
            let parts = one(alloc, seed)?;
            let progress = Progress::Spawning {
                index,
                ended: Series::of(ended),
                left,
            };
            Effect::asking(alloc, progress, Request::Spawn { parts }, index)
        }
        None => join(alloc, strategy, ended, message),
    }
}

/// One seed alone.
pub fn one(alloc: Global, seed: Seed) -> Result<Series<Seed>, NoMemory>
    ensures { IfOk result (λ s. s ≡ seed ∷ []) }
{
    let mut parts = Vec::new(alloc);
    parts.push(seed)?;
    Ok(Series::of(parts))
}

// ---- answers

/// What an answer gives at a fan-out.
pub fn fan_answered(
    alloc: Global,
    strategy: &Strategy,
    stop: bool,
    progress: &Progress,
    message: &mut Message,
    answer: &Answer,
) -> Result<Effect, NoMemory>
    ensures { IfOk result (λ e. tried_of e message.new ≡ fan_on strategy.now stop progress.now message.old answer.now) }
{
    match progress {
        Progress::SpawningAll => { Effect::asking(alloc, Progress::JoiningAll, waits(answer), 0) }
        Progress::JoiningAll => join(alloc, strategy, parts_in(alloc, answer)?, message),
        Progress::Spawning { index, ended, left } => {
            let progress = joining(alloc, *index, ended.items(), left)?;
            Effect::asking(alloc, progress, waits(answer), *index)
        }
        Progress::Joining { index, ended, left } => {
            let parts = parts_in(alloc, answer)?;
            let ended = copy_ended(alloc, ended.items())?;
            let left = copy_queue(alloc, left)?;
            next_part(alloc, strategy, stop, ended, *index, left, parts, message)
        }
        Progress::First
        | Progress::Choosing(_)
        | Progress::Entering { .. }
        | Progress::Leaving { .. }
        | Progress::Testing { .. } => Ok(Effect::Goes),
    }
}

/// The part at this index is waited for, behind these and before those.
fn joining(
    alloc: Global,
    index: u32,
    ended: &[Ended],
    left: &Queue<Seed>,
) -> Result<Progress, NoMemory>
    ensures { IfOk result (λ p. p ≡ Progress.Joining index ended.now left.now) }
{
    let ended = Series::of(copy_ended(alloc, ended)?);
    let left = copy_queue(alloc, left)?;
    Ok(Progress::Joining { index, ended, left })
}

/// Those that were born are waited for.
pub fn waits(answer: &Answer) -> Request
    ensures { result ≡ Request.Join (first_born answer.now) (count_born answer.now) }
{
    match answer {
        Answer::Born { first, count } => Request::Join {
            first: *first,
            count: *count,
        },
        _ => Request::Join { first: 0, count: 0 },
    }
}

/// The parts that have ended.
pub fn parts_in(alloc: Global, answer: &Answer) -> Result<Vec<Ended>, NoMemory>
    ensures { IfOk result (λ v. v.items ≡ parts_in answer.now) }
{
    match answer {
        Answer::Joined(parts) => copy_ended(alloc, parts.items()),
        _ => Ok(Vec::new(alloc)),
    }
}

fn next_part(
    alloc: Global,
    strategy: &Strategy,
    stop: bool,
    ended: Vec<Ended>,
    index: u32,
    left: Queue<Seed>,
    parts: Vec<Ended>,
    message: &mut Message,
) -> Result<Effect, NoMemory>
    ensures { IfOk result (λ e. tried_of e message.new ≡ next_tried strategy.now stop ended.items index left parts.items message.old) }
{
    if stops(stop, &parts) {
        let ended = with_parts(ended, parts)?;
        join(alloc, strategy, ended, message)
    } else {
        let ended = with_parts(ended, parts)?;
        next_seed(
            alloc,
            strategy,
            ended,
            index.saturating_add(1),
            left,
            message,
        )
    }
}

/// Whether a fan-out stops behind parts that have ended.
pub fn stops(stop: bool, parts: &[Ended]) -> bool
    ensures { result ≡ (stop && is_some (first_fault parts.now)) }
{
    stop && has_fault(parts)
}

fn has_fault(parts: &[Ended]) -> bool
    ensures { result ≡ is_some (first_fault parts.now) }
{
    for part in parts {
        if let End::Failed(_) = &part.end {
            return true;
        }
    }
    false
}

fn with_parts(ended: Vec<Ended>, parts: Vec<Ended>) -> Result<Vec<Ended>, NoMemory>
    ensures { IfOk result (λ v. v.items ≡ ended.items ++ parts.items) }
{
    let mut all = ended;
    for part in parts {
        all.push(part)?;
    }
    Ok(all)
}

// ---- their messages in one

/// What the parent does behind its parts: the fault of the least index is its own.
fn join(
    alloc: Global,
    strategy: &Strategy,
    parts: Vec<Ended>,
    message: &mut Message,
) -> Result<Effect, NoMemory>
    ensures { IfOk result (λ e. tried_of e message.new ≡ join_tried strategy.now parts.items message.old) }
{
    match first_fault(&parts)? {
        Some(fault) => Effect::faulting(alloc, fault, false),
        None => take_over(alloc, strategy, parts, message),
    }
}

/// The fault of the least index.
fn first_fault(parts: &[Ended]) -> Result<Option<Fault>, NoMemory>
    ensures { IfOk result (λ f. f ≡ first_fault parts.now) }
{
    for part in parts {
        if let End::Failed(fault) = &part.end {
            return Ok(Some(fault.copy()?));
        }
    }
    Ok(None)
}

fn take_over(
    alloc: Global,
    strategy: &Strategy,
    parts: Vec<Ended>,
    message: &mut Message,
) -> Result<Effect, NoMemory>
    ensures { IfOk result (λ e. tried_of e message.new ≡ taken_tried (made_one strategy.now message.old (messages_of parts.items)) message.old) }
{
    match strategy {
        Strategy::Original => Ok(Effect::Goes),
        Strategy::Latest
        | Strategy::Joined(_)
        | Strategy::Grouped
        | Strategy::Sum
        | Strategy::Batch => {
            let messages = messages_of(alloc, parts)?;
            fold_over(alloc, strategy, &messages, message)
        }
    }
}

fn messages_of(alloc: Global, parts: Vec<Ended>) -> Result<Vec<Message>, NoMemory>
    ensures { IfOk result (λ v. v.items ≡ messages_of parts.items) }
{
    let mut messages = Vec::with_capacity(alloc, parts.len())?;
    for part in parts {
        messages.push(part.message)?;
    }
    Ok(messages)
}

fn fold_over(
    alloc: Global,
    strategy: &Strategy,
    messages: &[Message],
    message: &mut Message,
) -> Result<Effect, NoMemory>
    ensures { IfOk result (λ e. tried_of e message.new ≡ taken_tried (folded strategy.now messages.now) message.old) }
{
    match fold(alloc, strategy, messages) {
        Ok(Some(new)) => {
            set_content(message, new);
            Ok(Effect::Goes)
        }
        Ok(None) => Ok(Effect::Goes),
        Err(fault) => {
            let fault = strategy_fault(alloc, fault)?;
            Effect::faulting(alloc, fault, false)
        }
    }
}
