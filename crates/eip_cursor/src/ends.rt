ghost use Rattle.std.specs.Prelude.{◌≡◌, ◌∷◌, ℕ, true, List, Option, IfOk};
ghost use Rattle.eip_exchange.specs.Ends.{commit_failed};
ghost use Rattle.eip_uri.specs.declared.uri.Uri.{Uri as AUri};
ghost use Rattle.eip_route.specs.declared.route.RouteSet.{RouteSet as ARouteSet};
ghost use Rattle.eip_frames.specs.Fits.{fits};
ghost use Rattle.eip_frames.specs.declared.answer.Answer.{Answer as AnAnswer};
ghost use Rattle.eip_meaning.specs.Contexts.{place_in};
ghost use Rattle.eip_meaning.specs.Meaning.{finish_by, item_of, is_told, is_told_origin};
ghost use Rattle.eip_progress.specs.declared.frame.Frame.{Frame as AFrame};
ghost use Rattle.eip_progress.specs.Rest.{rest_of, IsStarting};

use eip_exchange::{End, Fault, Message, Origin};
use eip_frames::{Answer, Request};
use eip_meaning::Context;
use eip_progress::State;
use eip_route::RouteSet;
use eip_text::{NoMemory, Text};
use eip_uri::{After, Uri};
use std::alloc::Global;

/// What follows the answer to the last request.
pub fn end_answered(
    alloc: Global,
    commit: bool,
    origin: &Origin,
    context: Context,
    end: &End,
    message: &Message,
    answer: &Answer,
) -> Result<State, NoMemory>
    requires { fits (Request.Finish end.now message.now commit) answer.now ≡ true }
    ensures means { IfOk result (λ s. (set : ARouteSet) (whole : Option AUri) (fs : List AFrame) (A : List AnAnswer) → rest_of set commit (item_of origin.now) context whole fs s A ≡ finish_by commit (item_of origin.now) (place_in context 0) end.now message.now (answer.now ∷ A)) }
    ensures later { IfOk result (λ s. IsStarting s → ⊥) }
{
    let end = match answer {
        Answer::CommitFailed => refused(alloc, origin)?,
        _ => end.copy()?,
    };
    Ok(State::Over(end, message.copy(alloc)?))
}

/// The end of an exchange whose source did not take its commit.
fn refused(alloc: Global, origin: &Origin) -> Result<End, NoMemory>
    ensures { IfOk result (λ e. e ≡ commit_failed (item_of origin.now)) }
{
    let kind = Text::of_str(alloc, "CommitFailed")?;
    let text = item_of(alloc, origin)?;
    Ok(End::Failed(Fault { kind, text }))
}

fn item_of(alloc: Global, origin: &Origin) -> Result<Text, NoMemory>
    ensures { IfOk result (λ t. t ≡ item_of origin.now) }
{
    match origin {
        Origin::Source { item, .. } => item.copy(),
        _ => Text::of_str(alloc, ""),
    }
}

/// Whether the source of an exchange is told of its end.
pub fn is_told_origin(set: &RouteSet, origin: &Origin) -> bool
    ensures { result ≡ is_told_origin set.now origin.now }
{
    match origin {
        Origin::Source { route, .. } => match set.routes.items().get(*route as usize) {
            Some(found) => is_told(&found.from),
            None => false,
        },
        _ => false,
    }
}

/// Whether an endpoint's items are told of the end of their exchange: files that are deleted or moved (Camel manual, *File*).
fn is_told(from: &Uri) -> bool
    ensures { result ≡ is_told from.now }
{
    matches!(
        from,
        Uri::File {
            after: After::Delete | After::Move(_),
            ..
        }
    )
}
