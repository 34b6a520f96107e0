ghost use Rattle.std.specs.Prelude.{◌≡◌, ◌<◌, Ok, Some, None, length, map, drop, IfOk, IfErr, if◌then◌else◌};
ghost use Rattle.eip_uri.specs.Sides.{is_producer};
ghost use Rattle.eip_router.specs.Faults.{IsFault};
ghost use Rattle.eip_router.specs.Recipients as spec;

use crate::fault::RecipientFault;
use crate::items::items_of;
use eip_pieces::pieces;
use eip_text::{NoMemory, Text};
use eip_uri::{Uri, UriFault};
use std::alloc::Global;

/// How many recipients there may be.
const LIMIT: usize = 10_000;

/// The endpoints that a text lists, in its order (Hohpe and Woolf, *Recipient List*; Camel manual,
/// *Recipient List EIP*).
///
/// The text is cut at each place of the delimiter from the left, each item loses the blanks (space and
/// tab) at both its ends, and empty items are skipped. Each other item is a URI that stands at `to`.
///
/// `TooManyParts` exactly where more than 10,000 items are not empty, with their number; else
/// `BadRecipient` exactly where one of them isn't such a URI, with the place of the first, from 0 among
/// those that are not empty.
#[tactic(auto, unfolding(crate::specs::Recipients::recipients))]
pub fn recipients(alloc: Global, value: &Text, delimiter: &Text) -> Result<Vec<Uri>, RecipientFault>
    requires { 0 < length delimiter.now }
    ensures uris { IfOk result (λ us. spec.recipients delimiter.now value.now ≡ Ok us.items) }
    ensures accepted { IfOk result (λ us. spec.AreTargets us.items) }
    ensures fault { IfErr result (λ e. IsFault e (spec.recipients delimiter.now value.now)) }
{
    let pieces = pieces(alloc, value.as_str(), delimiter.as_str())?;
    let items = items_of(alloc, &pieces)?;
    if items.len() > LIMIT {
        return Err(RecipientFault::TooManyParts(items.len()));
    }
    read_all(alloc, &items)
}

/// The endpoints of these items, or the place of the first that isn't one.
fn read_all(alloc: Global, items: &[&str]) -> Result<Vec<Uri>, RecipientFault>
    ensures uris { IfOk result (λ us. spec.read_from 0 (map (λ x. x.now) items.now) ≡ Ok us.items) }
    ensures fault { IfErr result (λ e. IsFault e (spec.read_from 0 (map (λ x. x.now) items.now))) }
{
    let mut uris = Vec::with_capacity(alloc, items.len())?;
    for (index, item) in items.iter().enumerate() {
        let Some(uri) = recipient(alloc, item)? else {
            return Err(RecipientFault::BadRecipient(index));
        };
        uris.push(uri)?;
    }
    Ok(uris)
}

/// The endpoint that an item names, where a message may be sent to it.
#[tactic(auto, unfolding(crate::specs::Recipients::recipient))]
fn recipient(alloc: Global, item: &str) -> Result<Option<Uri>, NoMemory>
    ensures { IfOk result (λ u. u ≡ spec.recipient item.now) }
{
    let text = Text::of_str(alloc, item)?;
    match Uri::read(alloc, &text, &[]) {
        Ok(uri) => Ok(producer(uri)),
        Err(fault) => match &fault {
            UriFault::NoMemory => Err(NoMemory),
            UriFault::UnknownScheme => Ok(None),
            UriFault::BadUri(_) => Ok(None),
            UriFault::UnknownOption(_) => Ok(None),
            UriFault::BadOption(_) => Ok(None),
            UriFault::DoubleOption(_) => Ok(None),
        },
    }
}

fn producer(uri: Uri) -> Option<Uri>
    ensures { result ≡ (if is_producer uri then Some uri else None) }
{
    if uri.is_producer() {
        return Some(uri);
    }
    drop(uri);
    None
}
