ghost use Rattle.std.specs.Prelude.{◌≡◌, ◌<◌, Ok, length, IfOk, IfErr};
ghost use Rattle.eip_splitter.specs.Faults.{IsFault};
ghost use Rattle.eip_splitter.specs.Splitting as spec;

use crate::array::element_bodies;
use crate::batch::batch_parts;
use crate::fault::SplitFault;
use crate::numbered::numbered;
use crate::token::token_bodies;
use eip_exchange::{How, Message};
use eip_text::Text;
use std::alloc::Global;

/// The parts of a message (Hohpe and Woolf, *Splitter*; Camel manual, *Split EIP*), in their order.
///
/// Each has the message's headers and properties, a piece of its body, and three properties more:
/// `CamelSplitIndex`, from 0, `CamelSplitSize`, the number of parts, and `CamelSplitComplete`, which is
/// `true` for the last part and else `false`.
///
/// A token cuts the body at each of its places from the left, and a last piece that is empty is left out;
/// where the token is LF, each piece then loses one CR at its end. A JSON array (RFC 8259) gives its
/// elements: a text as it is, every other element as compact JSON with its keys in byte order. A batch
/// gives the messages that are packed in it, in the order of their keys (Camel manual, *Resequence EIP*),
/// each with its own headers and properties in place of the message's; those of equal keys stay in the order
/// in which they were packed.
///
/// `NotArray` exactly where a body that is to be a JSON array is none, or holds a number that isn't whole,
/// or where one that is to be a batch isn't packed, or has a message whose headers or properties are no list
/// that `Headers` or `Properties` can hold; else `TooManyParts` exactly where there are more than 10,000
/// parts, with their number.
#[tactic(auto, unfolding(crate::specs::Splitting::parts))]
pub fn parts(alloc: Global, message: &Message, how: &How) -> Result<Vec<Message>, SplitFault>
    requires { spec.HasToken how.now }
    ensures parts { IfOk result (λ ps. spec.parts how.now message.now ≡ Ok ps.items) }
    ensures fault { IfErr result (λ e. IsFault e (spec.parts how.now message.now)) }
{
    match how {
        How::Token(token) => token_parts(alloc, message, token),
        How::JsonArray => array_parts(alloc, message),
        How::Batch(key) => batch_parts(alloc, message, key),
    }
}

fn token_parts(alloc: Global, message: &Message, token: &Text) -> Result<Vec<Message>, SplitFault>
    requires { 0 < length token.now }
    ensures parts { IfOk result (λ ps. spec.token_parts token.now message.now ≡ Ok ps.items) }
    ensures fault { IfErr result (λ e. IsFault e (spec.token_parts token.now message.now)) }
{
    let bodies = token_bodies(alloc, message.body.as_str(), token.as_str())?;
    Ok(numbered(alloc, message, bodies)?)
}

fn array_parts(alloc: Global, message: &Message) -> Result<Vec<Message>, SplitFault>
    ensures parts { IfOk result (λ ps. spec.array_parts message.now ≡ Ok ps.items) }
    ensures fault { IfErr result (λ e. IsFault e (spec.array_parts message.now)) }
{
    let bodies = element_bodies(alloc, message.body.bytes())?;
    Ok(numbered(alloc, message, bodies)?)
}
