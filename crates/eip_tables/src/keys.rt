ghost use Rattle.std.specs.Prelude.{◌≡◌, IfOk, OnErr};
ghost use Rattle.eip_tables.specs.Keys.{IsOffering, OffersAsked, ending_asked, ending_by, key_answer};

use crate::row::Row;
use eip_exchange::{End, Ending};
use eip_frames::{Answer, Request};
use eip_idempotent::{Offered, Repo};
use eip_text::NoMemory;

// Keys of idempotent consumers (Hohpe and Woolf, *Idempotent Receiver*; Camel manual, *Idempotent Consumer EIP*): what an exchange
// offers and is answered, and how its claims are settled.

/// An exchange that hasn't ended offers the key that it asks to offer.
pub fn offer_key(keys: &mut Repo, row: &Row, number: u64) -> Result<Offered, NoMemory>
    requires { IsOffering row.now.request }
    ensures ok { IfOk result (λ answer. OffersAsked row.now.request number keys.old keys.new answer) }
    ensures err { OnErr result (keys.new ≡ keys.old) }
{
    let Some(request) = row.request() else {
        unreachable!()
    };
    let Request::Idem {
        repository,
        key,
        eager,
        remove,
    } = request
    else {
        unreachable!()
    };
    keys.offer(repository, key, number, *eager, *remove)
}

/// What an exchange is answered that offered a key.
pub fn key_answer(offered: Offered) -> Answer
    ensures { result ≡ key_answer offered }
{
    match offered {
        Offered::Fresh => Answer::Fresh,
        Offered::Duplicate(holder) => Answer::Duplicate(holder),
    }
}

/// How an exchange asks to end; None for any other request.
pub fn ending_asked(row: &Row) -> Option<Ending>
    ensures { result ≡ ending_asked row.now.request }
{
    match row.request() {
        Some(Request::Finish { end, .. }) => Some(end.ending()),
        _ => None,
    }
}

/// How an exchange ends that asked to end so, as its source took it.
pub fn ending_by(end: &End, answer: &Answer) -> Ending
    ensures { result ≡ ending_by end.now answer.now }
{
    match answer {
        Answer::CommitFailed => Ending::Failed,
        _ => end.ending(),
    }
}
