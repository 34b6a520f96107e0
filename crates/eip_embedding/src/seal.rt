ghost use Rattle.std.specs.Prelude.{◌≡◌, IfOk};
ghost use Rattle.eip_embedding.specs.Seals.{digest_behind, seal_of, answer_of};

use eip_exchange::{Fault, HeaderFault, Message};
use eip_processor::{ProcessFault, Processor};
use eip_text::{NoMemory, Text};
use sha2::{Digest, Sha256};
use std::alloc::Global;
use std::marker::Model;

/// The header that a seal sets, and the text of its fault.
const SEAL: &str = "seal";

/// A processor that seals messages: it sets the header `seal` to the SHA-256 digest (FIPS 180-4) of the body, taken again over the digest
/// as many times as there are rounds, in hexadecimal digits. It raises `TooManyHeaders` with the text `seal` exactly where that would be
/// a header too many. Contracts see it as its number of rounds.
#[derive(Drop)]
pub struct Seal {
    rounds: u32,
    alloc: Global,
}

impl Model for Seal {
    ghost use Rattle.std.specs.Prelude.{ℕ};

    ghost Value = { ℕ };

    ghost view = { λ s. s.rounds };
}

impl Seal {
    /// The seal of so many rounds. It takes no memory.
    pub fn new(alloc: Global, rounds: u32) -> Seal
        ensures { result ≡ rounds }
    {
        Seal { rounds, alloc }
    }

    /// The message with the header, or the fault where that is one too many.
    fn answer(&self, message: &Message) -> Result<Result<Message, Fault>, NoMemory>
        ensures { IfOk result (λ r. r ≡ answer_of self.now message.now) }
    {
        let alloc = self.alloc;
        let value = seal_of(alloc, self.rounds, message.body.bytes())?;
        let mut answer = message.copy(alloc)?;
        match answer.headers.set(Text::of_str(alloc, SEAL)?, value) {
            Ok(()) => Ok(Ok(answer)),
            Err(HeaderFault::TooManyHeaders) => Ok(Err(Fault {
                kind: Text::of_str(alloc, "TooManyHeaders")?,
                text: Text::of_str(alloc, SEAL)?,
            })),
            Err(HeaderFault::NoMemory) => Err(NoMemory),
        }
    }
}

impl Processor for Seal {
    ghost use Rattle.eip_embedding.specs.Seals.{Seals};

    ghost relates = { Seals };

    fn process(&self, message: &Message) -> Result<Message, ProcessFault> {
        match self.answer(message) {
            Ok(Ok(answer)) => Ok(answer),
            Ok(Err(fault)) => Err(ProcessFault::Raised(fault)),
            Err(NoMemory) => Err(ProcessFault::NoMemory),
        }
    }
}

/// The seal of a body, in hexadecimal digits.
fn seal_of(alloc: Global, rounds: u32, body: &[u8]) -> Result<Text, NoMemory>
    ensures { IfOk result (λ t. t ≡ seal_of rounds body.now) }
{
    let digits = hex::encode(alloc, digest_behind(rounds, body))?;
    Text::of_str(alloc, digits.as_str())
}

/// The digest of a body, taken again over the digest so many times.
fn digest_behind(rounds: u32, body: &[u8]) -> [u8; 32]
    ensures { result ≡ digest_behind rounds body.now }
{
    let mut digest = Sha256::digest(body);
    for _round in 0..rounds {
        let next = Sha256::digest(digest);
        digest = next;
    }
    digest
}
