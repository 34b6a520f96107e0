ghost use Rattle.std.specs.Prelude.{◌≡◌, IfOk, None};
ghost use Rattle.eip_text.specs.Causes.{Rises};
ghost use Rattle.eip_endpoint.specs.Pulls.{IsFair, pull_failure};

use eip_endpoint::{CommitFault, PullFault, Pulled, Refusal, Source};
use eip_exchange::{End, Message};
use eip_text::{NoMemory, Text, decimal};
use eip_uri::Uri;
use std::alloc::Global;

/// Lines in memory as standard input gives them, each under its number from 1. The pull with the number `failing`, from 1,
/// fails. It tells no content.
#[derive(Drop)]
pub struct Lines {
    alloc: Global,
    lines: Vec<Text>,
    failing: u64,
    given: u64,
    pulls: u64,
    faults: u64,
}

/// The line with this number: an item, where it is no longer than a body may be.
fn pulled_of(alloc: Global, number: u64, line: &Text) -> Result<Pulled, NoMemory>
    ensures { IfOk result IsFair }
{
    let item = decimal(alloc, number)?;
    let body = line.copy()?;
    if body.bytes().len() > 65_536 {
        let cause = Refusal::TooLong;
        return Ok(Pulled::Refused { item, cause });
    }
    let message = Message::of_body(alloc, body);
    Ok(Pulled::Item { item, message })
}

impl Lines {
    pub fn new(alloc: Global, lines: Vec<Text>, failing: u64) -> Lines {
        Lines {
            alloc,
            lines,
            failing,
            given: 0,
            pulls: 0,
            faults: 0,
        }
    }

    /// Gives the next line, or the end where none is left.
    fn give(&mut self) -> Result<Pulled, PullFault>
        ensures fair { IfOk result IsFair }
        ensures faults { self.new.faults ≡ self.old.faults }
        ensures failed { pull_failure result ≡ 0 }
    {
        let Some(line) = self.lines.get(self.given as usize) else {
            return Ok(Pulled::End);
        };
        let number = self.given.saturating_add(1);
        let Ok(pulled) = pulled_of(self.alloc, number, line) else {
            return Err(PullFault::NoMemory);
        };
        self.given = number;
        Ok(pulled)
    }
}

impl Source for Lines {
    ghost given = { λ _ _. None };

    ghost left = { λ _ _. None };

    ghost commits = { λ _ _. None };

    ghost inlet_faults = { λ s. s.faults };

    fn pull(&mut self, _from: &Uri) -> Result<Pulled, PullFault> {
        self.pulls = self.pulls.saturating_add(1);
        if self.pulls == self.failing {
            self.faults = self.faults.saturating_add(1);
            return Err(PullFault::Failed);
        }
        self.give()
    }

    fn commit(&mut self, _from: &Uri, _item: &Text, _end: &End) -> Result<(), CommitFault> {
        Ok(())
    }
}
