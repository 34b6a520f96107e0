ghost use Rattle.std.specs.Prelude.{◌≡◌, ◌<◌, ◌⊎◌, ℕ, List, [], false, bytes_eq, length, vec_len, IfOk, IfErr, IfSome, IsErrOf};
ghost use Rattle.std.specs.Io.KnownBytes.{prepend_known};
ghost use Rattle.eip_text.specs.Causes.{Rises, Rose};
ghost use Rattle.eip_uri.specs.Printed.{printed};
ghost use Rattle.eip_endpoint.specs.Content.{extended, preceded, where_same};
ghost use Rattle.eip_endpoint.specs.Pulls.{given_by, all_taken, EndsAtEnd, IsFair, pull_failure, committed, commit_failure};
ghost use Rattle.eip_keyed.specs.Keyed.{StandsAt};
ghost use Rattle.eip_line.specs.Lines.{Endless as AnEndless, next_line, HasLine};
ghost use Rattle.eip_line.specs.Readers.{TookKnown, link_failure_in};
ghost use Rattle.eip_line.specs.Sources.{untold_items, untold_commits, reader_for, faults_with, pull_answer, endless_behind};

use crate::link::Link;
use crate::reader::{LineFault, LineReader};
use eip_endpoint::{CommitFault, PullFault, Pulled, Source};
use eip_exchange::End;
use eip_keyed::find;
use eip_text::{NoMemory, Text};
use eip_uri::Uri;
use std::alloc::Global;

/// The index of the reader of a URI, where it has one and its printed form is known without memory.
fn standing(readers: &[(Text, LineReader)], from: &Uri) -> Option<usize>
    ensures first { IfSome result (λ k. StandsAt (printed from.now) k readers.now) }
    ensures within { IfSome result (λ k. k < length readers.now) }
{
    match from {
        Uri::StreamIn => find(readers, b"stream:in"),
        _ => None,
    }
}

/// The index of the reader of a printed URI, which is made where it has none yet.
fn place_for(
    alloc: Global,
    readers: &mut Vec<(Text, LineReader)>,
    uri: Text,
) -> Result<usize, NoMemory>
    ensures same { (v : List ℕ) → reader_for v readers.new.items ≡ reader_for v readers.old.items }
    ensures first { IfOk result (λ k. StandsAt uri k readers.new.items) }
    ensures within { IfOk result (λ k. k < vec_len readers.new) }
{
    if let Some(place) = find(readers.as_slice(), uri.bytes()) {
        return Ok(place);
    }
    let place = readers.len();
    readers.push((uri, LineReader::new(alloc)?))?;
    Ok(place)
}

/// The index of the reader of a URI, which is made where it has none yet.
fn place_of(
    alloc: Global,
    readers: &mut Vec<(Text, LineReader)>,
    from: &Uri,
) -> Result<usize, NoMemory>
    ensures same { (v : List ℕ) → reader_for v readers.new.items ≡ reader_for v readers.old.items }
    ensures first { IfOk result (λ k. StandsAt (printed from.now) k readers.new.items) }
    ensures within { IfOk result (λ k. k < vec_len readers.new) }
{
    if let Some(place) = standing(readers.as_slice(), from) {
        return Ok(place);
    }
    let uri = from.print(alloc)?;
    place_for(alloc, readers, uri)
}

/// The next line of the reader with this index, which is the first one of the endpoint. The other readers are as
/// before.
fn next_at<L: Link>(
    alloc: Global,
    readers: &mut [(Text, LineReader)],
    place: usize,
    link: &mut L,
    from: &Uri,
) -> Result<Pulled, LineFault>
    requires within { place < length readers.old }
    requires first { StandsAt (printed from.now) place readers.old }
    ensures ready { HasLine (reader_for (printed from.now) readers.old).buffer → IfErr result (λ f. f ≡ LineFault.NoMemory) }
    ensures endless { IsErrOf result LineFault.Endless → next_line (reader_for (printed from.now) readers.new).buffer ≡ AnEndless }
    ensures took { let u = printed from.now in TookKnown (reader_for u readers.old).lines (prepend_known (reader_for u readers.old).buffer (L.unread link.old)) result (reader_for u readers.new).lines (prepend_known (reader_for u readers.new).buffer (L.unread link.new)) }
    ensures others { (v : List ℕ) → bytes_eq (printed from.now) v ≡ false → reader_for v readers.new ≡ reader_for v readers.old }
    ensures fair { IfOk result IsFair }
    ensures written { L.written link.new ≡ L.written link.old }
    ensures faults { Rises (link_failure_in result) (L.link_faults link.old) (L.link_faults link.new) }
{
    let named = &mut readers[place];
    named.1.next(alloc, link, from)
}

/// A source that gives each line of a link as a message (Camel's component *Stream*, and *Netty* with text lines):
/// each line that an LF ends, without one CR before the LF, and a last line without LF where it is not empty. The item
/// is the line's number, from 1 in decimal, in each endpoint by itself. It tells no content.
#[derive(Drop)]
pub struct LineSource<L> {
    pub alloc: Global,
    pub link: L,
    /// The reader of each endpoint that was pulled from, by its printed URI.
    pub readers: Vec<(Text, LineReader)>,
    /// How many pulls met a line that is too long to wait for its end.
    pub endless: u64,
}

impl<L: Link> LineSource<L> {
    /// The lines of this link, from number 1. It takes no memory.
    pub fn new(alloc: Global, link: L) -> LineSource<L>
        ensures link { result.link ≡ link }
        ensures readers { result.readers.items ≡ [] }
        ensures endless { result.endless ≡ 0 }
    {
        LineSource {
            alloc,
            link,
            readers: Vec::new(alloc),
            endless: 0,
        }
    }

    /// What a pull answers where its reader answered so. A line without end is counted.
    fn count(&mut self, answer: Result<Pulled, LineFault>) -> Result<Pulled, PullFault>
        ensures answer { result ≡ pull_answer answer }
        ensures counted { self.new ≡ record self.old { endless = endless_behind answer self.old.endless } }
    {
        match answer {
            Ok(pulled) => Ok(pulled),
            Err(LineFault::Failed) => Err(PullFault::Failed),
            Err(LineFault::Endless) => {
                self.endless = self.endless.saturating_add(1);
                Err(PullFault::Failed)
            }
            Err(LineFault::NoMemory) => Err(PullFault::NoMemory),
        }
    }
}

impl<L: Link + Send + Drop> Source for LineSource<L> {
    ghost given = { λ _ _. untold_items };

    ghost left = { λ _ _. untold_items };

    ghost commits = { λ _ _. untold_commits };

    ghost inlet_faults = { λ s. faults_with (L.link_faults s.link) s.endless };

    /// Gives the next line of an endpoint, or the end where no byte is left. `Failed` comes where the link failed, or
    /// where 1,048,576 bytes came and hold no LF, and never where a line is in the endpoint's buffer already. No line
    /// is lost by it, nor by want of memory, and the other endpoints are as before.
    fn pull(&mut self, from: &Uri) -> Result<Pulled, PullFault>
        ensures given { (u : List ℕ) → untold_items ≡ extended untold_items (where_same u (printed from.now) (given_by result)) }
        ensures left { (u : List ℕ) → untold_items ≡ preceded (all_taken (where_same u (printed from.now) (given_by result))) untold_items }
        ensures ends { IfOk result (EndsAtEnd untold_items) }
        ensures commits { (u : List ℕ) → untold_commits ≡ untold_commits }
        ensures fair { IfOk result IsFair }
        ensures faults { Rises (pull_failure result) (faults_with (L.link_faults self.old.link) self.old.endless) (faults_with (L.link_faults self.new.link) self.new.endless) }
        ensures ready { HasLine (reader_for (printed from.now) self.old.readers.items).buffer → ¬ (IsErrOf result PullFault.Failed) }
        ensures cause { IsErrOf result PullFault.Failed → Rose (L.link_faults self.old.link) (L.link_faults self.new.link) ⊎ (next_line (reader_for (printed from.now) self.new.readers.items).buffer ≡ AnEndless) }
        ensures took { let u = printed from.now in TookKnown (reader_for u self.old.readers.items).lines (prepend_known (reader_for u self.old.readers.items).buffer (L.unread self.old.link)) result (reader_for u self.new.readers.items).lines (prepend_known (reader_for u self.new.readers.items).buffer (L.unread self.new.link)) }
        ensures others { (v : List ℕ) → bytes_eq (printed from.now) v ≡ false → reader_for v self.new.readers.items ≡ reader_for v self.old.readers.items }
        ensures written { L.written self.new.link ≡ L.written self.old.link }
    {
        let Ok(place) = place_of(self.alloc, &mut self.readers, from) else {
            return Err(PullFault::NoMemory);
        };
        let readers = self.readers.as_mut_slice();
        let answer = next_at(self.alloc, readers, place, &mut self.link, from);
        self.count(answer)
    }

    /// Does nothing, since no line can be given back.
    fn commit(&mut self, _from: &Uri, _item: &Text, _end: &End) -> Result<(), CommitFault>
        ensures given { (u : List ℕ) → untold_items ≡ untold_items }
        ensures left { (u : List ℕ) → untold_items ≡ untold_items }
        ensures commits { (u : List ℕ) → untold_commits ≡ extended untold_commits (where_same u (printed _from.now) (committed _item.now _end.now result)) }
        ensures faults { Rises (commit_failure result) (faults_with (L.link_faults self.old.link) self.old.endless) (faults_with (L.link_faults self.new.link) self.new.endless) }
        ensures done { result ≡ Ok tt }
        ensures same { self.new ≡ self.old }
    {
        Ok(())
    }
}
