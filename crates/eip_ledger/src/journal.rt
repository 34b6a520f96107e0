ghost use Rattle.std.specs.Prelude.{◌≡◌, ◌<◌, ◌≤◌, ◌-◌, ◌+◌, ◌∷◌, [], ℕ, reverse, length, IfOk, OnOk, OnErr};
ghost use Rattle.eip_ledger.specs.declared.entry.Kind.TheVariants.{Accept};
ghost use Rattle.eip_ledger.specs.Journal.{IsSameJournal};

use crate::entry::{Entry, Kind};
use eip_exchange::Message;
use eip_text::{Boxed, NoMemory, Text};
use std::alloc::Global;
use std::marker::Model;

/// The journal of a run: its limits and its entries. Contracts see the entries with the newest first.
pub struct Journal {
    alloc: Global,
    workers: u32,
    turns: u32,
    entries: Vec<Entry>,
    // Room for the messages of as many accepted items as entries are reserved.
    letters: Vec<Boxed<Message>>,
}

impl Drop for Journal {
    fn drop(self) {
        let Journal {
            alloc: _,
            workers: _,
            turns: _,
            entries,
            letters,
        } = self;
        drop(entries);
        drop(letters);
    }
}

impl Model for Journal {
    ghost use Rattle.std.specs.Prelude.{reverse, length, vec_capacity, vec_len, ◌+◌, ◌≤◌};
    ghost use Rattle.eip_ledger.specs.View.{JournalView};

    ghost Value = { JournalView };

    ghost view = { λ j. record { workers = j.workers; turns = j.turns; past = reverse j.entries.items; spare = length j.letters.items } };

    ghost invariant = { λ j. vec_len j.entries + length j.letters.items ≤ vec_capacity j.entries };
}

/// Room for one more message, which is empty.
fn new_letter(alloc: Global) -> Result<Boxed<Message>, NoMemory> {
    Boxed::of(alloc, Message::of_body(alloc, Text::of(String::new(alloc))))
}

/// Room for so many messages, with what is there; on `NoMemory` there may be less than asked for.
fn add_letters(
    alloc: Global,
    letters: &mut Vec<Boxed<Message>>,
    count: usize,
) -> Result<(), NoMemory>
    ensures more { length letters.old.items ≤ length letters.new.items }
    ensures ok { OnOk result (count ≤ length letters.new.items) }
    ensures within { length letters.new.items ≤ length letters.old.items + (count - length letters.old.items) }
{
    for _index in letters.len()..count {
        letters.push(new_letter(alloc)?)?;
    }
    Ok(())
}

/// Room for so many messages, with what is there; on `NoMemory` there is as much as before.
fn make_letters(
    alloc: Global,
    letters: &mut Vec<Boxed<Message>>,
    count: usize,
) -> Result<(), NoMemory>
    ensures more { length letters.old.items ≤ length letters.new.items }
    ensures ok { OnOk result (count ≤ length letters.new.items) }
    ensures within { length letters.new.items ≤ length letters.old.items + (count - length letters.old.items) }
    ensures err { OnErr result (length letters.new.items ≡ length letters.old.items) }
{
    let before = letters.len();
    let made = add_letters(alloc, letters, count);
    if made.is_err() {
        letters.truncate(before);
    }
    made
}

impl Journal {
    /// An empty journal with its limits. It takes no memory.
    pub fn new(alloc: Global, workers: u32, turns: u32) -> Journal
        ensures workers { result.workers ≡ workers }
        ensures turns { result.turns ≡ turns }
        ensures past { result.past ≡ [] }
    {
        Journal {
            alloc,
            workers,
            turns,
            entries: Vec::new(alloc),
            letters: Vec::new(alloc),
        }
    }

    /// The greatest worker number.
    pub fn workers(&self) -> u32
        ensures { result ≡ self.now.workers }
    {
        self.workers
    }

    /// The limit on turns.
    pub fn turns(&self) -> u32
        ensures { result ≡ self.now.turns }
    {
        self.turns
    }

    /// The entries, the oldest first.
    pub fn entries(&self) -> &[Entry]
        ensures { result.now ≡ reverse self.now.past }
    {
        self.entries.as_slice()
    }

    /// Room for `n` more entries.
    pub fn reserve(&mut self, n: usize) -> Result<(), NoMemory>
        ensures ok { OnOk result (n ≤ self.new.spare) }
        ensures err { OnErr result (self.new.spare ≡ self.old.spare) }
        ensures spare { self.old.spare ≤ self.new.spare }
        ensures same { IsSameJournal self.old self.new }
    {
        self.entries.reserve(n)?;
        make_letters(self.alloc, &mut self.letters, n)
    }

    /// The entry goes behind the others, into room that was reserved.
    pub fn append_reserved(&mut self, entry: Entry)
        requires { 0 < self.old.spare }
        ensures past { self.new.past ≡ entry ∷ self.old.past }
        ensures spare { self.old.spare - 1 ≤ self.new.spare }
        ensures workers { self.new.workers ≡ self.old.workers }
        ensures turns { self.new.turns ≡ self.old.turns }
    {
        self.entries.push_reserved(entry);
        if self.entries.len() + self.letters.len() > self.entries.capacity() {
            drop(self.letters.pop());
        }
    }

    /// The entry that a source's item was accepted goes behind the others, into room that was reserved.
    pub fn accept_reserved(&mut self, worker: u32, source: u32, item: Text, message: Message)
        requires { 0 < self.old.spare }
        ensures past { self.new.past ≡ (record { worker = worker; kind = Accept source item message }) ∷ self.old.past }
        ensures spare { self.old.spare - 1 ≤ self.new.spare }
        ensures workers { self.new.workers ≡ self.old.workers }
        ensures turns { self.new.turns ≡ self.old.turns }
    {
        let Some(mut letter) = self.letters.pop() else {
            unreachable!()
        };
        drop(letter.replace(message));
        self.entries.push_reserved(Entry {
            worker,
            kind: Kind::Accept {
                source,
                item,
                message: letter,
            },
        });
    }
}
