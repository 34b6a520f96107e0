ghost use Rattle.std.specs.Prelude.{◌≡◌, ℕ, List};
ghost use Rattle.eip_ledger.specs.View.{JournalView};
ghost use Rattle.eip_ledger.specs.declared.entry.Entry.{Entry};
ghost use Rattle.eip_dump.specs.Dump.{IsDumpOf, IsBadLine};
ghost use Rattle.eip_dump.specs.Kept.{IsEntry};
ghost use Rattle.eip_dump.specs.Lines.{entry_text};

/// A line is that of one entry at most, and a text is that of one journal at most; where it is that of one, none of its lines is bad.
pub fn dump_laws()
    ensures one_entry { (e f : Entry) → IsEntry e → IsEntry f → entry_text e ≡ entry_text f → e ≡ f }
    ensures one_journal { (bs : List ℕ) (j k : JournalView) → IsDumpOf bs j → IsDumpOf bs k
        → (j.workers ≡ k.workers) × ((j.turns ≡ k.turns) × (j.past ≡ k.past)) }
    ensures none_bad { (line : ℕ) (bs : List ℕ) (j : JournalView) → IsDumpOf bs j → IsBadLine line bs → ⊥ }
{}
