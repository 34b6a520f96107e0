ghost use Rattle.std.specs.Prelude.{◌≡◌, ◌<◌, ◌≤◌, ◌+◌, ◌-◌, ◌*◌, ◌^◌, ℕ, List, Option, None, IfOk, OnOk, OnErr, IsErrOf, Contains, min};
ghost use Rattle.regex.specs.Failures.{IsPattern};
ghost use Rattle.regex.specs.Strings.{regex_size};
ghost use Rattle.regex_syntax.specs.Verdict.{default_config};
ghost use Rattle.eip_text.specs.Causes.{Rises};
ghost use Rattle.eip_simple_read.specs.Patterns.{IsNoPattern, IsGoodPattern, IsWholeMatch, IsOf, IsRefused, Takes, build_failures, price, size_bytes};
ghost use Rattle.eip_simple_read.specs.declared.pattern.Build.{Build as ABuild};
ghost use Rattle.eip_simple_read.specs.Builds.{added, made};

use eip_text::{NoMemory, Text};
use regex::{Error, Regex, RegexBuilder};
use regex_syntax::{Config, ErrorKind, parse};
use std::alloc::{AllocError, Global};
use std::marker::Model;

/// A pattern of `regex`, which contracts see as its text.
pub struct Pattern {
    text: Text,
    whole: Regex,
}

impl Drop for Pattern {
    fn drop(self) {
        let Pattern { text, whole } = self;
        drop(text);
        drop(whole);
    }
}

impl Model for Pattern {
    ghost use Rattle.std.specs.Prelude.{List, ℕ};
    ghost use Rattle.eip_simple_read.specs.Patterns.{IsCompiled};

    ghost Value = { List ℕ };

    ghost view = { λ p. p.text };

    ghost invariant = { λ p. IsCompiled p.text p.whole };
}

/// Why a text gave no pattern.
#[derive(Clone, Copy, Debug, PartialEq, Eq)]
pub enum PatternFault {
    /// The text, alone or enclosed to match whole texts, is no pattern of the grammar, or nested too deep for it.
    Bad,
    /// The pattern was refused for its size: the count of faults rose, or stands at its greatest value.
    TooLarge,
    NoMemory,
}

impl From<NoMemory> for PatternFault {
    ghost use Rattle.std.specs.Prelude.{◌≡◌};
    ghost use Rattle.eip_simple_read.specs.declared.pattern.PatternFault.TheVariants.{NoMemory};

    ghost from_gives = { λ _ e. e ≡ NoMemory };

    fn from(_refused: NoMemory) -> PatternFault {
        PatternFault::NoMemory
    }
}

impl From<AllocError> for PatternFault {
    ghost use Rattle.std.specs.Prelude.{◌≡◌};
    ghost use Rattle.eip_simple_read.specs.declared.pattern.PatternFault.TheVariants.{NoMemory};

    ghost from_gives = { λ _ e. e ≡ NoMemory };

    fn from(_refused: AllocError) -> PatternFault {
        PatternFault::NoMemory
    }
}

/// How many bytes the tables of a compiled pattern may take.
#[derive(Clone, Copy)]
enum Size {
    /// As many as most patterns need.
    Small,
    /// The most.
    Large,
}

impl Size {
    fn bytes(self) -> usize
        ensures { result ≡ size_bytes self }
    {
        match self {
            Size::Small => 65_536,
            Size::Large => 2_097_152,
        }
    }
}

impl Pattern {
    /// The pattern that a text spells, in the syntax of the crate `regex`. `TooLarge` where its tables would take more
    /// bytes than this.
    fn compile(alloc: Global, text: &Text, size: Size) -> Result<Pattern, PatternFault>
        ensures built { IfOk result (λ p. p ≡ text.now) }
        ensures grammar { IfOk result (λ _. IsGoodPattern text.now) }
        ensures bad { IsErrOf result PatternFault.Bad → IsNoPattern text.now }
    {
        read_alone(alloc, text.as_str())?;
        let mut source = String::from_str(alloc, "\\A(?:")?;
        source.push_str(text.as_str())?;
        source.push_str(")\\z")?;
        let whole = compiled(alloc, source.as_str(), size)?;
        Ok(Pattern {
            text: text.copy()?,
            whole,
        })
    }

    /// The text that the pattern was built from.
    pub fn text(&self) -> &Text
        ensures { result.now ≡ self.now }
    {
        &self.text
    }

    /// Whether the whole of the text matches, not only a part of it.
    pub fn matches(&self, alloc: Global, text: &Text) -> Result<bool, NoMemory>
        ensures { IfOk result (λ b. IsWholeMatch self.now text.now b) }
    {
        let mut matcher = self.whole.matcher(alloc)?;
        Ok(matcher.is_match(text.as_str()))
    }
}

/// Reads a pattern, which is not compiled.
fn read_alone(alloc: Global, source: &str) -> Result<(), PatternFault>
    ensures grammar { IfOk result (λ _. IsPattern default_config source.now) }
    ensures bad { IsErrOf result PatternFault.Bad → IsRefused source.now }
    ensures never { ¬ (IsErrOf result PatternFault.TooLarge) }
{
    match parse(alloc, source, &Config::default()) {
        Ok(_parsed) => Ok(()),
        Err(error) => match error.kind {
            ErrorKind::OutOfMemory => Err(PatternFault::NoMemory),
            _ => Err(PatternFault::Bad),
        },
    }
}

/// The expression that the text spells.
fn compiled(alloc: Global, source: &str, size: Size) -> Result<Regex, PatternFault>
    ensures built { IfOk result (λ r. IsOf source.now r) }
    ensures small { IfOk result (λ r. regex_size r ≤ size_bytes size + 24) }
    ensures bad { IsErrOf result PatternFault.Bad → IsRefused source.now }
{
    match RegexBuilder::new(source)
        .size_limit(size.bytes())
        .build(alloc)
    {
        Ok(regex) => Ok(regex),
        Err(Error::Syntax(_)) => Err(PatternFault::Bad),
        Err(Error::CompiledTooBig) => Err(PatternFault::TooLarge),
        Err(Error::Internal) => unreachable!(),
        Err(Error::OutOfMemory) => Err(PatternFault::NoMemory),
    }
}

/// A build of a pattern. One for which memory was wanting is none.
#[derive(Drop)]
pub struct Build {
    pub text: Text,
    /// Whether there is a pattern; else it was refused.
    pub is_built: bool,
}

/// What builds the patterns of predicates. It counts the patterns that it refuses for their size.
pub trait Patterns {
    ghost pattern_faults: { Self → ℕ };

    /// The builds so far, where the object tells them.
    ghost pattern_builds: { Self → Option (List ABuild) };

    /// The pattern of this text. It answers `Bad` only where the text, alone or enclosed to match whole texts, is no
    /// pattern, and `TooLarge` only where its count of faults rose.
    fn build(&mut self, alloc: Global, text: &Text) -> Result<Pattern, PatternFault>
        ensures built { IfOk result (λ p. p ≡ text.now) }
        ensures grammar { IfOk result (λ _. IsGoodPattern text.now) }
        ensures bad { IsErrOf result PatternFault.Bad → IsNoPattern text.now }
        ensures cause { Rises (build_failures result) (pattern_faults self.old) (pattern_faults self.new) }
        ensures builds { pattern_builds self.new ≡ added (pattern_builds self.old) (made text.now result) };
}

/// What the patterns of a builder may take together, in bytes.
const ROOM: usize = 50_331_648;

/// What each byte of a pattern's text takes of the room. It stands for the time of a build, which grows with the text.
const TEXT_BYTE: usize = 4_096;

/// The most bytes of a pattern's text: so many take the whole room.
const TEXT_LIMIT: usize = 12_288;

/// Builds patterns with the crate `regex`, within a room for all of them. A pattern takes 4,096 bytes of it for each byte
/// of its text, and 65,536 bytes, or 2,097,152 where its tables don't fit in these.
#[derive(Drop)]
pub struct CratePatterns {
    failing: Vec<u64>,
    number: u64,
    faults: u64,
    room: usize,
}

impl CratePatterns {
    /// A build whose number, from 1, stands in `failing` answers `TooLarge`. It takes no memory.
    pub fn new(failing: Vec<u64>) -> CratePatterns
        ensures { (result.failing ≡ failing) × (result.number ≡ 0) × (result.faults ≡ 0) × (result.room ≡ 48 * 2 ^ 20) }
    {
        CratePatterns {
            failing,
            number: 0,
            faults: 0,
            room: ROOM,
        }
    }

    /// The pattern of this text, where the room has place for it and for tables of this size.
    fn build_sized(
        &mut self,
        alloc: Global,
        text: &Text,
        size: Size,
    ) -> Result<Pattern, PatternFault>
        ensures built { IfOk result (λ p. p ≡ text.now) }
        ensures grammar { IfOk result (λ _. IsGoodPattern text.now) }
        ensures bad { IsErrOf result PatternFault.Bad → IsNoPattern text.now }
        ensures room { OnOk result (self.new.room + price size text.now ≡ self.old.room) }
        ensures full { self.old.room < price size text.now → IsErrOf result PatternFault.TooLarge }
        ensures same { OnErr result (self.new.room ≡ self.old.room) }
        ensures others { (self.new.failing.items ≡ self.old.failing.items) × (self.new.number ≡ self.old.number) × (self.new.faults ≡ self.old.faults) }
    {
        let length = text.bytes().len();
        if length > TEXT_LIMIT {
            return Err(PatternFault::TooLarge);
        }
        let price = length * TEXT_BYTE + size.bytes();
        if self.room < price {
            return Err(PatternFault::TooLarge);
        }
        let pattern = Pattern::compile(alloc, text, size)?;
        self.room -= price;
        Ok(pattern)
    }

    /// The pattern of this text, with small tables where it fits in these.
    #[tactic(auto, using(crate::proofs::Rooms::takes))]
    fn build_small_first(&mut self, alloc: Global, text: &Text) -> Result<Pattern, PatternFault>
        ensures built { IfOk result (λ p. p ≡ text.now) }
        ensures grammar { IfOk result (λ _. IsGoodPattern text.now) }
        ensures bad { IsErrOf result PatternFault.Bad → IsNoPattern text.now }
        ensures room { OnOk result (Takes text.now self.old.room self.new.room) }
        ensures full { self.old.room < price Size.Small text.now → IsErrOf result PatternFault.TooLarge }
        ensures same { OnErr result (self.new.room ≡ self.old.room) }
        ensures others { (self.new.failing.items ≡ self.old.failing.items) × (self.new.number ≡ self.old.number) × (self.new.faults ≡ self.old.faults) }
    {
        match self.build_sized(alloc, text, Size::Small) {
            Err(PatternFault::TooLarge) => self.build_sized(alloc, text, Size::Large),
            answer => answer,
        }
    }
}

impl Patterns for CratePatterns {
    ghost pattern_faults = { λ p. p.faults };

    ghost pattern_builds = { λ _. None };

    /// The pattern of this text. A build whose number stands among the failing ones is refused as too large, and so is
    /// one for which there is no room.
    fn build(&mut self, alloc: Global, text: &Text) -> Result<Pattern, PatternFault>
        ensures built { IfOk result (λ p. p ≡ text.now) }
        ensures grammar { IfOk result (λ _. IsGoodPattern text.now) }
        ensures bad { IsErrOf result PatternFault.Bad → IsNoPattern text.now }
        ensures cause { Rises (build_failures result) self.old.faults self.new.faults }
        ensures builds { None ≡ added None (made text.now result) }
        ensures failing { Contains self.old.failing.items self.new.number → IsErrOf result PatternFault.TooLarge }
        ensures number { self.new.number ≡ min (self.old.number + 1) (2 ^ 64 - 1) }
        ensures room { OnOk result (Takes text.now self.old.room self.new.room) }
        ensures full { self.old.room < price Size.Small text.now → IsErrOf result PatternFault.TooLarge }
        ensures same { (self.new.failing.items ≡ self.old.failing.items) × OnErr result (self.new.room ≡ self.old.room) }
    {
        self.number = self.number.saturating_add(1);
        let answer = if self.failing.contains(&self.number) {
            Err(PatternFault::TooLarge)
        } else {
            self.build_small_first(alloc, text)
        };
        if matches!(answer, Err(PatternFault::TooLarge)) {
            self.faults = self.faults.saturating_add(1);
        }
        answer
    }
}
