ghost use Rattle.std.specs.Prelude.{◌≡◌, ◌++◌, IfOk, OnOk, option_map, string_bytes};
ghost use Rattle.eip_route_grammar.specs.Causes as spec;
ghost use Rattle.eip_route_grammar.specs.Paths.{at_once, placed, key_step, index_step};

use eip_text::{NoMemory, Text, decimal};
use std::alloc::Global;
use thiserror::Error;

/// What is wrong with a route file.
#[derive(Debug, Drop)]
pub enum Cause {
    /// The file isn't there.
    NoFile,
    /// It has more than 1,048,576 bytes.
    TooLong,
    /// It is no JSON text.
    NotJson,
    /// A JSON value of another kind is wanted here.
    WrongKind,
    /// There are more than 256 routes.
    TooManyRoutes,
    /// The object wants exactly one key.
    NotOneKey,
    /// The object has no such key.
    UnknownKey(Text),
    /// There is no such step.
    UnknownStep(Text),
    /// The key, or another of its group, stands there already.
    DoubleKey(Text),
    /// The object wants this key.
    MissingKey(Text),
    /// The steps stand in the route and in its `from`.
    StepsTwice,
    /// A clause is both `handled` and `continued`.
    BothHandledAndContinued,
    /// An aggregate never completes.
    NoCompletion,
    /// The text is no name of the form that is wanted here.
    BadName,
    /// The value isn't one of those that may stand here.
    BadValue,
    /// What stands before the URI's first colon is no scheme.
    UnknownScheme,
    /// The URI isn't of its scheme's form at this byte.
    BadUri(usize),
    /// The scheme has no option of this name.
    UnknownOption(Text),
    /// The option of this name has a bad value, or none.
    BadOption(Text),
    /// The option of this name is given twice.
    DoubleOption(Text),
    /// No side, operator or end can be read at this byte.
    BadSimple(usize),
    /// The `${` at this byte stands round no function.
    UnknownFunction(usize),
    /// The quoted text at this byte is no pattern.
    BadPattern(usize),
    /// The pattern at this byte was refused for its size.
    PatternTooLarge(usize),
    /// No route may begin with this endpoint.
    NotConsumer,
    /// No message may be sent to this endpoint.
    NotProducer,
    /// Nothing was handed in under this name.
    NotRegistered(Text),
    /// Blocks nest 17 deep here.
    TooNested,
    /// A second error handler.
    DoubleErrorHandler,
    /// A second route of one id.
    DoubleRouteId,
    /// A second route from one endpoint.
    SecondConsumer,
}

/// A fault of a route file: where it stands, as `$` followed by `[INDEX]` and `.KEY` with the keys as
/// they are spelled, and what is wrong there.
#[derive(Debug, Drop, Error)]
#[error("the route file is refused")]
pub struct RouteFault {
    pub path: Text,
    pub cause: Cause,
}

impl RouteFault {
    /// The fault of a value, with the path from that value on.
    pub fn here(alloc: Global, cause: Cause) -> Result<RouteFault, NoMemory>
        ensures { IfOk result (λ f. f ≡ at_once cause) }
    {
        Ok(RouteFault {
            path: Text::of_str(alloc, "")?,
            cause,
        })
    }

    /// The same fault with this step in front of its path.
    pub fn behind(self, alloc: Global, step: &str) -> Result<RouteFault, NoMemory>
        ensures { IfOk result (λ f. f ≡ placed step.now self) }
    {
        let mut path = String::from_str(alloc, step)?;
        path.push_str(self.path.as_str())?;
        Ok(RouteFault {
            path: Text::of(path),
            cause: self.cause,
        })
    }

    /// The same fault under a key.
    pub fn under_key(self, alloc: Global, key: &str) -> Result<RouteFault, NoMemory>
        ensures { IfOk result (λ f. f ≡ placed (key_step key.now) self) }
    {
        let mut step = String::from_str(alloc, ".")?;
        step.push_str(key)?;
        self.behind(alloc, step.as_str())
    }

    /// The same fault under an index.
    pub fn under_index(self, alloc: Global, index: usize) -> Result<RouteFault, NoMemory>
        ensures { IfOk result (λ f. f ≡ placed (index_step index) self) }
    {
        let mut step = String::from_str(alloc, "[")?;
        step.push_str(decimal(alloc, index as u64)?.as_str())?;
        step.push_str("]")?;
        self.behind(alloc, step.as_str())
    }
}

impl Cause {
    /// The cause's name.
    pub fn name(&self) -> &'static str
        ensures { result.now ≡ spec.name_of self.now }
    {
        match self {
            Cause::NoFile => "NoFile",
            Cause::TooLong => "TooLong",
            Cause::NotJson => "NotJson",
            Cause::WrongKind => "WrongKind",
            Cause::TooManyRoutes => "TooManyRoutes",
            Cause::NotOneKey => "NotOneKey",
            Cause::UnknownKey(_) => "UnknownKey",
            Cause::UnknownStep(_) => "UnknownStep",
            Cause::DoubleKey(_) => "DoubleKey",
            Cause::MissingKey(_) => "MissingKey",
            Cause::StepsTwice => "StepsTwice",
            Cause::BothHandledAndContinued => "BothHandledAndContinued",
            Cause::NoCompletion => "NoCompletion",
            Cause::BadName => "BadName",
            Cause::BadValue => "BadValue",
            Cause::UnknownScheme => "UnknownScheme",
            Cause::BadUri(_) => "BadUri",
            Cause::UnknownOption(_) => "UnknownOption",
            Cause::BadOption(_) => "BadOption",
            Cause::DoubleOption(_) => "DoubleOption",
            Cause::BadSimple(_) => "BadSimple",
            Cause::UnknownFunction(_) => "UnknownFunction",
            Cause::BadPattern(_) => "BadPattern",
            Cause::PatternTooLarge(_) => "PatternTooLarge",
            Cause::NotConsumer => "NotConsumer",
            Cause::NotProducer => "NotProducer",
            Cause::NotRegistered(_) => "NotRegistered",
            Cause::TooNested => "TooNested",
            Cause::DoubleErrorHandler => "DoubleErrorHandler",
            Cause::DoubleRouteId => "DoubleRouteId",
            Cause::SecondConsumer => "SecondConsumer",
        }
    }

    /// The text that the cause names.
    fn word(&self) -> Option<&Text>
        ensures { option_map (λ t. t.now) result ≡ spec.word_of self.now }
    {
        match self {
            Cause::UnknownKey(text)
            | Cause::UnknownStep(text)
            | Cause::DoubleKey(text)
            | Cause::MissingKey(text)
            | Cause::UnknownOption(text)
            | Cause::BadOption(text)
            | Cause::DoubleOption(text)
            | Cause::NotRegistered(text) => Some(text),
            _ => None,
        }
    }

    /// The byte that the cause names, from 0.
    fn byte(&self) -> Option<usize>
        ensures { result ≡ spec.byte_of self.now }
    {
        match self {
            Cause::BadUri(at)
            | Cause::BadSimple(at)
            | Cause::UnknownFunction(at)
            | Cause::BadPattern(at)
            | Cause::PatternTooLarge(at) => Some(*at),
            _ => None,
        }
    }
}

/// The cause's name and, behind a space, its argument where it has one.
pub fn print_cause(alloc: Global, cause: &Cause) -> Result<Text, NoMemory>
    ensures { IfOk result (λ t. t ≡ spec.cause_text cause.now) }
{
    let mut out = String::new(alloc);
    push_cause(alloc, &mut out, cause)?;
    Ok(Text::of(out))
}

/// Appends what `print_cause` gives. Where memory is wanting, a front part may stand in `out`.
#[tactic(auto, unfolding(crate::specs::Causes::cause_text))]
fn push_cause(alloc: Global, out: &mut String, cause: &Cause) -> Result<(), NoMemory>
    ensures { OnOk result (string_bytes out.new ≡ string_bytes out.old ++ spec.cause_text cause.now) }
{
    out.push_str(cause.name())?;
    if let Some(word) = cause.word() {
        return push_argument(out, word.as_str());
    }
    match cause.byte() {
        None => Ok(()),
        Some(at) => push_argument(out, decimal(alloc, at as u64)?.as_str()),
    }
}

/// Appends an argument behind a space.
fn push_argument(out: &mut String, argument: &str) -> Result<(), NoMemory>
    ensures { OnOk result (string_bytes out.new ≡ string_bytes out.old ++ spec.behind_space argument.now) }
{
    out.push_str(" ")?;
    out.push_str(argument)?;
    Ok(())
}
