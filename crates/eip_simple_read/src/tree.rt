use crate::pattern::Pattern;
use eip_text::{Series, Text};

/// A function of Simple, by the page "Simple" of Camel's manual. It stands for a text, or for nothing where that is
/// absent.
#[derive(Drop)]
pub enum Function {
    /// `${body}`.
    Body,
    /// `${header.NAME}`, also spelled `${headers.NAME}`.
    Header(Text),
    /// `${exchangeProperty.NAME}`.
    Property(Text),
    /// `${exchangeId}`.
    ExchangeId,
    /// `${routeId}`.
    RouteId,
    /// `${exception.message}`.
    ExceptionMessage,
}

/// A part of a template.
#[derive(Drop)]
pub enum Part {
    Plain(Text),
    Call(Function),
}

/// A template: plain text with functions, as its parts from the left.
pub struct Template {
    pub parts: Series<Part>,
}

impl Drop for Template {
    fn drop(self) {
        let Template { parts } = self;
        drop(parts);
    }
}

/// A side of a test.
#[derive(Drop)]
pub enum Side {
    /// A quoted template, a number, `true` or `false`.
    Value(Template),
    Call(Function),
    /// `null`, which is absent.
    Null,
}

/// The operators between two sides, each negation behind its operator, by the page "Simple" of Camel's manual.
#[derive(Clone, Copy, Debug, PartialEq, Eq)]
pub enum Op {
    /// `==`.
    Equal,
    /// `!=`.
    NotEqual,
    /// `=~`, up to ASCII case.
    EqualFold,
    /// `<`.
    Less,
    /// `<=`.
    AtMost,
    /// `>`.
    Greater,
    /// `>=`.
    AtLeast,
    /// `contains`.
    Contains,
    /// `!contains`.
    NotContains,
    /// `~~`, `contains` up to ASCII case.
    ContainsFold,
    /// `startsWith`, also spelled `starts with`.
    StartsWith,
    /// `endsWith`, also spelled `ends with`.
    EndsWith,
    /// `in`.
    In,
    /// `!in`.
    NotIn,
    /// `range`.
    Range,
    /// `!range`.
    NotRange,
}

/// One test of a predicate.
pub enum Test {
    /// A side alone.
    Single(Side),
    /// Two sides with an operator between them.
    Compare {
        left: Side,
        op: Op,
        right: Side,
    },
    /// `regex`, or `!regex` where it is negated.
    Matches {
        left: Side,
        pattern: Pattern,
        negated: bool,
    },
}

impl Drop for Test {
    fn drop(self) {
        match self {
            Test::Single(side) => drop(side),
            Test::Compare { left, op: _, right } => {
                drop(left);
                drop(right);
            }
            Test::Matches {
                left,
                pattern,
                negated: _,
            } => {
                drop(left);
                drop(pattern);
            }
        }
    }
}

/// A predicate: the conjunctions of which one has to hold, each as its tests.
pub struct Predicate {
    pub any: Series<Series<Test>>,
}

impl Drop for Predicate {
    fn drop(self) {
        let Predicate { any } = self;
        drop(any);
    }
}
