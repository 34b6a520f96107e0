ghost use Rattle.std.specs.Prelude.{◌≡◌};
ghost use Rattle.eip_route_grammar.specs.Table.{rows, row_for, rule_of, list_of, shape_of, key_in, kind_in};

use crate::keys::Key;

/// What a text, a number or a truth value is to be.
#[derive(Clone, Copy)]
pub enum Rule {
    /// Any text.
    Word,
    /// A Name: 1 to 64 ASCII letters, digits, `_`, `-` and `.`.
    Name,
    /// A Name, maybe behind a `#`.
    Repository,
    /// The name of a processor that is handed in, maybe behind a `#`.
    Processor,
    /// The name of a predicate that is handed in, maybe behind a `#`.
    StoredPredicate,
    /// The URI of an endpoint where a route may begin.
    Consumer,
    /// The URI of an endpoint where messages may go.
    Producer,
    /// A template of the Simple language.
    Template,
    /// A template that is the body, a header or an exchange property, and nothing else.
    OrderKey,
    /// A predicate of the Simple language.
    Predicate,
    /// A text, a whole number or a truth value.
    Constant,
    /// A truth value, or the text of one.
    Flag,
    /// A whole number, or the text of one, from the first to the second.
    Count(u32, u32),
    /// A text that isn't empty.
    Filled,
    /// The text `$[*]`.
    WholeArray,
    /// The name of an aggregation strategy, maybe behind a `#`.
    Strategy,
    /// The same without `original`.
    GroupStrategy,
    /// The dotted name of an exception.
    ExceptionType,
    /// A level of the log.
    Level,
}

/// What a value of a route file is to be.
#[derive(Clone, Copy)]
pub enum Kind {
    Item,
    Route,
    From,
    ErrorHandler,
    DeadLetterChannel,
    DefaultErrorHandler,
    RedeliveryPolicy,
    OnException,
    Outcome,
    Step,
    Value,
    Expression,
    NamedValue,
    RemoveHeader,
    To,
    Log,
    ThrowException,
    Process,
    Choice,
    Case,
    Test,
    /// An object with `steps`: a block.
    Nested,
    Split,
    Tokenize,
    Multicast,
    RecipientList,
    Aggregate,
    CompletionPredicate,
    IdempotentConsumer,
    Try,
    Catch,
    OnWhen,
    Resequence,
    BatchConfig,
    OrderKey,
    Simple,
    Condition,
    Constant,
    Fixed,
    /// A list of steps: a block.
    Steps,
    /// A list of steps: a block inside that of a batch.
    BatchSteps,
    /// A list of steps, each a block of its own; not empty.
    Branches,
    /// A list of cases; not empty.
    Cases,
    /// A list of catches.
    Catches,
    /// A text, or a list of texts that isn't empty.
    Exceptions,
    /// An object with any keys, and texts, whole numbers or truth values.
    Parameters,
    Leaf(Rule),
}

/// A key of an object, and what its value is to be.
#[derive(Clone, Copy)]
pub enum Row {
    /// The key has to stand there.
    Must(Key, Kind),
    /// The key may stand there.
    May(Key, Kind),
    /// Exactly one of these keys has to stand there.
    One(Key, Kind),
}

/// How an object's keys are judged.
#[derive(Clone, Copy)]
pub enum Shape {
    /// By the rows, each for itself.
    Keyed,
    /// As an item of the file: there is one key.
    Item,
    /// As a step: there is one key.
    Step,
    /// As an error handler: there is one key beside `id` and `description`.
    Handler,
    /// Any keys may stand there.
    Free,
    /// No object may stand there.
    Closed,
}

/// In how many blocks the items of a list stand, inside those around the list.
#[derive(Clone, Copy)]
pub enum Nests {
    /// In none: the items are no steps.
    Nowhere,
    /// In one: the list is a block, or each item is.
    Block,
    /// In two: the list is a block in that of a batch.
    Batch,
}

/// What a list is to hold.
#[derive(Clone, Copy)]
pub struct Listed {
    pub item: Kind,
    pub nests: Nests,
    /// It isn't empty.
    pub filled: bool,
}

impl Row {
    pub fn key(self) -> Key
        ensures { result ≡ key_in self }
    {
        match self {
            Row::Must(key, _) => key,
            Row::May(key, _) => key,
            Row::One(key, _) => key,
        }
    }

    pub fn kind(self) -> Kind
        ensures { result ≡ kind_in self }
    {
        match self {
            Row::Must(_, kind) => kind,
            Row::May(_, kind) => kind,
            Row::One(_, kind) => kind,
        }
    }
}

impl Kind {
    /// The keys of an object of this kind.
    #[tactic(auto, unfolding(crate::specs::Table::rows))]
    pub fn rows(self) -> &'static [Row]
        ensures { result.now ≡ rows self }
    {
        match self {
            Kind::Item => &[
                Row::One(Key::Route, Kind::Route),
                Row::One(Key::From, Kind::From),
                Row::One(Key::ErrorHandler, Kind::ErrorHandler),
                Row::One(Key::OnException, Kind::OnException),
            ],
            Kind::Route => &[
                Row::May(Key::Id, Kind::Leaf(Rule::Name)),
                Row::May(Key::Description, Kind::Leaf(Rule::Word)),
                Row::Must(Key::From, Kind::From),
                Row::May(Key::Steps, Kind::Steps),
            ],
            Kind::From => &[
                Row::May(Key::Description, Kind::Leaf(Rule::Word)),
                Row::May(Key::Id, Kind::Leaf(Rule::Word)),
                Row::Must(Key::Uri, Kind::Leaf(Rule::Consumer)),
                Row::May(Key::Parameters, Kind::Parameters),
                Row::May(Key::Steps, Kind::Steps),
            ],
            Kind::ErrorHandler => &[
                Row::May(Key::Description, Kind::Leaf(Rule::Word)),
                Row::May(Key::Id, Kind::Leaf(Rule::Word)),
                Row::One(Key::DeadLetterChannel, Kind::DeadLetterChannel),
                Row::One(Key::DefaultErrorHandler, Kind::DefaultErrorHandler),
            ],
            Kind::DeadLetterChannel => &[
                Row::May(Key::Description, Kind::Leaf(Rule::Word)),
                Row::May(Key::Id, Kind::Leaf(Rule::Word)),
                Row::Must(Key::DeadLetterUri, Kind::Leaf(Rule::Producer)),
                Row::May(Key::RedeliveryPolicy, Kind::RedeliveryPolicy),
            ],
            Kind::DefaultErrorHandler => &[
                Row::May(Key::Description, Kind::Leaf(Rule::Word)),
                Row::May(Key::Id, Kind::Leaf(Rule::Word)),
                Row::May(Key::RedeliveryPolicy, Kind::RedeliveryPolicy),
            ],
            Kind::RedeliveryPolicy => &[
                Row::May(Key::Description, Kind::Leaf(Rule::Word)),
                Row::May(Key::Id, Kind::Leaf(Rule::Word)),
                Row::May(Key::MaximumRedeliveries, Kind::Leaf(Rule::Count(0, 1000))),
                Row::May(
                    Key::RedeliveryDelay,
                    Kind::Leaf(Rule::Count(0, 1_000_000_000)),
                ),
                Row::May(Key::BackOffMultiplier, Kind::Leaf(Rule::Count(1, 100))),
                Row::May(Key::UseExponentialBackOff, Kind::Leaf(Rule::Flag)),
                Row::May(
                    Key::MaximumRedeliveryDelay,
                    Kind::Leaf(Rule::Count(0, 1_000_000_000)),
                ),
            ],
            Kind::OnException => &[
                Row::May(Key::Description, Kind::Leaf(Rule::Word)),
                Row::May(Key::Id, Kind::Leaf(Rule::Word)),
                Row::Must(Key::Exception, Kind::Exceptions),
                Row::May(Key::RedeliveryPolicy, Kind::RedeliveryPolicy),
                Row::May(Key::Handled, Kind::Outcome),
                Row::May(Key::Continued, Kind::Outcome),
                Row::May(Key::Steps, Kind::Steps),
            ],
            Kind::Outcome => &[
                Row::May(Key::Description, Kind::Leaf(Rule::Word)),
                Row::May(Key::Id, Kind::Leaf(Rule::Word)),
                Row::Must(Key::Constant, Kind::Fixed),
            ],
            Kind::Step => &[
                Row::One(Key::SetBody, Kind::Value),
                Row::One(Key::SetHeader, Kind::NamedValue),
                Row::One(Key::SetProperty, Kind::NamedValue),
                Row::One(Key::RemoveHeader, Kind::RemoveHeader),
                Row::One(Key::To, Kind::To),
                Row::One(Key::Log, Kind::Log),
                Row::One(Key::ThrowException, Kind::ThrowException),
                Row::One(Key::Process, Kind::Process),
                Row::One(Key::Choice, Kind::Choice),
                Row::One(Key::Filter, Kind::Case),
                Row::One(Key::Split, Kind::Split),
                Row::One(Key::Multicast, Kind::Multicast),
                Row::One(Key::RecipientList, Kind::RecipientList),
                Row::One(Key::Aggregate, Kind::Aggregate),
                Row::One(Key::IdempotentConsumer, Kind::IdempotentConsumer),
                Row::One(Key::DoTry, Kind::Try),
                Row::One(Key::Resequence, Kind::Resequence),
            ],
            Kind::Value => &[
                Row::May(Key::Description, Kind::Leaf(Rule::Word)),
                Row::May(Key::Id, Kind::Leaf(Rule::Word)),
                Row::One(Key::Simple, Kind::Simple),
                Row::One(Key::Constant, Kind::Constant),
                Row::One(Key::Header, Kind::Leaf(Rule::Name)),
                Row::One(Key::ExchangeProperty, Kind::Leaf(Rule::Name)),
                Row::One(Key::Expression, Kind::Expression),
            ],
            Kind::Expression => &[
                Row::May(Key::Description, Kind::Leaf(Rule::Word)),
                Row::May(Key::Id, Kind::Leaf(Rule::Word)),
                Row::One(Key::Simple, Kind::Simple),
                Row::One(Key::Constant, Kind::Constant),
                Row::One(Key::Header, Kind::Leaf(Rule::Name)),
                Row::One(Key::ExchangeProperty, Kind::Leaf(Rule::Name)),
            ],
            Kind::NamedValue => &[
                Row::May(Key::Description, Kind::Leaf(Rule::Word)),
                Row::May(Key::Id, Kind::Leaf(Rule::Word)),
                Row::Must(Key::Name, Kind::Leaf(Rule::Name)),
                Row::One(Key::Simple, Kind::Simple),
                Row::One(Key::Constant, Kind::Constant),
                Row::One(Key::Header, Kind::Leaf(Rule::Name)),
                Row::One(Key::ExchangeProperty, Kind::Leaf(Rule::Name)),
                Row::One(Key::Expression, Kind::Expression),
            ],
            Kind::RemoveHeader => &[
                Row::May(Key::Description, Kind::Leaf(Rule::Word)),
                Row::May(Key::Id, Kind::Leaf(Rule::Word)),
                Row::Must(Key::Name, Kind::Leaf(Rule::Name)),
            ],
            Kind::To => &[
                Row::May(Key::Description, Kind::Leaf(Rule::Word)),
                Row::May(Key::Id, Kind::Leaf(Rule::Word)),
                Row::Must(Key::Uri, Kind::Leaf(Rule::Producer)),
                Row::May(Key::Parameters, Kind::Parameters),
            ],
            Kind::Log => &[
                Row::May(Key::Description, Kind::Leaf(Rule::Word)),
                Row::May(Key::Id, Kind::Leaf(Rule::Word)),
                Row::Must(Key::Message, Kind::Leaf(Rule::Template)),
                Row::May(Key::LogName, Kind::Leaf(Rule::Name)),
                Row::May(Key::LoggingLevel, Kind::Leaf(Rule::Level)),
            ],
            Kind::ThrowException => &[
                Row::May(Key::Description, Kind::Leaf(Rule::Word)),
                Row::May(Key::Id, Kind::Leaf(Rule::Word)),
                Row::Must(Key::ExceptionType, Kind::Leaf(Rule::ExceptionType)),
                Row::Must(Key::Message, Kind::Leaf(Rule::Template)),
            ],
            Kind::Process => &[
                Row::May(Key::Description, Kind::Leaf(Rule::Word)),
                Row::May(Key::Id, Kind::Leaf(Rule::Word)),
                Row::Must(Key::Ref, Kind::Leaf(Rule::Processor)),
            ],
            Kind::Choice => &[
                Row::May(Key::Description, Kind::Leaf(Rule::Word)),
                Row::May(Key::Id, Kind::Leaf(Rule::Word)),
                Row::Must(Key::When, Kind::Cases),
                Row::May(Key::Otherwise, Kind::Nested),
            ],
            Kind::Case => &[
                Row::May(Key::Description, Kind::Leaf(Rule::Word)),
                Row::May(Key::Id, Kind::Leaf(Rule::Word)),
                Row::One(Key::Simple, Kind::Condition),
                Row::One(Key::Constant, Kind::Fixed),
                Row::One(Key::Ref, Kind::Leaf(Rule::StoredPredicate)),
                Row::One(Key::Expression, Kind::Test),
                Row::Must(Key::Steps, Kind::Steps),
            ],
            Kind::Test => &[
                Row::May(Key::Description, Kind::Leaf(Rule::Word)),
                Row::May(Key::Id, Kind::Leaf(Rule::Word)),
                Row::One(Key::Simple, Kind::Condition),
                Row::One(Key::Constant, Kind::Fixed),
                Row::One(Key::Ref, Kind::Leaf(Rule::StoredPredicate)),
            ],
            Kind::Nested => &[
                Row::May(Key::Description, Kind::Leaf(Rule::Word)),
                Row::May(Key::Id, Kind::Leaf(Rule::Word)),
                Row::Must(Key::Steps, Kind::Steps),
            ],
            Kind::Split => &[
                Row::May(Key::Description, Kind::Leaf(Rule::Word)),
                Row::May(Key::Id, Kind::Leaf(Rule::Word)),
                Row::One(Key::Tokenize, Kind::Tokenize),
                Row::One(Key::Jsonpath, Kind::Leaf(Rule::WholeArray)),
                Row::May(Key::AggregationStrategy, Kind::Leaf(Rule::Strategy)),
                Row::May(Key::ParallelProcessing, Kind::Leaf(Rule::Flag)),
                Row::May(Key::StopOnException, Kind::Leaf(Rule::Flag)),
                Row::May(Key::ShareUnitOfWork, Kind::Leaf(Rule::Flag)),
                Row::Must(Key::Steps, Kind::Steps),
            ],
            Kind::Tokenize => &[
                Row::May(Key::Description, Kind::Leaf(Rule::Word)),
                Row::May(Key::Id, Kind::Leaf(Rule::Word)),
                Row::Must(Key::Token, Kind::Leaf(Rule::Filled)),
            ],
            Kind::Multicast => &[
                Row::May(Key::Description, Kind::Leaf(Rule::Word)),
                Row::May(Key::Id, Kind::Leaf(Rule::Word)),
                Row::May(Key::AggregationStrategy, Kind::Leaf(Rule::Strategy)),
                Row::May(Key::ParallelProcessing, Kind::Leaf(Rule::Flag)),
                Row::May(Key::StopOnException, Kind::Leaf(Rule::Flag)),
                Row::May(Key::ShareUnitOfWork, Kind::Leaf(Rule::Flag)),
                Row::Must(Key::Steps, Kind::Branches),
            ],
            Kind::RecipientList => &[
                Row::May(Key::Description, Kind::Leaf(Rule::Word)),
                Row::May(Key::Id, Kind::Leaf(Rule::Word)),
                Row::One(Key::Simple, Kind::Simple),
                Row::One(Key::Constant, Kind::Constant),
                Row::One(Key::Header, Kind::Leaf(Rule::Name)),
                Row::One(Key::ExchangeProperty, Kind::Leaf(Rule::Name)),
                Row::One(Key::Expression, Kind::Expression),
                Row::May(Key::Delimiter, Kind::Leaf(Rule::Filled)),
                Row::May(Key::AggregationStrategy, Kind::Leaf(Rule::Strategy)),
                Row::May(Key::ParallelProcessing, Kind::Leaf(Rule::Flag)),
                Row::May(Key::StopOnException, Kind::Leaf(Rule::Flag)),
                Row::May(Key::ShareUnitOfWork, Kind::Leaf(Rule::Flag)),
            ],
            Kind::Aggregate => &[
                Row::May(Key::Description, Kind::Leaf(Rule::Word)),
                Row::May(Key::Id, Kind::Leaf(Rule::Word)),
                Row::Must(Key::CorrelationExpression, Kind::Value),
                Row::May(Key::AggregationStrategy, Kind::Leaf(Rule::GroupStrategy)),
                Row::May(Key::CompletionSize, Kind::Leaf(Rule::Count(1, 1_000_000))),
                Row::May(
                    Key::CompletionTimeout,
                    Kind::Leaf(Rule::Count(1, 1_000_000_000)),
                ),
                Row::May(Key::CompletionPredicate, Kind::CompletionPredicate),
                Row::May(Key::ForceCompletionOnStop, Kind::Leaf(Rule::Flag)),
                Row::Must(Key::Steps, Kind::Steps),
            ],
            Kind::CompletionPredicate => &[
                Row::May(Key::Description, Kind::Leaf(Rule::Word)),
                Row::May(Key::Id, Kind::Leaf(Rule::Word)),
                Row::Must(Key::Simple, Kind::Condition),
            ],
            Kind::IdempotentConsumer => &[
                Row::May(Key::Description, Kind::Leaf(Rule::Word)),
                Row::May(Key::Id, Kind::Leaf(Rule::Word)),
                Row::One(Key::Simple, Kind::Simple),
                Row::One(Key::Constant, Kind::Constant),
                Row::One(Key::Header, Kind::Leaf(Rule::Name)),
                Row::One(Key::ExchangeProperty, Kind::Leaf(Rule::Name)),
                Row::One(Key::Expression, Kind::Expression),
                Row::May(Key::IdempotentRepository, Kind::Leaf(Rule::Repository)),
                Row::May(Key::Eager, Kind::Leaf(Rule::Flag)),
                Row::May(Key::SkipDuplicate, Kind::Leaf(Rule::Flag)),
                Row::May(Key::RemoveOnFailure, Kind::Leaf(Rule::Flag)),
                Row::Must(Key::Steps, Kind::Steps),
            ],
            Kind::Try => &[
                Row::May(Key::Description, Kind::Leaf(Rule::Word)),
                Row::May(Key::Id, Kind::Leaf(Rule::Word)),
                Row::Must(Key::Steps, Kind::Steps),
                Row::May(Key::DoCatch, Kind::Catches),
                Row::May(Key::DoFinally, Kind::Nested),
            ],
            Kind::Catch => &[
                Row::May(Key::Description, Kind::Leaf(Rule::Word)),
                Row::May(Key::Id, Kind::Leaf(Rule::Word)),
                Row::Must(Key::Exception, Kind::Exceptions),
                Row::May(Key::OnWhen, Kind::OnWhen),
                Row::Must(Key::Steps, Kind::Steps),
            ],
            Kind::OnWhen => &[
                Row::May(Key::Description, Kind::Leaf(Rule::Word)),
                Row::May(Key::Id, Kind::Leaf(Rule::Word)),
                Row::One(Key::Simple, Kind::Condition),
                Row::One(Key::Constant, Kind::Fixed),
                Row::One(Key::Ref, Kind::Leaf(Rule::StoredPredicate)),
                Row::One(Key::Expression, Kind::Test),
            ],
            Kind::Resequence => &[
                Row::May(Key::Description, Kind::Leaf(Rule::Word)),
                Row::May(Key::Id, Kind::Leaf(Rule::Word)),
                Row::One(Key::Simple, Kind::OrderKey),
                Row::One(Key::Header, Kind::Leaf(Rule::Name)),
                Row::One(Key::ExchangeProperty, Kind::Leaf(Rule::Name)),
                Row::May(Key::BatchConfig, Kind::BatchConfig),
                Row::Must(Key::Steps, Kind::BatchSteps),
            ],
            Kind::BatchConfig => &[
                Row::May(Key::Description, Kind::Leaf(Rule::Word)),
                Row::May(Key::Id, Kind::Leaf(Rule::Word)),
                Row::May(Key::BatchSize, Kind::Leaf(Rule::Count(1, 1000))),
                Row::May(Key::BatchTimeout, Kind::Leaf(Rule::Count(1, 1_000_000_000))),
            ],
            Kind::OrderKey => &[
                Row::May(Key::Description, Kind::Leaf(Rule::Word)),
                Row::May(Key::Id, Kind::Leaf(Rule::Word)),
                Row::Must(Key::Expression, Kind::Leaf(Rule::OrderKey)),
            ],
            Kind::Simple => &[
                Row::May(Key::Description, Kind::Leaf(Rule::Word)),
                Row::May(Key::Id, Kind::Leaf(Rule::Word)),
                Row::Must(Key::Expression, Kind::Leaf(Rule::Template)),
            ],
            Kind::Condition => &[
                Row::May(Key::Description, Kind::Leaf(Rule::Word)),
                Row::May(Key::Id, Kind::Leaf(Rule::Word)),
                Row::Must(Key::Expression, Kind::Leaf(Rule::Predicate)),
            ],
            Kind::Constant => &[
                Row::May(Key::Description, Kind::Leaf(Rule::Word)),
                Row::May(Key::Id, Kind::Leaf(Rule::Word)),
                Row::Must(Key::Expression, Kind::Leaf(Rule::Constant)),
            ],
            Kind::Fixed => &[
                Row::May(Key::Description, Kind::Leaf(Rule::Word)),
                Row::May(Key::Id, Kind::Leaf(Rule::Word)),
                Row::Must(Key::Expression, Kind::Leaf(Rule::Flag)),
            ],
            _ => &[],
        }
    }

    /// The row of a key, as spelled.
    pub fn row(self, text: &str) -> Option<Row>
        ensures { result ≡ row_for text.now (rows self) }
    {
        for row in self.rows() {
            if row.key().is(text) {
                return Some(*row);
            }
        }
        None
    }

    /// What a text, number or truth value of this kind is to be, where one may stand there.
    #[tactic(auto, unfolding(crate::specs::Table::rule_of))]
    pub fn rule(self) -> Option<Rule>
        ensures { result ≡ rule_of self }
    {
        match self {
            Kind::Leaf(rule) => Some(rule),
            Kind::RemoveHeader => Some(Rule::Name),
            Kind::To => Some(Rule::Producer),
            Kind::Log => Some(Rule::Template),
            Kind::Process => Some(Rule::Processor),
            Kind::Tokenize => Some(Rule::Filled),
            Kind::OrderKey => Some(Rule::OrderKey),
            Kind::Simple => Some(Rule::Template),
            Kind::Condition => Some(Rule::Predicate),
            Kind::Constant => Some(Rule::Constant),
            Kind::Fixed => Some(Rule::Flag),
            Kind::Outcome => Some(Rule::Flag),
            Kind::Exceptions => Some(Rule::Word),
            _ => None,
        }
    }

    /// What a list of this kind is to hold, where one may stand there.
    #[tactic(auto, unfolding(crate::specs::Table::list_of))]
    pub fn list(self) -> Option<Listed>
        ensures { result ≡ list_of self }
    {
        match self {
            Kind::Steps => Some(Listed {
                item: Kind::Step,
                nests: Nests::Block,
                filled: false,
            }),
            Kind::BatchSteps => Some(Listed {
                item: Kind::Step,
                nests: Nests::Batch,
                filled: false,
            }),
            Kind::Branches => Some(Listed {
                item: Kind::Step,
                nests: Nests::Block,
                filled: true,
            }),
            Kind::Cases => Some(Listed {
                item: Kind::Case,
                nests: Nests::Nowhere,
                filled: true,
            }),
            Kind::Catches => Some(Listed {
                item: Kind::Catch,
                nests: Nests::Nowhere,
                filled: false,
            }),
            Kind::Exceptions => Some(Listed {
                item: Kind::Leaf(Rule::Word),
                nests: Nests::Nowhere,
                filled: true,
            }),
            _ => None,
        }
    }

    /// How the keys of an object of this kind are judged.
    #[tactic(auto, unfolding(crate::specs::Table::shape_of))]
    pub fn shape(self) -> Shape
        ensures { result ≡ shape_of self }
    {
        match self {
            Kind::Item => Shape::Item,
            Kind::Step => Shape::Step,
            Kind::ErrorHandler => Shape::Handler,
            Kind::Parameters => Shape::Free,
            Kind::Steps
            | Kind::BatchSteps
            | Kind::Branches
            | Kind::Cases
            | Kind::Catches
            | Kind::Exceptions
            | Kind::Leaf(_) => Shape::Closed,
            _ => Shape::Keyed,
        }
    }
}
