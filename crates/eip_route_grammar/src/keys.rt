ghost use Rattle.std.specs.Prelude.{◌≡◌, ◌∷◌, ℕ, List, false, bytes_eq};
ghost use Rattle.std.specs.Option.{option_map_or};
ghost use Rattle.eip_route_grammar.specs.Keys.{spelled, dashed, is_spelled};

/// A word that an object of a route file may have as a key, by the names of Camel's YAML DSL.
#[derive(Clone, Copy)]
pub enum Key {
    Route,
    From,
    ErrorHandler,
    OnException,
    Id,
    Description,
    Uri,
    Parameters,
    Steps,
    Name,
    Expression,
    DeadLetterChannel,
    DefaultErrorHandler,
    DeadLetterUri,
    RedeliveryPolicy,
    MaximumRedeliveries,
    RedeliveryDelay,
    BackOffMultiplier,
    UseExponentialBackOff,
    MaximumRedeliveryDelay,
    Exception,
    Handled,
    Continued,
    SetBody,
    SetHeader,
    SetProperty,
    RemoveHeader,
    To,
    Log,
    ThrowException,
    Process,
    Choice,
    Filter,
    Split,
    Multicast,
    RecipientList,
    Aggregate,
    IdempotentConsumer,
    Simple,
    Constant,
    Header,
    ExchangeProperty,
    Ref,
    Tokenize,
    Token,
    Jsonpath,
    Message,
    LogName,
    LoggingLevel,
    ExceptionType,
    When,
    Otherwise,
    AggregationStrategy,
    ParallelProcessing,
    StopOnException,
    ShareUnitOfWork,
    Delimiter,
    CorrelationExpression,
    CompletionSize,
    CompletionTimeout,
    CompletionPredicate,
    ForceCompletionOnStop,
    IdempotentRepository,
    Eager,
    SkipDuplicate,
    RemoveOnFailure,
    DoTry,
    DoCatch,
    DoFinally,
    OnWhen,
    Resequence,
    BatchConfig,
    BatchSize,
    BatchTimeout,
}

impl Key {
    /// The key in camelCase.
    #[tactic(auto, unfolding(crate::specs::Keys::spelled))]
    pub fn spell(self) -> &'static str
        ensures { result.now ≡ spelled self }
    {
        match self {
            Key::Route => "route",
            Key::From => "from",
            Key::ErrorHandler => "errorHandler",
            Key::OnException => "onException",
            Key::Id => "id",
            Key::Description => "description",
            Key::Uri => "uri",
            Key::Parameters => "parameters",
            Key::Steps => "steps",
            Key::Name => "name",
            Key::Expression => "expression",
            Key::DeadLetterChannel => "deadLetterChannel",
            Key::DefaultErrorHandler => "defaultErrorHandler",
            Key::DeadLetterUri => "deadLetterUri",
            Key::RedeliveryPolicy => "redeliveryPolicy",
            Key::MaximumRedeliveries => "maximumRedeliveries",
            Key::RedeliveryDelay => "redeliveryDelay",
            Key::BackOffMultiplier => "backOffMultiplier",
            Key::UseExponentialBackOff => "useExponentialBackOff",
            Key::MaximumRedeliveryDelay => "maximumRedeliveryDelay",
            Key::Exception => "exception",
            Key::Handled => "handled",
            Key::Continued => "continued",
            Key::SetBody => "setBody",
            Key::SetHeader => "setHeader",
            Key::SetProperty => "setProperty",
            Key::RemoveHeader => "removeHeader",
            Key::To => "to",
            Key::Log => "log",
            Key::ThrowException => "throwException",
            Key::Process => "process",
            Key::Choice => "choice",
            Key::Filter => "filter",
            Key::Split => "split",
            Key::Multicast => "multicast",
            Key::RecipientList => "recipientList",
            Key::Aggregate => "aggregate",
            Key::IdempotentConsumer => "idempotentConsumer",
            Key::Simple => "simple",
            Key::Constant => "constant",
            Key::Header => "header",
            Key::ExchangeProperty => "exchangeProperty",
            Key::Ref => "ref",
            Key::Tokenize => "tokenize",
            Key::Token => "token",
            Key::Jsonpath => "jsonpath",
            Key::Message => "message",
            Key::LogName => "logName",
            Key::LoggingLevel => "loggingLevel",
            Key::ExceptionType => "exceptionType",
            Key::When => "when",
            Key::Otherwise => "otherwise",
            Key::AggregationStrategy => "aggregationStrategy",
            Key::ParallelProcessing => "parallelProcessing",
            Key::StopOnException => "stopOnException",
            Key::ShareUnitOfWork => "shareUnitOfWork",
            Key::Delimiter => "delimiter",
            Key::CorrelationExpression => "correlationExpression",
            Key::CompletionSize => "completionSize",
            Key::CompletionTimeout => "completionTimeout",
            Key::CompletionPredicate => "completionPredicate",
            Key::ForceCompletionOnStop => "forceCompletionOnStop",
            Key::IdempotentRepository => "idempotentRepository",
            Key::Eager => "eager",
            Key::SkipDuplicate => "skipDuplicate",
            Key::RemoveOnFailure => "removeOnFailure",
            Key::DoTry => "doTry",
            Key::DoCatch => "doCatch",
            Key::DoFinally => "doFinally",
            Key::OnWhen => "onWhen",
            Key::Resequence => "resequence",
            Key::BatchConfig => "batchConfig",
            Key::BatchSize => "batchSize",
            Key::BatchTimeout => "batchTimeout",
        }
    }

    /// Whether the text is one of the key's two spellings: camelCase, or kebab-case, in which an upper case letter is a
    /// dash and its lower case.
    #[tactic(auto, unfolding(crate::specs::Keys::is_spelled))]
    pub fn is(self, text: &str) -> bool
        ensures { result ≡ is_spelled self text.now }
    {
        text == self.spell() || is_dashed(self.spell(), text)
    }
}

/// Whether a text is a word of camelCase in kebab-case.
#[tactic(auto, unfolding(crate::specs::Keys::dashed))]
fn is_dashed(word: &str, text: &str) -> bool
    ensures { result ≡ bytes_eq text.now (dashed word.now) }
{
    let mut rest = text.as_bytes();
    for letter in word.as_bytes() {
        match behind_dashed(*letter, rest) {
            Some(behind) => rest = behind,
            None => return false,
        }
    }
    rest.is_empty()
}

/// What stands behind a letter of camelCase in kebab-case.
#[tactic(auto, unfolding(crate::specs::Keys::dashed))]
fn behind_dashed(letter: u8, text: &[u8]) -> Option<&[u8]>
    ensures { (word : List ℕ) → bytes_eq text.now (dashed (letter ∷ word))
        ≡ option_map_or (λ rest. bytes_eq rest.now (dashed word)) result false }
{
    if letter.is_ascii_uppercase() {
        match behind(b'-', text) {
            Some(rest) => behind(letter.to_ascii_lowercase(), rest),
            None => None,
        }
    } else {
        behind(letter, text)
    }
}

/// What stands behind a byte that comes first.
fn behind(byte: u8, text: &[u8]) -> Option<&[u8]>
    ensures { (bytes : List ℕ) → bytes_eq text.now (byte ∷ bytes)
        ≡ option_map_or (λ rest. bytes_eq rest.now bytes) result false }
{
    match text {
        [] => None,
        [first, rest @ ..] => { if *first == byte { Some(rest) } else { None } }
    }
}
