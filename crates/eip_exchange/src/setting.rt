use eip_text::{Series, Text};

/// How the messages of parts or arrivals become one (Camel manual, *Aggregate EIP*, *AggregationStrategy*).
#[derive(Drop)]
pub enum Strategy {
    /// The message before the parts stays.
    Original,
    /// The last message stands alone.
    Latest,
    /// The bodies stand in one text with this text between them.
    Joined(Text),
    /// The bodies stand in one JSON array of texts.
    Grouped,
    /// The bodies are whole numbers, and their sum stands in decimal.
    Sum,
    /// The messages stand packed in one text, to be put in order (*Resequence EIP*); only a resequencer names it.
    Batch,
}

/// How a body is cut into parts (Camel manual, *Split EIP*).
#[derive(Drop)]
pub enum How {
    /// At each place of this text, which isn't empty.
    Token(Text),
    /// Into the elements of a JSON array.
    JsonArray,
    /// Into the messages that are packed in it, in the order of this key (*Resequence EIP*); only a resequencer names it.
    Batch(Key),
}

/// What of a message it is put in order by (Camel manual, *Resequence EIP*).
#[derive(Drop)]
pub enum Key {
    /// The body.
    Body,
    /// The header with this name; a message without it has the empty text.
    Header(Text),
    /// The property with this name; a message without it has the empty text.
    Property(Text),
}

/// How a failed step is tried again (Camel manual, *Exception Clause*, redelivery policy). What isn't given comes from
/// the handler, and there from the defaults.
#[derive(Clone, Copy, Debug, PartialEq, Eq)]
pub struct Policy {
    /// How often a step is tried again, 0 to 1,000.
    pub maximum: Option<u32>,
    /// Ticks before the first new try, at most 1,000,000,000.
    pub delay: Option<u64>,
    /// By what the delay grows from try to try, 1 to 100.
    pub multiplier: Option<u64>,
    /// Whether the delay grows.
    pub backing_off: Option<bool>,
    /// The greatest delay in ticks, at most 1,000,000,000.
    pub greatest: Option<u64>,
}

/// What is done about some kinds of fault, in every route (Camel manual, *Exception Clause*).
#[derive(Drop)]
pub struct Clause {
    /// The kinds of fault, of which the last dotted segment counts; `Exception` is every kind.
    pub names: Series<Text>,
    pub policy: Policy,
    /// The exchange ends as handled.
    pub handled: bool,
    /// The route goes on behind the failed step.
    pub continued: bool,
    /// The number of the block of its steps, where it has steps.
    pub block: Option<u32>,
}
