ghost use Rattle.std.specs.Prelude.{◌≡◌, ◌≤◌, IfSome};
ghost use Rattle.std.specs.List.{list_all};
ghost use Rattle.eip_text.specs.Counts.{count_of};
ghost use Rattle.eip_uri.specs.Options as options;
ghost use Rattle.eip_uri.specs.Reading.{scheme_of};

use crate::uri::Exist;
use eip_text::cuts::holds;
use eip_text::read_count;

/// What stands before a URI's first colon.
#[derive(Clone, Copy, Debug, PartialEq, Eq)]
pub enum Scheme {
    Direct,
    Seda,
    File,
    Stream,
    Log,
    Line,
    Lane,
    Load,
}

/// Which values an option takes.
#[derive(Clone, Copy, Debug, PartialEq, Eq)]
pub enum Values {
    /// A decimal number from `low` to `high`.
    Count { low: u32, high: u32 },
    /// `true` or `false`.
    Flag,
    /// The path of a folder.
    Folder,
    /// `Override`, `Append`, `Fail` or `Ignore`.
    Exist,
    /// A level of the log.
    Level,
}

impl Scheme {
    /// The scheme of this name.
    #[tactic(auto, unfolding(crate::specs::Reading::scheme_of))]
    pub fn named(name: &str) -> Option<Scheme>
        ensures { result ≡ scheme_of name.now }
    {
        match name {
            "direct" => Some(Scheme::Direct),
            "seda" => Some(Scheme::Seda),
            "file" => Some(Scheme::File),
            "stream" => Some(Scheme::Stream),
            "log" => Some(Scheme::Log),
            "line" => Some(Scheme::Line),
            "lane" => Some(Scheme::Lane),
            "load" => Some(Scheme::Load),
            _ => None,
        }
    }

    /// The values of the scheme's option of this name, where it has one.
    #[tactic(auto, unfolding(crate::specs::Options::values_of))]
    pub fn values_of(self, name: &str) -> Option<Values>
        ensures { result ≡ options.values_of self name.now }
    {
        match self {
            Scheme::Seda => seda_values(name),
            Scheme::File => file_values(name),
            Scheme::Log if name == "level" => Some(Values::Level),
            _ => None,
        }
    }
}

#[tactic(auto, unfolding(crate::specs::Options::values_of))]
fn seda_values(name: &str) -> Option<Values>
    ensures { result ≡ options.values_of Scheme.Seda name.now }
{
    match name {
        "size" => Some(Values::Count {
            low: 1,
            high: 100_000,
        }),
        "concurrentConsumers" => Some(Values::Count { low: 1, high: 64 }),
        "discardWhenFull" => Some(Values::Flag),
        _ => None,
    }
}

#[tactic(auto, unfolding(crate::specs::Options::values_of))]
fn file_values(name: &str) -> Option<Values>
    ensures { result ≡ options.values_of Scheme.File name.now }
{
    match name {
        "noop" | "delete" => Some(Values::Flag),
        "move" | "moveFailed" => Some(Values::Folder),
        "fileExist" => Some(Values::Exist),
        _ => None,
    }
}

impl Values {
    /// Whether an option that takes these values may have this one.
    #[tactic(auto, unfolding(crate::specs::Options::has))]
    pub fn has(self, value: &str) -> bool
        ensures { result ≡ options.has self value.now }
    {
        match self {
            Values::Count { low, high } => count_within(value, low, high).is_some(),
            Values::Flag => value == "true" || value == "false",
            Values::Folder => is_folder(value) && !holds(value, '&'),
            Values::Exist => exist_of(value).is_some(),
            Values::Level => is_level(value),
        }
    }
}

/// The number from `low` to `high` whose decimal text this is.
pub fn count_within(text: &str, low: u32, high: u32) -> Option<u32>
    ensures value { result ≡ options.within low high (count_of text.now) }
    ensures bounds { IfSome result (λ number. (low ≤ number) × (number ≤ high)) }
{
    match read_count(text) {
        Some(number) if low <= number && number <= high => Some(number),
        _ => None,
    }
}

/// Whether the text is a folder's path: 1 to 200 bytes, none of them a control byte or `?`, and
/// without `${`.
#[tactic(auto, unfolding(crate::specs::Options::is_folder))]
pub fn is_folder(text: &str) -> bool
    ensures { result ≡ options.is_folder text.now }
{
    let bytes = text.as_bytes();
    1 <= bytes.len() && bytes.len() <= 200 && are_folder_bytes(bytes) && !holds_word(text, "${")
}

fn are_folder_bytes(bytes: &[u8]) -> bool
    ensures { result ≡ list_all options.is_folder_byte bytes.now }
{
    bytes
        .iter()
        .all(|byte| *byte >= b' ' && *byte != 0x7f && *byte != b'?')
}

fn holds_word(text: &str, word: &str) -> bool
    ensures { result ≡ options.holds_word word.now text.now }
{
    text.contains(word)
}

/// What this word says of a file that is there already.
#[tactic(auto, unfolding(crate::specs::Options::exist_of))]
pub fn exist_of(word: &str) -> Option<Exist>
    ensures { result ≡ options.exist_of word.now }
{
    match word {
        "Override" => Some(Exist::Override),
        "Append" => Some(Exist::Append),
        "Fail" => Some(Exist::Fail),
        "Ignore" => Some(Exist::Ignore),
        _ => None,
    }
}

#[tactic(auto, unfolding(crate::specs::Options::is_level))]
fn is_level(word: &str) -> bool
    ensures { result ≡ options.is_level word.now }
{
    matches!(word, "TRACE" | "DEBUG" | "INFO" | "WARN" | "ERROR")
}
