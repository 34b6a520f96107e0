ghost use Rattle.std.specs.Prelude.{◌≡◌};
ghost use Rattle.eip_command.specs.Forms as spec;

use crate::options::are_pairs;
use eip_text::{Text, read_count};

/// What a word of a command is to be.
#[derive(Clone, Copy, Debug, PartialEq, Eq)]
pub enum Rule {
    /// A path: it isn't empty, doesn't begin with `-` and doesn't end with `/`.
    Path,
    /// A whole number from the first to the second, in decimal digits without needless zero.
    Count(u32, u32),
}

/// An option of a command: its word, and what the word behind it is to be.
#[derive(Clone, Copy)]
pub struct OptionRule {
    pub word: &'static str,
    pub value: Rule,
}

/// How the words of a command go: its own word, a word for each operand, and behind these its options.
#[derive(Clone, Copy)]
pub struct Form {
    pub word: &'static str,
    pub operands: &'static [Rule],
    pub options: &'static [OptionRule],
}

impl Rule {
    /// Whether a word is what the rule says.
    pub fn fits(self, word: &str) -> bool
        ensures { result ≡ spec.fits self word.now }
    {
        match self {
            Rule::Path => is_path(word),
            Rule::Count(least, most) => match read_count(word) {
                Some(count) => least <= count && count <= most,
                None => false,
            },
        }
    }
}

/// Whether a word may be a path.
fn is_path(word: &str) -> bool
    ensures { result ≡ spec.is_path word.now }
{
    let bytes = word.as_bytes();
    !bytes.is_empty() && bytes[0] != b'-' && bytes[bytes.len() - 1] != b'/'
}

impl Form {
    /// Whether the words behind the command's own go by the form: one for each operand, each what its rule says, and
    /// behind them pairs of an option and its value, in any order and no option twice.
    pub fn admits(&self, words: &[Text]) -> bool
        ensures { result ≡ spec.admits (spec.form_seen self.now) words.now }
    {
        let mut rest = words;
        for rule in self.operands {
            let [word, more @ ..] = rest else {
                return false;
            };
            if !rule.fits(word.as_str()) {
                return false;
            }
            rest = more;
        }
        are_pairs(self.options, rest)
    }
}
