ghost use Rattle.std.specs.Prelude.{◌≡◌, map, option_map};
ghost use Rattle.eip_command.specs.Forms as spec;

use crate::forms::{OptionRule, Rule};
use eip_text::Text;

/// What stands behind an option's word, in words that come in pairs: the first such value.
pub fn value_of<'w>(words: &'w [Text], option: &str) -> Option<&'w Text>
    ensures { option_map (λ t. t.now) result ≡ spec.value_of option.now words.now }
{
    let mut rest = words;
    while let [word, value, more @ ..] = rest {
        if word.as_str() == option {
            return Some(value);
        }
        rest = more;
    }
    None
}

/// Whether an option has a value in words that come in pairs.
fn is_given(words: &[Text], option: &str) -> bool
    ensures { result ≡ spec.is_given option.now words.now }
{
    value_of(words, option).is_some()
}

/// What the value of the option with this word is to be.
fn rule_of(options: &[OptionRule], word: &str) -> Option<Rule>
    ensures { result ≡ spec.rule_of (map spec.option_seen options.now) word.now }
{
    for option in options {
        if option.word == word {
            return Some(option.value);
        }
    }
    None
}

/// Whether this is an option with a value that fits.
fn is_option(options: &[OptionRule], word: &str, value: &str) -> bool
    ensures { result ≡ spec.is_option (map spec.option_seen options.now) word.now value.now }
{
    match rule_of(options, word) {
        Some(rule) => rule.fits(value),
        None => false,
    }
}

/// Whether words are pairs of an option and its value, no option twice.
pub fn are_pairs(options: &[OptionRule], words: &[Text]) -> bool
    ensures { result ≡ spec.are_pairs (map spec.option_seen options.now) words.now }
{
    let mut rest = words;
    while let [word, value, more @ ..] = rest {
        if !is_option(options, word.as_str(), value.as_str()) {
            return false;
        }
        if is_given(more, word.as_str()) {
            return false;
        }
        rest = more;
    }
    rest.is_empty()
}
