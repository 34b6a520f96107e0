ghost use Rattle.std.specs.Prelude.{◌≡◌, ◌+◌, ◌≤◌, ◌++◌, ◌↔◌, length, take, IfOk, IfErr, IfSome, IsErrOf, string_bytes};
ghost use Rattle.std.specs.Str.{IsUtf8};
ghost use Rattle.std.specs.String.Boundary.{IsSplitPoint};
ghost use Rattle.eip_text.specs.Held.{held_bytes};

use crate::memory::NoMemory;
use arrayvec::ArrayString;
use std::alloc::{AllocError, Global};
use std::marker::Model;
use thiserror::Error;

/// The greatest length of a text that lies in the value itself: most names and numbers are no longer.
const SHORT: usize = 16;

/// How the bytes of a text are kept.
#[derive(Debug, Drop)]
enum Held {
    /// In the value itself, so that a copy takes no memory.
    Short(ArrayString<SHORT>),
    /// On the heap.
    Long(String),
}

/// A text of UTF-8 (RFC 3629), which contracts see as the list of its bytes.
#[derive(Debug)]
pub struct Text {
    held: Held,
}

impl Drop for Text {
    fn drop(self) {
        let Text { held } = self;
        drop(held);
    }
}

impl Model for Text {
    ghost use Rattle.std.specs.Prelude.{List, ℕ};
    ghost use Rattle.eip_text.specs.Held.{held_bytes};

    ghost Value = { List ℕ };

    ghost view = { λ t. held_bytes t.held };
}

/// Why bytes are no text.
#[derive(Clone, Copy, Debug, PartialEq, Eq, Error)]
pub enum TextFault {
    /// The bytes are not UTF-8.
    #[error("not UTF-8")]
    NotText,
    #[error("out of memory")]
    NoMemory,
}

impl From<NoMemory> for TextFault {
    ghost use Rattle.std.specs.Prelude.{◌≡◌};
    ghost use Rattle.eip_text.specs.declared.text.TextFault.TheVariants.{NoMemory};

    ghost from_gives = { λ _ e. e ≡ NoMemory };

    fn from(_refused: NoMemory) -> TextFault {
        TextFault::NoMemory
    }
}

impl From<AllocError> for TextFault {
    ghost use Rattle.std.specs.Prelude.{◌≡◌};
    ghost use Rattle.eip_text.specs.declared.text.TextFault.TheVariants.{NoMemory};

    ghost from_gives = { λ _ e. e ≡ NoMemory };

    fn from(_refused: AllocError) -> TextFault {
        TextFault::NoMemory
    }
}

impl Text {
    /// The text of these bytes. `NotText` exactly where they are not UTF-8.
    pub fn read(alloc: Global, bytes: &[u8]) -> Result<Text, TextFault>
        ensures text { IfOk result (λ t. t ≡ bytes.now) }
        ensures utf8 { IfOk result (λ _. IsUtf8 bytes.now) }
        ensures not_text { IsErrOf result TextFault.NotText ↔ ¬ (IsUtf8 bytes.now) }
    {
        let Ok(text) = str::from_utf8(bytes) else {
            return Err(TextFault::NotText);
        };
        Ok(Text::of_str(alloc, text)?)
    }

    /// The text of a string, without memory.
    pub fn of(string: String) -> Text
        ensures { result ≡ string_bytes string }
    {
        match short(string.as_str()) {
            Some(short) => {
                drop(string);
                Text {
                    held: Held::Short(short),
                }
            }
            None => Text {
                held: Held::Long(string),
            },
        }
    }

    /// A text of its own with the bytes of `text`.
    pub fn of_str(alloc: Global, text: &str) -> Result<Text, NoMemory>
        ensures { IfOk result (λ t. t ≡ text.now) }
    {
        match short(text) {
            Some(short) => Ok(Text {
                held: Held::Short(short),
            }),
            None => Ok(Text {
                held: Held::Long(String::from_str(alloc, text)?),
            }),
        }
    }

    /// The bytes, which are UTF-8.
    pub fn bytes(&self) -> &[u8]
        ensures value { result.now ≡ self.now }
        ensures utf8 { IsUtf8 result.now }
    {
        self.as_str().as_bytes()
    }

    /// The text as a string slice.
    pub fn as_str(&self) -> &str
        ensures { result.now ≡ self.now }
    {
        match &self.held {
            Held::Short(short) => short.as_str(),
            Held::Long(string) => string.as_str(),
        }
    }

    /// The text as a `String` that may grow. Where memory is wanting for it, the text itself.
    pub fn into_string(self, alloc: Global) -> Result<String, Text>
        ensures ok { IfOk result (λ s. string_bytes s ≡ self) }
        ensures err { IfErr result (λ t. t ≡ self) }
    {
        let Text { held } = self;
        match held {
            Held::Long(string) => Ok(string),
            held => on_heap(alloc, Text { held }),
        }
    }

    /// Puts `tail` in the place of all that stands behind the first `end` bytes, which are a text, and which leave room for it.
    /// It takes no memory.
    pub fn end_with(&mut self, end: usize, tail: &str)
        requires start { IsUtf8 (take end self.old) }
        requires room { end + length tail.now ≤ length self.old }
        ensures { self.new ≡ take end self.old ++ tail.now }
    {
        let _ = self.bytes();
        match &mut self.held {
            Held::Short(short) => end_short(short, end, tail),
            Held::Long(string) => end_long(string, end, tail),
        }
    }

    /// A copy with the same bytes.
    pub fn copy(&self) -> Result<Text, NoMemory>
        ensures { IfOk result (λ t. t ≡ self.now) }
    {
        match &self.held {
            Held::Short(short) => Ok(Text {
                held: Held::Short(*short),
            }),
            Held::Long(string) => Ok(Text {
                held: Held::Long(string.clone()?),
            }),
        }
    }
}

/// The text in a value without an allocation, where it is short enough.
fn short(text: &str) -> Option<ArrayString<SHORT>>
    ensures { IfSome result (λ s. s.bytes ≡ text.now) }
{
    match ArrayString::from(text) {
        Ok(short) => Some(short),
        Err(_) => None,
    }
}

/// The same text as a string on the heap, or as it is where memory is wanting.
fn on_heap(alloc: Global, text: Text) -> Result<String, Text>
    ensures ok { IfOk result (λ s. string_bytes s ≡ text) }
    ensures err { IfErr result (λ t. t ≡ text) }
{
    match String::from_str(alloc, text.as_str()) {
        Ok(string) => Ok(string),
        Err(_) => Err(text),
    }
}

fn end_short(text: &mut ArrayString<SHORT>, end: usize, tail: &str)
    requires split { IsSplitPoint text.old.bytes end }
    requires room { end + length tail.now ≤ length text.old.bytes }
    ensures { text.new.bytes ≡ take end text.old.bytes ++ tail.now }
{
    let _ = text.len();
    text.truncate(end);
    text.push_str(tail);
}

fn end_long(text: &mut String, end: usize, tail: &str)
    requires split { IsSplitPoint (string_bytes text.old) end }
    requires room { end + length tail.now ≤ length (string_bytes text.old) }
    ensures { string_bytes text.new ≡ take end (string_bytes text.old) ++ tail.now }
{
    text.truncate(end);
    match text.push_str(tail) {
        Ok(()) => {}
        Err(_) => unreachable!(),
    }
}
