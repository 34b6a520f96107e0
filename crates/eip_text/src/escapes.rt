ghost use Rattle.std.specs.Prelude.{◌≡◌, ◌<◌, ◌++◌, true, IfOk, OnOk, MatchOption, string_bytes};
ghost use Rattle.std.specs.List.{position};
ghost use Rattle.eip_text.specs.Escapes.{hex_digit, is_marked, shown_byte, shown, escaped, quoted, CutAtMark};

use crate::memory::NoMemory;
use crate::text::Text;
use std::alloc::Global;

/// The text in one line: `\\` for a backslash, `\n` and `\r` for LF and CR, `\x` and two lower
/// case hexadecimal digits for each other byte below 20 hexadecimal and for 7f. All else stays.
pub fn escape(alloc: Global, text: &Text) -> Result<Text, NoMemory>
    ensures { IfOk result (λ t. t ≡ escaped text.now) }
{
    let text = text.as_str();
    let mut out = String::with_capacity(alloc, text.len())?;
    push_escaped(&mut out, text)?;
    Ok(Text::of(out))
}

/// The text in quotation marks, escaped as by `escape`, and with `\"` for a quotation mark.
pub fn quote(alloc: Global, text: &Text) -> Result<Text, NoMemory>
    ensures { IfOk result (λ t. t ≡ quoted text.now) }
{
    let text = text.as_str();
    let mut out = String::with_capacity(alloc, text.len())?;
    push_quoted(&mut out, text)?;
    Ok(Text::of(out))
}

/// Appends what `escape` gives of a text. Where memory is wanting, a front part may stand in `out`.
pub fn push_escaped(out: &mut String, text: &str) -> Result<(), NoMemory>
    ensures { OnOk result (string_bytes out.new ≡ string_bytes out.old ++ escaped text.now) }
{
    push_shown(out, text, false)
}

/// Appends what `quote` gives of a text. Where memory is wanting, a front part may stand in `out`.
pub fn push_quoted(out: &mut String, text: &str) -> Result<(), NoMemory>
    ensures { OnOk result (string_bytes out.new ≡ string_bytes out.old ++ quoted text.now) }
{
    out.push_str("\"")?;
    push_shown(out, text, true)?;
    out.push_str("\"")?;
    Ok(())
}

/// Appends the escaped text, with its quotation marks escaped too where `quotes` says so.
fn push_shown(out: &mut String, text: &str, quotes: bool) -> Result<(), NoMemory>
    ensures { OnOk result (string_bytes out.new ≡ string_bytes out.old ++ shown quotes text.now) }
{
    let mut rest = text;
    while let Some((plain, mark, behind)) = cut_at_mark(rest, quotes) {
        out.push_str(plain)?;
        push_mark(out, mark)?;
        rest = behind;
    }
    out.push_str(rest)?;
    Ok(())
}

fn cut_at_mark(text: &str, quotes: bool) -> Option<(&str, u8, &str)>
    ensures { MatchOption result (shown quotes text.now ≡ text.now)
        (λ c. CutAtMark quotes text.now c.0.now c.1 c.2.now) }
{
    let at = first_mark(text.as_bytes(), quotes)?;
    Some((&text[..at], text.as_bytes()[at], &text[at + 1..]))
}

fn first_mark(bytes: &[u8], quotes: bool) -> Option<usize>
    ensures { result ≡ position (is_marked quotes) bytes.now }
{
    bytes.iter().position(|byte| is_mark(*byte, quotes))
}

fn is_mark(byte: u8, quotes: bool) -> bool
    ensures { result ≡ is_marked quotes byte }
{
    byte.is_ascii_control() || byte == b'\\' || (quotes && byte == b'"')
}

fn push_mark(out: &mut String, mark: u8) -> Result<(), NoMemory>
    requires { is_marked true mark ≡ true }
    ensures { OnOk result (string_bytes out.new ≡ string_bytes out.old ++ shown_byte true mark) }
{
    match mark {
        b'"' => out.push_str("\\\"")?,
        b'\\' => out.push_str("\\\\")?,
        b'\n' => out.push_str("\\n")?,
        b'\r' => out.push_str("\\r")?,
        _ => {
            out.push_str("\\x")?;
            out.push(hex_digit(mark / 16))?;
            out.push(hex_digit(mark % 16))?;
        }
    }
    Ok(())
}

fn hex_digit(digit: u8) -> char
    requires { digit < 16 }
    ensures { result ≡ hex_digit digit }
{
    if digit < 10 {
        char::from(b'0' + digit)
    } else {
        char::from(b'a' + (digit - 10))
    }
}
