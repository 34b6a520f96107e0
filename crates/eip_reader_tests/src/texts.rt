use eip_test_support::repeated;
use eip_text::{
    JsonFault, NoMemory, Text, TextFault, Tree, decimal, escape, is_name, print_json, quote,
    read_i64, read_json, same_name, signed_decimal, split_by,
};
use std::alloc::Global;
use std::test::Fail;

/// Bytes that are read, and what is printed of their tree.
const READ: [(&[u8], &[u8]); 10] = [
    (b"null", b"null"),
    (b" true\n", b"true"),
    (b"-9223372036854775808", b"-9223372036854775808"),
    (b"18446744073709551615", b"18446744073709551615"),
    (b"\"a\\u0009\\/\\u00e9\\\"\"", b"\"a\\t/\xc3\xa9\\\"\""),
    (b"[]", b"[]"),
    (b"[1, [false], {}]", b"[1,[false],{}]"),
    (b"{\"b\": 1, \"a\": 2}", b"{\"a\":2,\"b\":1}"),
    (b"{\"k\": 1, \"K\": 2, \"k\": 3}", b"{\"K\":2,\"k\":3}"),
    (b"{\"a\": {\"\": [0]}}", b"{\"a\":{\"\":[0]}}"),
];

/// Whether a tree holds no float and is printed as this.
fn is_tree_printed(alloc: Global, tree: &Tree, printed: &[u8]) -> Result<bool, NoMemory> {
    Ok(!tree.has_float() && print_json(alloc, tree)?.bytes() == printed)
}

/// Whether a tree is read from the bytes that holds no float and is printed as this.
fn is_printed(alloc: Global, bytes: &[u8], printed: &[u8]) -> Result<bool, JsonFault> {
    let tree = read_json(alloc, bytes)?;
    Ok(is_tree_printed(alloc, &tree, printed)?)
}

#[test]
fn trees_are_read_and_printed(rt: HostRuntime) -> Result<(), Fail> {
    for &(bytes, printed) in &READ {
        assert!(rt; is_printed(rt.alloc(), bytes, printed)?);
    }
    Ok(())
}

/// What is read from bytes.
#[derive(Clone, Copy, PartialEq)]
enum Kind {
    NotJson,
    Float,
    Other,
}

/// Bytes from which nothing is read, and numbers that are not whole numbers of 64 bits.
const OTHER_BYTES: [(&[u8], Kind); 18] = [
    (b"", Kind::NotJson),
    (b" ", Kind::NotJson),
    (b"nul", Kind::NotJson),
    (b"01", Kind::NotJson),
    (b"[1,]", Kind::NotJson),
    (b"{\"a\"}", Kind::NotJson),
    (b"{a:1}", Kind::NotJson),
    (b"'a'", Kind::NotJson),
    (b"1 2", Kind::NotJson),
    (b"\"\\ud800\"", Kind::NotJson),
    (b"1e999", Kind::NotJson),
    (b"\"\xff\"", Kind::NotJson),
    (b"1.5", Kind::Float),
    (b"1.0", Kind::Float),
    (b"1e2", Kind::Float),
    (b"-0", Kind::Float),
    (b"18446744073709551616", Kind::Float),
    (b"-9223372036854775809", Kind::Float),
];

fn read_as(alloc: Global, bytes: &[u8]) -> Result<Kind, NoMemory> {
    match read_json(alloc, bytes) {
        Ok(Tree::Float) => Ok(Kind::Float),
        Ok(_) => Ok(Kind::Other),
        Err(JsonFault::NotJson) => Ok(Kind::NotJson),
        Err(JsonFault::NoMemory) => Err(NoMemory),
    }
}

#[test]
fn other_bytes_are_no_json(rt: HostRuntime) -> Result<(), Fail> {
    for &(bytes, kind) in &OTHER_BYTES {
        assert!(rt; read_as(rt.alloc(), bytes)? == kind);
    }
    Ok(())
}

/// Whether lists that nest so deep are read.
fn is_read_at_depth(alloc: Global, depth: usize) -> Result<bool, NoMemory> {
    let mut text = repeated(alloc, "[", depth)?;
    for _ in 0..depth {
        text.push(']')?;
    }
    Ok(read_json(alloc, text.as_str().as_bytes()).is_ok())
}

#[test]
fn lists_nest_up_to_127_deep(rt: HostRuntime) -> Result<(), Fail> {
    for &(depth, is_read) in &[(127, true), (128, false)] {
        assert!(rt; is_read_at_depth(rt.alloc(), depth)? == is_read);
    }
    Ok(())
}

/// Texts, escaped and quoted.
const SHOWN: [(&str, &str, &str); 5] = [
    ("", "", "\"\""),
    ("plain, \u{e9}", "plain, \u{e9}", "\"plain, \u{e9}\""),
    ("a\\b\"c", "a\\\\b\"c", "\"a\\\\b\\\"c\""),
    ("\r\n\t", "\\r\\n\\x09", "\"\\r\\n\\x09\""),
    ("\0x\x1f\x7f", "\\x00x\\x1f\\x7f", "\"\\x00x\\x1f\\x7f\""),
];

/// A copy of the text.
fn copy_of(alloc: Global, text: &str) -> Result<Text, NoMemory> {
    let text = Text::of_str(alloc, text)?;
    text.copy()
}

/// Whether a copy of the text is escaped and quoted like this.
fn is_shown(
    alloc: Global,
    text: &str,
    escaped: &str,
    quoted: &str,
) -> Result<(bool, bool), NoMemory> {
    let text = copy_of(alloc, text)?;
    let is_escaped = escape(alloc, &text)?.as_str() == escaped;
    Ok((is_escaped, quote(alloc, &text)?.as_str() == quoted))
}

#[test]
fn texts_are_shown_in_one_line(rt: HostRuntime) -> Result<(), Fail> {
    for &(text, escaped, quoted) in &SHOWN {
        let got = is_shown(rt.alloc(), text, escaped, quoted)?;
        assert!(rt; got == (true, true), "of {text}");
    }
    Ok(())
}

/// Bytes, and the whole number that they spell.
const NUMBERS: [(&[u8], Option<i64>); 12] = [
    (b"0", Some(0)),
    (b"-0", Some(0)),
    (b"007", Some(7)),
    (b"-9223372036854775808", Some(-9223372036854775808)),
    (b"9223372036854775807", Some(9223372036854775807)),
    (b"9223372036854775808", None),
    (b"-9223372036854775809", None),
    (b"+1", None),
    (b"", None),
    (b"-", None),
    (b" 1", None),
    (b"1\xff", None),
];

/// Whether the greatest number of 64 bits and a negative one are printed in decimal.
fn are_decimals(alloc: Global) -> Result<(bool, bool), NoMemory> {
    let greatest = decimal(alloc, 18446744073709551615)?.as_str() == "18446744073709551615";
    Ok((greatest, signed_decimal(alloc, -120)?.as_str() == "-120"))
}

#[test]
fn whole_numbers_are_read_and_printed(rt: HostRuntime) -> Result<(), Fail> {
    for &(bytes, number) in &NUMBERS {
        assert!(rt; read_i64(bytes) == number);
    }
    assert!(rt; are_decimals(rt.alloc())? == (true, true));
    Ok(())
}

/// A text, where it is cut, and its pieces.
const SPLIT: [(&str, &str, &[&str]); 5] = [
    ("a,b,,c,", ",", &["a", "b", "", "c", ""]),
    ("abc", "x", &["abc"]),
    ("", ",", &[""]),
    ("aaa", "aa", &["", "a"]),
    ("1\r\n2\n", "\n", &["1\r", "2", ""]),
];

/// Whether these are the texts.
fn are_texts(texts: &[Text], wanted: &[&str]) -> bool {
    for (text, wanted) in texts.iter().zip(wanted.iter()) {
        if text.as_str() != *wanted {
            return false;
        }
    }
    texts.len() == wanted.len()
}

/// Whether the text is cut into these pieces.
fn is_split(alloc: Global, text: &str, by: &str, wanted: &[&str]) -> Result<bool, NoMemory> {
    let text = Text::of_str(alloc, text)?;
    let by = Text::of_str(alloc, by)?;
    if by.bytes().is_empty() {
        return Ok(false);
    }
    let pieces = split_by(alloc, &text, &by)?;
    Ok(are_texts(pieces.as_slice(), wanted))
}

#[test]
fn texts_are_split_at_each_occurrence(rt: HostRuntime) -> Result<(), Fail> {
    for &(text, by, wanted) in &SPLIT {
        assert!(rt; is_split(rt.alloc(), text, by, wanted)?, "of {text}");
    }
    Ok(())
}

/// Bytes, and whether they are a name.
const NAMES: [(&[u8], bool); 4] = [
    (b"a_b-c.9", true),
    (b"", false),
    (b"a b", false),
    (b"\xc3\xa9", false),
];

fn is_no_text(alloc: Global, bytes: &[u8]) -> bool {
    matches!(Text::read(alloc, bytes), Err(TextFault::NotText))
}

#[test]
fn names_are_told(rt: HostRuntime) -> Result<(), Fail> {
    for &(bytes, named) in &NAMES {
        assert!(rt; is_name(bytes) == named);
    }
    assert!(rt; same_name(b"Content-Type", b"content-tYPE"));
    assert!(rt; !same_name(b"a[", b"a{"));
    assert!(rt; is_no_text(rt.alloc(), b"\xff"));
    Ok(())
}
