use super::limit_rows::{LARGE, LIMITS, NOT_JSON, WITHIN};
use super::{is_kept, is_so};
use crate::support::{ALL, is_told};
use eip_text::NoMemory;
use std::alloc::Global;
use std::test::*;

/// Appends a text `N*TEXT` so many times.
fn push_times(out: &mut String, marked: &str) -> Result<(), NoMemory> {
    let Some((count, text)) = marked.split_once('*') else {
        return Ok(());
    };
    let Ok(count) = count.parse::<u32>() else {
        return Ok(());
    };
    for _ in 0..count {
        out.push_str(text)?;
    }
    Ok(())
}

/// A row with what its marks `<N*TEXT>` stand for.
fn written_out(alloc: Global, row: &str) -> Result<String, NoMemory> {
    let mut out = String::new(alloc);
    for piece in row.split('<') {
        match piece.split_once('>') {
            Some((marked, plain)) => {
                push_times(&mut out, marked)?;
                out.push_str(plain)?;
            }
            None => out.push_str(piece)?,
        }
    }
    Ok(out)
}

/// Whether a row with marks is so, and keeps its text where `kept` is set.
fn is_so_written_out(alloc: Global, row: &str, kept: bool) -> Result<bool, NoMemory> {
    let row = written_out(alloc, row)?;
    if kept && !is_kept(alloc, row.as_str())? {
        return Ok(false);
    }
    is_so(alloc, row.as_str(), ALL)
}

/// The first row with marks that isn't so, or the empty text.
fn wrong(alloc: Global, rows: &str, kept: bool) -> Result<&str, NoMemory> {
    for row in rows.lines() {
        if !is_so_written_out(alloc, row, kept)? {
            return Ok(row);
        }
    }
    Ok("")
}

/// The tables of limits, with whether their texts are kept.
const TABLES: [(&str, bool); 2] = [(LIMITS, false), (WITHIN, true)];

#[test]
fn bytes_keys_numbers_routes_and_blocks_have_their_limits(rt: HostRuntime) -> Result<(), Fail> {
    for &(rows, kept) in &TABLES {
        let row = wrong(rt.alloc(), rows, kept)?;
        assert!(rt; row.is_empty(), "of {row}");
    }
    Ok(())
}

#[test]
fn files_with_as_many_blocks_as_fit_are_read_and_printed(rt: HostRuntime) -> Result<(), Fail> {
    let row = wrong(rt.alloc(), LARGE, true)?;
    assert!(rt; row.is_empty(), "of {row}");
    Ok(())
}

/// A file with a clause and so many routes, each item with its number, from 1, at two places.
fn numbered(
    alloc: Global,
    count: u32,
    first: &str,
    item: (&str, &str, &str),
) -> Result<String, NoMemory> {
    let mut out = String::from_str(alloc, first)?;
    for number in 1..=count {
        let (front, middle, back) = item;
        let item = format!(in alloc; "{front}{number}{middle}{number}{back}")?;
        out.push_str(item.as_str())?;
    }
    out.push_str("]")?;
    Ok(out)
}

/// Whether a file of so many routes is told as wanted.
fn is_told_of_routes(alloc: Global, count: u32, wanted: &str) -> Result<bool, NoMemory> {
    let item = (r#",{"from":{"id":""#, r#"","uri":"seda:q"#, r#""}}"#);
    let file = numbered(alloc, count, r#"[{"onException":{"exception":"E"}}"#, item)?;
    is_told(alloc, file.as_bytes(), ALL, wanted)
}

/// Whether a file of 256 routes is told as its canonical text.
fn are_256_routes_told(alloc: Global) -> Result<bool, NoMemory> {
    let item = (
        r#",{"route":{"from":{"steps":[],"uri":"seda:q"#,
        r#""},"id":"route"#,
        r#""}}"#,
    );
    let text = numbered(alloc, 256, r#"[{"onException":{"exception":["E"]}}"#, item)?;
    is_told_of_routes(alloc, 256, text.as_str())
}

#[test]
fn a_file_has_at_most_256_routes(rt: HostRuntime) -> Result<(), Fail> {
    assert!(rt; are_256_routes_told(rt.alloc())?);
    assert!(rt; is_told_of_routes(rt.alloc(), 257, "$ TooManyRoutes")?);
    Ok(())
}

/// Bytes that are no UTF-8, and characters that don't stand there in JSON.
const NOT_TEXT: [&[u8]; 10] = [
    b"\xff",
    b"[\"\xff\"]",
    b"[\"\xc3\"]",
    b"[\"\xc0\x80\"]",
    b"[\"\xed\xa0\x80\"]",
    b"[{\"\xff\":1}]",
    b"\xef\xbb\xbf[]",
    b"[]\0",
    b"[\"a\tb\"]",
    b"[\xc2\xa0]",
];

#[test]
fn other_bytes_are_no_json(rt: HostRuntime) -> Result<(), Fail> {
    for bytes in &NOT_TEXT {
        assert!(rt; is_told(rt.alloc(), bytes, ALL, "$ NotJson")?);
    }
    for text in NOT_JSON.lines() {
        assert!(rt;
            is_told(rt.alloc(), text.as_bytes(), ALL, "$ NotJson")?,
            "of {text}"
        );
    }
    Ok(())
}

/// A file with all blanks of JSON, and characters that JSON need not escape.
const BLANKS: &[u8] =
    b" \t\r\n[\n{ \"onException\"\t:\r{\"exception\" : [\"\\u007f\\u2028\\ufeff\" ] } }\n]\r\n";

#[test]
fn blanks_are_dropped_and_only_what_json_wants_is_escaped(rt: HostRuntime) -> Result<(), Fail> {
    let text = "[{\"onException\":{\"exception\":[\"\u{7f}\u{2028}\u{feff}\"]}}]";
    assert!(rt; is_told(rt.alloc(), BLANKS, ALL, text)?);
    Ok(())
}
