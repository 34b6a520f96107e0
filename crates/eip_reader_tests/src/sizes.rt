// Texts, messages and URIs where memory is ample, at the sizes that values may have. In a row `«N*TEXT»` stands for so
// many times this text.
use crate::uris::said;
use eip_exchange::HeaderFault;
use eip_test_support::{message_of_size, repeated, written_out};
use eip_text::{NoMemory, Text, quote, split_by};
use std::alloc::Global;
use std::test::*;

fn length_of(value: Option<&Text>) -> usize {
    match value {
        Some(value) => value.bytes().len(),
        None => 0,
    }
}

/// The lengths of a copy's body, header and property, where each of the message has so many bytes.
fn copied_at_size(alloc: Global, size: usize) -> Result<[usize; 3], HeaderFault> {
    let copy = message_of_size(alloc, size)?.copy(alloc)?;
    let header = length_of(copy.headers.get(b"H"));
    let property = length_of(copy.properties.get(b"p"));
    Ok([copy.body.bytes().len(), header, property])
}

#[test]
fn headers_and_properties_of_65536_bytes_are_kept(rt: HostRuntime) -> Result<(), Fail> {
    let size = 65_536;
    assert!(rt; copied_at_size(rt.alloc(), size)? == [size; 3]);
    Ok(())
}

/// URIs in their printed form, and the number of their bytes.
const URIS: [(&str, usize); 4] = [
    ("file:«200*f»?move=«89*m»", 300),
    ("file:/«99*é»?moveFailed=/«88*m»", 305),
    (
        "file:«200*f»?fileExist=Append&move=«200*m»&moveFailed=«200*n»",
        640,
    ),
    ("line:«64*h»:65535", 75),
];

/// The length of a URI, and whether it is read and printed as it stands.
fn uri_at_size(alloc: Global, marked: &str) -> Result<(usize, bool), NoMemory> {
    let text = written_out(alloc, marked)?;
    let printed = said(alloc, text.as_str(), None)?;
    Ok((text.len(), printed.as_str() == text.as_str()))
}

#[test]
fn uris_of_300_bytes_are_read_and_printed(rt: HostRuntime) -> Result<(), Fail> {
    for &(uri, len) in &URIS {
        assert!(rt; uri_at_size(rt.alloc(), uri)? == (len, true), "of {uri}");
    }
    Ok(())
}

/// The length of a text of so many zero bytes once it is quoted, and the number of pieces of so many commas.
fn shown_and_split(alloc: Global, zeros: usize, commas: usize) -> Result<(usize, usize), NoMemory> {
    let quoted = quoted_length(alloc, zeros)?;
    let commas = repeated(alloc, ",", commas)?;
    Ok((quoted, pieces_at_commas(alloc, commas.as_str())?))
}

fn quoted_length(alloc: Global, zeros: usize) -> Result<usize, NoMemory> {
    let zeros = Text::of(repeated(alloc, "\0", zeros)?);
    Ok(quote(alloc, &zeros)?.bytes().len())
}

fn pieces_at_commas(alloc: Global, text: &str) -> Result<usize, NoMemory> {
    let text = Text::of_str(alloc, text)?;
    let comma = Text::of_str(alloc, ",")?;
    if comma.bytes().is_empty() {
        return Ok(0);
    }
    Ok(split_by(alloc, &text, &comma)?.len())
}

#[test]
fn bodies_of_65536_bytes_are_quoted_and_split(rt: HostRuntime) -> Result<(), Fail> {
    let size = 65_536;
    let wanted = (4 * size + 2, size + 1);
    assert!(rt; shown_and_split(rt.alloc(), size, size)? == wanted);
    Ok(())
}
