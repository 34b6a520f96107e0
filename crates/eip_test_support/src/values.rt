use eip_exchange::{HeaderFault, Headers, Message, Properties};
use eip_text::{NoMemory, Text};
use std::alloc::Global;

/// These words as texts.
pub fn texts(alloc: Global, words: &[&str]) -> Result<Vec<Text>, NoMemory> {
    let mut texts = Vec::new(alloc);
    for word in words {
        texts.push(Text::of_str(alloc, word)?)?;
    }
    Ok(texts)
}

/// The text as a string of its own, or the want of memory that came in its place.
pub fn string_of(alloc: Global, text: Result<Text, NoMemory>) -> Result<String, NoMemory> {
    let text = text?;
    Ok(String::from_str(alloc, text.as_str())?)
}

/// These texts in one.
pub fn joined(alloc: Global, texts: &[&str]) -> Result<String, NoMemory> {
    let mut out = String::new(alloc);
    for text in texts {
        out.push_str(text)?;
    }
    Ok(out)
}

/// So many times this text.
pub fn repeated(alloc: Global, text: &str, times: usize) -> Result<String, NoMemory> {
    let mut out = String::new(alloc);
    for _ in 0..times {
        out.push_str(text)?;
    }
    Ok(out)
}

/// A message of this body, without headers and properties.
pub fn message_of(alloc: Global, body: &str) -> Result<Message, NoMemory> {
    Ok(Message::of_body(alloc, Text::of_str(alloc, body)?))
}

/// The one header `h` of this value.
fn header_of(alloc: Global, value: &str) -> Result<Headers, HeaderFault> {
    let name = Text::of_str(alloc, "h")?;
    let value = Text::of_str(alloc, value)?;
    let mut headers = Headers::new(alloc);
    headers.set(name, value)?;
    Ok(headers)
}

/// The one property `p` of this value.
fn property_of(alloc: Global, value: &str) -> Result<Properties, NoMemory> {
    let name = Text::of_str(alloc, "p")?;
    let value = Text::of_str(alloc, value)?;
    let mut properties = Properties::new(alloc);
    properties.set(name, value)?;
    Ok(properties)
}

/// A message whose body, header `h` and property `p` have so many bytes, each an `x`.
pub fn message_of_size(alloc: Global, size: usize) -> Result<Message, HeaderFault> {
    let value = repeated(alloc, "x", size)?;
    let headers = header_of(alloc, value.as_str())?;
    let properties = property_of(alloc, value.as_str())?;
    Ok(Message {
        body: Text::of(value),
        headers,
        properties,
    })
}

/// The text with each mark `«N*TEXT»` replaced by so many times this text.
pub fn written_out(alloc: Global, marked: &str) -> Result<String, NoMemory> {
    let mut out = String::new(alloc);
    for piece in marked.split('«') {
        match piece.split_once('»') {
            Some((mark, plain)) => {
                push_times(&mut out, mark)?;
                out.push_str(plain)?;
            }
            None => out.push_str(piece)?,
        }
    }
    Ok(out)
}

/// Appends a text `N*TEXT` so many times.
fn push_times(out: &mut String, marked: &str) -> Result<(), NoMemory> {
    let Some((count, text)) = marked.split_once('*') else {
        return Ok(());
    };
    let Ok(count) = count.parse::<u32>() else {
        return Ok(());
    };
    for _ in 0..count {
        out.push_str(text)?;
    }
    Ok(())
}
