use eip_exchange::{Headers, Message, Properties, Strategy};
use eip_strategy::{StrategyFault, add, add_in_place, fold};
use eip_text::{NoMemory, Text};
use std::alloc::Global;
use std::test::*;

/// The header `from` of this value.
fn headers_from(alloc: Global, from: &str) -> Result<Headers, NoMemory> {
    let name = Text::of_str(alloc, "from")?;
    let value = Text::of_str(alloc, from)?;
    let mut headers = Headers::new(alloc);
    match headers.set(name, value) {
        Ok(()) => Ok(headers),
        Err(_) => Err(NoMemory),
    }
}

/// A message of this body with the header `from` of this value.
fn message_of(alloc: Global, body: &str, from: &str) -> Result<Message, NoMemory> {
    let body = Text::of_str(alloc, body)?;
    let headers = headers_from(alloc, from)?;
    Ok(Message {
        body,
        headers,
        properties: Properties::new(alloc),
    })
}

/// Where three messages are from.
const FROM: [&str; 3] = ["a", "b", "c"];

/// Messages of these bodies.
fn messages_of(alloc: Global, bodies: [&str; 3]) -> Result<Vec<Message>, NoMemory> {
    let mut messages = Vec::new(alloc);
    for index in 0..3 {
        let message = message_of(alloc, bodies[index], FROM[index])?;
        messages.push(message)?;
    }
    Ok(messages)
}

/// The body and where the headers are from, with a space between them.
fn message_said(alloc: Global, message: &Message) -> Result<String, NoMemory> {
    let mut out = String::from_str(alloc, message.body.as_str())?;
    if let Some(from) = message.headers.get(b"from") {
        out.push_str(" ")?;
        out.push_str(from.as_str())?;
    }
    Ok(out)
}

/// The same of what messages are folded to, or the fault's words, or `none`.
fn fold_said(
    alloc: Global,
    folded: Result<Option<Message>, StrategyFault>,
) -> Result<String, NoMemory> {
    match folded {
        Ok(Some(message)) => message_said(alloc, &message),
        Ok(None) => Ok(String::from_str(alloc, "none")?),
        Err(fault) => Ok(format!(in alloc; "{fault}")?),
    }
}

/// The same of messages of three bodies, the first from `a`.
fn folded(alloc: Global, strategy: &Strategy, bodies: [&str; 3]) -> Result<String, NoMemory> {
    let messages = messages_of(alloc, bodies)?;
    fold_said(alloc, fold(alloc, strategy, &messages))
}

fn folds_to(
    alloc: Global,
    strategy: &Strategy,
    bodies: [&str; 3],
    want: &str,
) -> Result<bool, NoMemory> {
    let said = folded(alloc, strategy, bodies)?;
    Ok(said.as_str() == want)
}

/// Whether three bodies are joined to this with a plus sign between them.
fn joins_to(alloc: Global, bodies: [&str; 3], want: &str) -> Result<bool, NoMemory> {
    let plus = Strategy::Joined(Text::of_str(alloc, "+")?);
    folds_to(alloc, &plus, bodies, want)
}

#[test]
fn the_first_or_the_last_message_stays_or_all_are_joined(rt: HostRuntime) -> Result<(), Fail> {
    let bodies = ["<a>", "<b>", "<c>"];
    assert!(rt; folds_to(rt.alloc(), &Strategy::Original, bodies, "<a> a")?);
    assert!(rt; folds_to(rt.alloc(), &Strategy::Latest, bodies, "<c> c")?);
    assert!(rt; joins_to(rt.alloc(), bodies, "<a>+<b>+<c> a")?);
    Ok(())
}

#[test]
fn bodies_are_grouped_in_a_json_list(rt: HostRuntime) -> Result<(), Fail> {
    let plain = ["x", "y", "z"];
    assert!(rt;
        folds_to(
            rt.alloc(),
            &Strategy::Grouped,
            plain,
            "[\"x\",\"y\",\"z\"] a"
        )?
    );
    let escaped = ["\"", "[]", "\n\u{1}ä"];
    let want = "[\"\\\"\",\"[]\",\"\\n\\u0001ä\"] a";
    assert!(rt; folds_to(rt.alloc(), &Strategy::Grouped, escaped, want)?);
    Ok(())
}

/// Three bodies, and what they are summed to.
const SUMS: [([&str; 3], &str); 4] = [
    (["-0", "007", "-9"], "-2 a"),
    (["9223372036854775807", "1", "-1"], "sum too large"),
    (["9223372036854775808", "0", "0"], "not a number"),
    (["1", "+2", "3"], "not a number"),
];

#[test]
fn bodies_are_summed_in_decimal(rt: HostRuntime) -> Result<(), Fail> {
    for (bodies, want) in SUMS {
        assert!(rt;
            folds_to(rt.alloc(), &Strategy::Sum, bodies, want)?,
            "of {want}"
        );
    }
    Ok(())
}

/// Appends so many times this text.
fn push_times(out: &mut String, text: &str, times: usize) -> Result<(), NoMemory> {
    for _ in 0..times {
        out.push_str(text)?;
    }
    Ok(())
}

/// A message whose body has so many bytes, without headers.
fn message_of_length(alloc: Global, length: usize) -> Result<Message, NoMemory> {
    let mut body = String::new(alloc);
    push_times(&mut body, "0123456789abcdef", length / 16)?;
    push_times(&mut body, "x", length % 16)?;
    Ok(Message::of_body(alloc, Text::of(body)))
}

/// The number of bytes of a message's body.
fn length_of(message: &Message) -> usize {
    message.body.as_str().len()
}

/// The number of bytes of what two bodies of such lengths are joined to by a comma.
fn joined_length(alloc: Global, first: usize, second: usize) -> Result<usize, StrategyFault> {
    let second = message_of_length(alloc, second)?;
    let comma = Strategy::Joined(Text::of_str(alloc, ",")?);
    let first = message_of_length(alloc, first)?;
    let joined = add(alloc, &comma, Some(first), &second)?;
    Ok(length_of(&joined))
}

#[test]
fn a_body_has_at_most_65536_bytes(rt: HostRuntime) -> Result<(), Fail> {
    assert!(rt; joined_length(rt.alloc(), 32_768, 32_767) == Ok(65_536));
    assert!(rt; joined_length(rt.alloc(), 32_768, 32_768) == Err(StrategyFault::TooLong));
    Ok(())
}

/// Whether this is the body of a batch of two messages, whose headers are packed with them.
fn is_batched(alloc: Global, want: &str) -> Result<bool, StrategyFault> {
    let second = message_of(alloc, "9", "b")?;
    let first = message_of(alloc, "10", "a")?;
    let batch = add(alloc, &Strategy::Batch, None, &first)?;
    let batch = add(alloc, &Strategy::Batch, Some(batch), &second)?;
    Ok(batch.body.as_str() == want)
}

/// The same of a batch to which the second message is added where it stands.
fn is_batched_in_place(alloc: Global, want: &str) -> Result<bool, StrategyFault> {
    let second = message_of(alloc, "9", "b")?;
    let first = message_of(alloc, "10", "a")?;
    let mut batch = add(alloc, &Strategy::Batch, None, &first)?;
    add_in_place(alloc, &Strategy::Batch, &mut batch, &second)?;
    Ok(batch.body.as_str() == want)
}

/// The length of the batch of one message with a body of so many bytes, without headers.
fn batch_length(alloc: Global, body: usize) -> Result<usize, StrategyFault> {
    let message = message_of_length(alloc, body)?;
    let batch = add(alloc, &Strategy::Batch, None, &message)?;
    Ok(length_of(&batch))
}

#[test]
fn messages_are_packed_behind_each_other(rt: HostRuntime) -> Result<(), Fail> {
    let want =
        "[{\"b\":\"10\",\"h\":[\"from\",\"a\"],\"p\":[]},{\"b\":\"9\",\"h\":[\"from\",\"b\"],\"p\":[]}]";
    assert!(rt; is_batched(rt.alloc(), want)?);
    assert!(rt; is_batched_in_place(rt.alloc(), want)?);
    Ok(())
}

#[test]
fn a_batch_has_at_most_16777216_bytes(rt: HostRuntime) -> Result<(), Fail> {
    let frame = "[{\"b\":\"\",\"h\":[],\"p\":[]}]".len();
    assert!(rt; batch_length(rt.alloc(), 16_777_216 - frame) == Ok(16_777_216));
    assert!(rt; batch_length(rt.alloc(), 16_777_217 - frame) == Err(StrategyFault::TooLong));
    Ok(())
}

/// Whether this is the body of `a` behind adding a message with a comma where it stands, and what that answered.
fn joined_in_place(
    alloc: Global,
    new: &Message,
    want: &str,
) -> Result<(bool, Result<(), StrategyFault>), NoMemory> {
    let comma = Strategy::Joined(Text::of_str(alloc, ",")?);
    let mut so_far = message_of(alloc, "a", "x")?;
    let done = match add_in_place(alloc, &comma, &mut so_far, new) {
        Ok(_) => Ok(()),
        Err(fault) => Err(fault),
    };
    Ok((so_far.body.as_str() == want, done))
}

#[test]
fn a_body_grows_in_place_and_stays_on_a_fault(rt: HostRuntime) -> Result<(), Fail> {
    let short = message_of(rt.alloc(), "b", "y")?;
    assert!(rt; joined_in_place(rt.alloc(), &short, "a,b")? == (true, Ok(())));
    let long = message_of_length(rt.alloc(), 65_535)?;
    assert!(rt; joined_in_place(rt.alloc(), &long, "a")? == (true, Err(StrategyFault::TooLong)));
    Ok(())
}

/// Whether a message is as before where another was added to it in place and taken back.
fn is_taken_back(alloc: Global, strategy: &Strategy) -> Result<bool, StrategyFault> {
    let new = message_of(alloc, "2", "b")?;
    let first = message_of(alloc, "1", "a")?;
    let mut so_far = add(alloc, strategy, None, &first)?;
    let before = message_said(alloc, &so_far)?;
    let undo = add_in_place(alloc, strategy, &mut so_far, &new)?;
    undo.apply(&mut so_far);
    Ok(message_said(alloc, &so_far)?.as_str() == before.as_str())
}

#[test]
fn what_was_added_in_place_is_taken_back(rt: HostRuntime) -> Result<(), Fail> {
    let comma = Strategy::Joined(Text::of_str(rt.alloc(), ",")?);
    for strategy in [
        &Strategy::Original,
        &Strategy::Latest,
        &comma,
        &Strategy::Grouped,
        &Strategy::Sum,
        &Strategy::Batch,
    ] {
        assert!(rt; is_taken_back(rt.alloc(), strategy)?);
    }
    Ok(())
}
