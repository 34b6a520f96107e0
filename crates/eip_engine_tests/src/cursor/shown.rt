// Requests in short words.
use eip_exchange::{End, Work};
use eip_frames::{Request, Seed, Target};
use eip_progress::Next;
use eip_text::NoMemory;

/// Appends what comes next: a request by its word and what tells most of it, or the end with its body.
pub fn push_next(out: &mut String, next: &Next) -> Result<(), NoMemory> {
    match next {
        Next::Asks(request) => push_request(out, request),
        Next::Ended(end, message) => {
            out.push_str("ended ")?;
            push_end(out, end)?;
            out.push_str(message.body.as_str())?;
            Ok(())
        }
    }
}

fn push_request(out: &mut String, request: &Request) -> Result<(), NoMemory> {
    match request {
        Request::Send { target, message } => {
            push_target(out, target)?;
            out.push_str(message.body.as_str())?;
        }
        Request::Process { name, message } => push_two(
            out,
            "process ",
            name.as_str(),
            message.body.as_str(),
        )?,
        Request::Test { name, message } => push_two(
            out,
            "test ",
            name.as_str(),
            message.body.as_str(),
        )?,
        Request::Offer { message, .. } => push_two(out, "offer", "", message.body.as_str())?,
        Request::Call { .. } => out.push_str("call")?,
        Request::Spawn { parts } => push_parts(out, parts.items())?,
        Request::Join { .. } => out.push_str("join")?,
        Request::Arrive { key, message, .. } => push_two(
            out,
            "arrive ",
            key.as_str(),
            message.body.as_str(),
        )?,
        Request::Idem {
            repository,
            key,
            ..
        } => push_two(out, "idem ", repository.as_str(), key.as_str())?,
        Request::Wait { .. } => out.push_str("wait")?,
        Request::Log { name, text } => push_two(out, "log ", name.as_str(), text.as_str())?,
        Request::Finish { end, message, .. } => {
            out.push_str("finish ")?;
            push_end(out, end)?;
            out.push_str(message.body.as_str())?;
        }
    }
    Ok(())
}

fn push_two(out: &mut String, word: &str, name: &str, text: &str) -> Result<(), NoMemory> {
    out.push_str(word)?;
    out.push_str(name)?;
    out.push_str(" ")?;
    out.push_str(text)?;
    Ok(())
}

fn push_target(out: &mut String, target: &Target) -> Result<(), NoMemory> {
    match target {
        Target::File { folder, name, .. } => {
            push_two(out, "file ", folder.as_str(), name.as_str())?;
        }
        Target::Line { host, .. } => push_two(out, "line", "", host.as_str())?,
        Target::Lane(name) => push_two(out, "lane", "", name.as_str())?,
    }
    out.push_str(" ")?;
    Ok(())
}

fn push_end(out: &mut String, end: &End) -> Result<(), NoMemory> {
    match end {
        End::Completed => out.push_str("completed ")?,
        End::Handled => out.push_str("handled ")?,
        End::Failed(fault) => push_two(out, "failed ", fault.kind.as_str(), "")?,
    }
    Ok(())
}

/// Appends the bodies of parts, and the endpoints of those that are one send.
fn push_parts(out: &mut String, parts: &[Seed]) -> Result<(), NoMemory> {
    out.push_str("parts")?;
    for part in parts {
        if let Work::To(text) = &part.work {
            out.push_str(" to ")?;
            out.push_str(text.as_str())?;
        }
        out.push_str(" ")?;
        out.push_str(part.message.body.as_str())?;
    }
    Ok(())
}
