use crate::given::{files_of, holds};
use eip_endpoint::{Endpoint, MemoryFiles, SendFault};
use eip_exchange::Message;
use eip_file::FileLane;
use eip_frames::Target;
use eip_text::{NoMemory, Text};
use eip_uri::Exist;
use std::alloc::Global;
use std::test::Fail;

/// The file `exchange-1` of the folder `out`, as a target.
fn target_of(alloc: Global, exist: Exist) -> Result<Target, NoMemory> {
    let folder = Text::of_str(alloc, "out")?;
    let name = Text::of_str(alloc, "exchange-1")?;
    Ok(Target::File {
        folder,
        name,
        exist,
    })
}

/// Sends `new` to this file.
fn send(
    alloc: Global,
    lane: &mut FileLane<MemoryFiles>,
    exist: Exist,
) -> Result<Result<(), SendFault>, NoMemory> {
    let target = target_of(alloc, exist)?;
    let message = Message::of_body(alloc, Text::of_str(alloc, "new")?);
    Ok(lane.send(&target, &message))
}

/// Sends to a folder that has one file with `old`: what is to be done with a file that is there, the name of the one
/// that is, what the send answers, and what the file holds then.
static ROWS: [(Exist, &str, Result<(), SendFault>, &str); 8] = [
    (Exist::Override, "exchange-1", Ok(()), "new"),
    (Exist::Append, "exchange-1", Ok(()), "oldnew"),
    (Exist::Fail, "exchange-1", Err(SendFault::Exists), "old"),
    (Exist::Ignore, "exchange-1", Ok(()), "old"),
    (Exist::Override, "other", Ok(()), "new"),
    (Exist::Append, "other", Ok(()), "new"),
    (Exist::Fail, "other", Ok(()), "new"),
    (Exist::Ignore, "other", Ok(()), "new"),
];

/// Whether a send is answered so, and leaves these bytes.
fn is_treated(
    alloc: Global,
    exist: Exist,
    there: &str,
    answer: Result<(), SendFault>,
    left: &str,
) -> Result<bool, NoMemory> {
    let mut lane = FileLane::new(files_of(alloc, &[("out", there, b"old")], &[])?);
    let told = send(alloc, &mut lane, exist)?;
    Ok(told == answer && holds(&lane.files, "out", "exchange-1", left))
}

#[test]
fn a_file_that_is_there_is_treated_as_the_target_says(rt: HostRuntime) -> Result<(), Fail> {
    for (exist, there, answer, left) in &ROWS {
        let told = is_treated(rt.alloc(), *exist, there, *answer, left)?;
        assert!(rt; told, "{there}, {left}");
    }
    Ok(())
}

/// The first call that fails: the number of the write is 1 where nothing was asked before it, and else 2.
static FAILING: [(Exist, u64); 4] = [
    (Exist::Override, 1),
    (Exist::Append, 1),
    (Exist::Fail, 2),
    (Exist::Ignore, 2),
];

/// Whether a send fails at the call of this number and writes nothing, and another one doesn't.
fn fails_once(alloc: Global, exist: Exist, number: u64) -> Result<[bool; 3], NoMemory> {
    let mut lane = FileLane::new(files_of(alloc, &[], &[number])?);
    let fails = send(alloc, &mut lane, exist)? == Err(SendFault::Failed);
    let is_empty = lane.files.content().is_empty();
    Ok([fails, is_empty, send(alloc, &mut lane, exist)? == Ok(())])
}

#[test]
fn only_fail_and_ignore_ask_for_the_file(rt: HostRuntime) -> Result<(), Fail> {
    for (row, (exist, number)) in FAILING.iter().enumerate() {
        let told = fails_once(rt.alloc(), *exist, *number)?;
        assert!(rt; told == [true; 3], "row {row}");
    }
    Ok(())
}
