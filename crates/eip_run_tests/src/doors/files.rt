use crate::doors::given::{Held, files_of, holds, is_drained, link};
use eip_endpoint::{Inlet, Lane, MemoryFiles, MemoryLane};
use eip_file::{FileLane, FileSource};
use eip_line::LineSource;
use eip_test_support::repeated;
use eip_text::{NoMemory, Text};
use std::alloc::Global;
use std::sync::Wait;
use std::test::Fail;
use std::thread::Threads;

/// A route that takes the files of a folder and does nothing with them.
const TAKEN: &str = r#"[{"from":{"uri":"file:d","steps":[]}}]"#;

/// A route that writes a file that is not to be there.
const WRITTEN: &str = r#"[{"from":{"uri":"file:d","steps":[{"to":"file:out?fileExist=Fail"}]}}]"#;

/// The same from standard input.
const LINE_WRITTEN: &str =
    r#"[{"from":{"uri":"stream:in","steps":[{"to":"file:out?fileExist=Fail"}]}}]"#;

/// Orders that are cut into lines: those of `c0` are refused and left in a folder, those of another field go on two by two.
const ORDERS: &str =
    r#"[{"errorHandler":{"deadLetterChannel":{"deadLetterUri":"file:dead?fileExist=Append"}}},{"from":{"uri":"file:orders","steps":[{"split":{"tokenize":"\n","parallelProcessing":true,"steps":[{"process":"field"},{"choice":{"when":[{"simple":"${header.field} == 'c0'","steps":[{"to":"seda:a"}]}],"otherwise":{"steps":[{"to":"seda:b"}]}}}]}}]}},{"from":{"uri":"seda:a?concurrentConsumers=4","steps":[{"process":"refuse"}]}},{"from":{"uri":"seda:b?concurrentConsumers=4","steps":[{"aggregate":{"correlationExpression":{"simple":"${header.field}"},"completionSize":2,"aggregationStrategy":"grouped","steps":[{"to":"log:batch"}]}}]}}]"#;

/// The inlet of files over these.
fn inlet(
    alloc: Global,
    files: MemoryFiles,
) -> Result<Vec<Inlet<FileSource<MemoryFiles>>>, NoMemory> {
    let name = Text::of_str(alloc, "file")?;
    let object = FileSource::new(alloc, files);
    Ok(vec![in alloc; Inlet { name, object }]?)
}

/// The lane of files over these.
fn lane(alloc: Global, files: MemoryFiles) -> Result<Vec<Lane<FileLane<MemoryFiles>>>, NoMemory> {
    let name = Text::of_str(alloc, "file")?;
    let object = FileLane::new(files);
    Ok(vec![in alloc; Lane { name, object }]?)
}

/// Whether these are the files that are left.
fn are_left(files: &MemoryFiles, left: &[Held]) -> bool {
    files.content().len() == left.len() && left.iter().all(|file| holds(files, file))
}

/// Whether a drain of the files of a folder prints this and leaves these files.
fn takes<W: AllocGlobal + Threads + Wait + Sync>(
    rt: &W,
    held: &[Held],
    failing: Vec<u64>,
    text: &str,
    left: &[Held],
) -> Result<bool, NoMemory> {
    let alloc = rt.alloc();
    let mut lanes: Vec<Lane<MemoryLane>> = Vec::new(alloc);
    let mut inlets = inlet(alloc, files_of(alloc, held, failing)?)?;
    let told = is_drained(rt, TAKEN, &mut lanes, &mut inlets, text)?;
    let Some(inlet) = inlets.first() else {
        return Ok(false);
    };
    Ok(told && are_left(&inlet.object.files, left))
}

#[test]
fn a_file_that_was_taken_is_moved_and_one_that_was_refused_stays(
    rt: HostRuntime,
) -> Result<(), Fail> {
    let text =
        "exchange 1 source route1 completed\nrefused route1 \"b.txt\" NotText\nrefused route1 \"c.txt\" TooLong\naccepted 1 refused 2\ntotal 1 completed 1 handled 0 failed 0 waiting 0\ndrained\n";
    let alloc = rt.alloc();
    let long = repeated(alloc, "x", 65_537)?;
    let long = long.as_bytes();
    let held: [Held; 3] = [
        ("d", "a.txt", b"x"),
        ("d", "b.txt", b"\xff"),
        ("d", "c.txt", long),
    ];
    let left: [Held; 3] = [
        ("d/.camel", "a.txt", b"x"),
        ("d", "b.txt", b"\xff"),
        ("d", "c.txt", long),
    ];
    let taken = takes(&rt, &held, Vec::new(alloc), text, &left)?;
    assert!(rt; taken);
    Ok(())
}

#[test]
fn a_file_whose_move_fails_stays(rt: HostRuntime) -> Result<(), Fail> {
    let text =
        "exchange 1 source route1 failed CommitFailed \"a.txt\"\naccepted 1 refused 0\ntotal 1 completed 0 handled 0 failed 1 waiting 0\ndrained\n";
    let held: [Held; 1] = [("d", "a.txt", b"x")];
    let alloc = rt.alloc();
    let taken = takes(&rt, &held, vec![in alloc; 3]?, text, &held)?;
    assert!(rt; taken);
    Ok(())
}

#[test]
fn a_file_that_is_there_stays_as_it_is(rt: HostRuntime) -> Result<(), Fail> {
    let text =
        "exchange 1 source route1 failed FileExists \"file:out/a.txt\"\naccepted 1 refused 0\ntotal 1 completed 0 handled 0 failed 1 waiting 0\ndrained\n";
    let alloc = rt.alloc();
    let there: [Held; 1] = [("out", "a.txt", b"before")];
    let mut lanes = lane(alloc, files_of(alloc, &there, Vec::new(alloc))?)?;
    let mut inlets = inlet(
        alloc,
        files_of(alloc, &[("d", "a.txt", b"x")], Vec::new(alloc))?,
    )?;
    let told = is_drained(&rt, WRITTEN, &mut lanes, &mut inlets, text)?;
    assert!(rt; told);
    let stays = lanes
        .first()
        .is_some_and(|lane| are_left(&lane.object.files, &there));
    assert!(rt; stays);
    Ok(())
}

#[test]
fn a_line_is_written_under_its_number_unless_that_is_there(rt: HostRuntime) -> Result<(), Fail> {
    let text =
        "exchange 1 source route1 failed FileExists \"file:out/exchange-1\"\nexchange 2 source route1 completed\naccepted 2 refused 0\ntotal 2 completed 1 handled 0 failed 1 waiting 0\ndrained\n";
    let alloc = rt.alloc();
    let there: [Held; 1] = [("out", "exchange-1", b"before")];
    let left: [Held; 2] = [
        ("out", "exchange-1", b"before"),
        ("out", "exchange-2", b"b"),
    ];
    let mut lanes = lane(alloc, files_of(alloc, &there, Vec::new(alloc))?)?;
    let name = Text::of_str(alloc, "stream")?;
    let object = LineSource::new(alloc, link(alloc, b"a\nb\n")?);
    let mut inlets = vec![in alloc; Inlet { name, object }]?;
    let told = is_drained(&rt, LINE_WRITTEN, &mut lanes, &mut inlets, text)?;
    assert!(rt; told);
    let stays = lanes
        .first()
        .is_some_and(|lane| are_left(&lane.object.files, &left));
    assert!(rt; stays);
    Ok(())
}

/// The files of the orders, where they are afterwards, and what was refused of them.
const FED: [Held; 2] = [
    ("orders", "f0", b"c0,0\nc1,1\n"),
    ("orders", "f1", b"c1,10\nc0,11\nc0,12\n"),
];

const MOVED: [Held; 2] = [
    ("orders/.camel", "f0", b"c0,0\nc1,1\n"),
    ("orders/.camel", "f1", b"c1,10\nc0,11\nc0,12\n"),
];

const DEAD: [Held; 2] = [("dead", "f0", b"c0,0"), ("dead", "f1", b"c0,11c0,12")];

/// What a drain of them prints.
const FED_TEXT: &str =
    "log 13 batch: [\"c1,1\",\"c1,10\"]\nexchange 1 source route1 completed\nexchange 2 part 1.0 completed\nexchange 3 part 1.1 completed\nexchange 4 queue a handled\nexchange 5 queue b completed\nexchange 6 source route1 completed\nexchange 7 part 6.0 completed\nexchange 8 part 6.1 completed\nexchange 9 part 6.2 completed\nexchange 10 queue b completed\nexchange 11 queue a handled\nexchange 12 queue a handled\nexchange 13 group 1 completed\naccepted 2 refused 0\ntotal 13 completed 10 handled 3 failed 0 waiting 0\ndrained\n";

#[test]
fn orders_are_fed_from_a_folder_and_the_refused_ones_are_left_in_another(
    rt: HostRuntime,
) -> Result<(), Fail> {
    let alloc = rt.alloc();
    let mut lanes = lane(alloc, files_of(alloc, &[], Vec::new(alloc))?)?;
    let mut inlets = inlet(alloc, files_of(alloc, &FED, Vec::new(alloc))?)?;
    let told = is_drained(&rt, ORDERS, &mut lanes, &mut inlets, FED_TEXT)?;
    assert!(rt; told);
    let is_moved = inlets
        .first()
        .is_some_and(|inlet| are_left(&inlet.object.files, &MOVED));
    assert!(rt; is_moved);
    let are_dead = lanes
        .first()
        .is_some_and(|lane| are_left(&lane.object.files, &DEAD));
    assert!(rt; are_dead);
    Ok(())
}
