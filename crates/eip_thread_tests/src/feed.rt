ghost use Rattle.std.specs.Prelude.{◌≤◌, ◌<◌};

use crate::given::told;
use eip_endpoint::{Inlet, Lane, MemoryFiles};
use eip_file::{FileLane, FileSource};
use eip_samples::registry;
use eip_text::{NoMemory, Series, Text};
use std::alloc::Global;
use std::sync::Wait;
use std::test::Fail;
use std::thread::Threads;

/// Orders that are cut into lines: those of `c0` are refused and left in a folder, those of another field go on ten by ten.
const ORDERS: &str =
    r#"[{"errorHandler":{"deadLetterChannel":{"deadLetterUri":"file:dead?fileExist=Append"}}},{"from":{"uri":"file:orders","steps":[{"split":{"tokenize":"\n","parallelProcessing":true,"steps":[{"process":"field"},{"choice":{"when":[{"simple":"${header.field} == 'c0'","steps":[{"to":"seda:a"}]}],"otherwise":{"steps":[{"to":"seda:b"}]}}}]}}]}},{"from":{"uri":"seda:a?concurrentConsumers=4","steps":[{"process":"refuse"}]}},{"from":{"uri":"seda:b?concurrentConsumers=4","steps":[{"aggregate":{"correlationExpression":{"simple":"${header.field}"},"completionSize":10,"aggregationStrategy":"grouped","steps":[{"to":"log:batch"}]}}]}}]"#;

/// How many files of orders there are.
const FILES: u64 = 40;

/// The totals of a drain of them: 40 sources, 200 parts, 200 copies and 15 groups.
const TOTALS: &str =
    "accepted 40 refused 0\ntotal 455 completed 405 handled 50 failed 0 waiting 0\ndrained\n";

/// Appends the line `cC,A` of the order with this number in the file with that one: C is the rest of both by 4, and A ten times the
/// file's number and the order's.
fn push_order(alloc: Global, bytes: &mut Vec<u8>, file: u64, order: u64) -> Result<(), NoMemory>
    requires file { file < 40 }
    requires order { order < 5 }
{
    let field = (file + order) % 4;
    let amount = 10 * file + order;
    let line = format!(in alloc; "c{field},{amount}\n")?;
    bytes.extend_from_slice(line.as_bytes())?;
    Ok(())
}

/// The five lines of the file with this number.
fn orders_of(alloc: Global, file: u64) -> Result<Series<u8>, NoMemory>
    requires { file < 40 }
{
    let mut bytes = Vec::new(alloc);
    for order in 0..5 {
        push_order(alloc, &mut bytes, file, order)?;
    }
    Ok(Series::of(bytes))
}

/// The name of the file with this number, `f` and two digits.
fn name_of(alloc: Global, file: u64) -> Result<Text, NoMemory> {
    let tens = file / 10;
    let ones = file % 10;
    Ok(Text::of(format!(in alloc; "f{tens}{ones}")?))
}

/// The file of orders with this number.
fn file_of(alloc: Global, file: u64) -> Result<(Text, Text, Series<u8>), NoMemory>
    requires { file < 40 }
{
    let folder = Text::of_str(alloc, "orders")?;
    let name = name_of(alloc, file)?;
    Ok((folder, name, orders_of(alloc, file)?))
}

/// All files of orders.
fn files_of(alloc: Global) -> Result<MemoryFiles, NoMemory> {
    let mut content = Vec::new(alloc);
    for file in 0..FILES {
        content.push(file_of(alloc, file)?)?;
    }
    Ok(MemoryFiles::new(alloc, content, Vec::new(alloc)))
}

/// The inlet of all files of orders.
fn inlets_of(alloc: Global) -> Result<Vec<Inlet<FileSource<MemoryFiles>>>, NoMemory> {
    let object = FileSource::new(alloc, files_of(alloc)?);
    let name = Text::of_str(alloc, "file")?;
    Ok(vec![in alloc; Inlet { name, object }]?)
}

/// The lane of files, which has none so far.
fn lanes_of(alloc: Global) -> Result<Vec<Lane<FileLane<MemoryFiles>>>, NoMemory> {
    let files = MemoryFiles::new(alloc, Vec::new(alloc), Vec::new(alloc));
    let name = Text::of_str(alloc, "file")?;
    let object = FileLane::new(files);
    Ok(vec![in alloc; Lane { name, object }]?)
}

/// Whether so many files as there were of orders are left, all of them in this folder.
fn are_all_in(files: &MemoryFiles, folder: &str) -> bool {
    files.content().len() as u64 == FILES
        && files.content().iter().all(|file| file.0.as_str() == folder)
}

/// Whether the files of orders are all taken.
fn are_taken(inlets: &[Inlet<FileSource<MemoryFiles>>]) -> bool {
    match inlets.first() {
        Some(inlet) => are_all_in(&inlet.object.files, "orders/.camel"),
        None => false,
    }
}

/// Whether the refused orders are all left.
fn are_dead(lanes: &[Lane<FileLane<MemoryFiles>>]) -> bool {
    match lanes.first() {
        Some(lane) => are_all_in(&lane.object.files, "dead"),
        None => false,
    }
}

/// Whether a drain by eight workers over these lanes and inlets comes to the totals.
fn are_fed<W: Threads + Wait + Sync>(
    rt: &W,
    alloc: Global,
    lanes: &mut Vec<Lane<FileLane<MemoryFiles>>>,
    inlets: &mut Vec<Inlet<FileSource<MemoryFiles>>>,
) -> Result<bool, NoMemory> {
    let registry = registry(alloc)?;
    let words = ["drain", "r.json", "--workers", "8"];
    match told(rt, alloc, &words, ORDERS, lanes, inlets, &registry) {
        Some(text) => Ok(text.as_str().ends_with(TOTALS)),
        None => Ok(false),
    }
}

#[test]
fn eight_workers_feed_orders_and_leave_the_refused_ones(rt: HostRuntime) -> Result<(), Fail> {
    let mut lanes = lanes_of(rt.alloc())?;
    let mut inlets = inlets_of(rt.alloc())?;
    let are_fed = are_fed(&rt, rt.alloc(), &mut lanes, &mut inlets)?;
    assert!(rt; are_fed);
    assert!(rt; are_taken(&inlets) && are_dead(&lanes));
    Ok(())
}
