use eip_dump::{DumpFault, print_entry, read_entry};
use eip_text::NoMemory;
use std::alloc::Global;
use std::test::*;

/// Whether a line is read as an entry that prints as the same line.
fn is_kept(alloc: Global, line: &str) -> Result<bool, NoMemory> {
    match read_entry(alloc, line.as_bytes()) {
        Ok(entry) => Ok(print_entry(alloc, &entry)?.as_str() == line),
        Err(DumpFault::BadDump(_)) => Ok(false),
        Err(DumpFault::NoMemory) => Err(NoMemory),
    }
}

/// Whether a line is refused.
fn is_refused(alloc: Global, line: &[u8]) -> Result<bool, NoMemory> {
    match read_entry(alloc, line) {
        Ok(_) => Ok(false),
        Err(DumpFault::BadDump(number)) => Ok(number == 1),
        Err(DumpFault::NoMemory) => Err(NoMemory),
    }
}

/// A line of each form.
const LINES: [&str; 42] = [
    "0 pull 0\n",
    "16 pull 4294967295\n",
    "0 accept 0 \"1\" \"a\" 0 0\n",
    "0 accept 2 \"a b\" \"x\\ny\" 2 \"h\" \"1\" \"H2\" \"\" 0\n",
    "0 accept 2 \"\" \"\\\"\\\\\\x00\\x7f\" 0 1 \"p\" \"q\"\n",
    "0 refuse 3 \"item\" NotText\n",
    "0 refuse 3 \"item\" TooLong\n",
    "0 end 0\n",
    "0 fault 1\n",
    "2 start 1 7\n",
    "0 take 1\n",
    "0 tick 1000\n",
    "0 force\n",
    "0 starve 18446744073709551615\n",
    "0 return 3\n",
    "0 answer 1 done\n",
    "0 answer 1 failed\n",
    "0 answer 1 exists\n",
    "0 answer 1 became \"b\" 1 \"n\" \"v\" 0\n",
    "0 answer 1 raised \"Kind\" \"text\"\n",
    "0 answer 1 true\n",
    "0 answer 1 false\n",
    "0 answer 1 queued 12\n",
    "0 answer 1 full 1000\n",
    "0 answer 1 dropped\n",
    "0 answer 1 entered\n",
    "0 answer 1 born 5 3\n",
    "0 answer 1 joined 0\n",
    "0 answer 1 joined 2 completed \"a\" 0 0 failed \"K\" \"t\" \"b\" 0 0\n",
    "0 answer 1 joined 1 handled \"\" 0 0\n",
    "0 answer 1 arrived 9\n",
    "0 answer 1 closed 2 size 8\n",
    "0 answer 1 closed 2 predicate 8\n",
    "0 answer 1 closed 2 timeout 8\n",
    "0 answer 1 closed 2 force 8\n",
    "0 answer 1 unfit \"NotNumber\" \"\"\n",
    "0 answer 1 fresh\n",
    "0 answer 1 duplicate 4\n",
    "0 answer 1 slept 1000\n",
    "0 answer 1 noted\n",
    "0 answer 1 finished\n",
    "0 answer 1 uncommitted\n",
];

/// Lines of no entry.
const BAD: [&[u8]; 26] = [
    b"",
    b"\n",
    b"0 shout\n",
    b"0 pull 0",
    b"0 pull 0\r\n",
    b"0 pull 0\n\n",
    b"0 pull 0 \n",
    b"0  pull 0\n",
    b" 0 pull 0\n",
    b"0 pull\n",
    b"0 pull \n",
    b"0 pull 00\n",
    b"0 pull +1\n",
    b"0 pull 4294967296\n",
    b"00 pull 0\n",
    b"0 take 18446744073709551616\n",
    b"0 answer 1 done 1\n",
    b"0 answer 1 Done\n",
    b"0 answer 1 joined 1\n",
    b"0 accept 0 \"1\" \"a\" 0\n",
    b"0 accept 0 \"1\" \"a\" 1 \"h\" \"1\" 1 \"p\" \"q\" 0\n",
    b"0 accept 0 \"1\" \"a\" 2 \"h\" \"1\" \"H\" \"2\" 0\n",
    b"0 accept 0 1 \"a\" 0 0\n",
    b"0 accept 0 \"\\x61\" \"a\" 0 0\n",
    b"0 accept 0 \"\\x0a\" \"a\" 0 0\n",
    b"0 accept 0 \"\xff\" \"a\" 0 0\n",
];

#[test]
fn a_line_of_each_form_is_read_and_printed(rt: HostRuntime) -> Result<(), Fail> {
    for line in &LINES {
        assert!(rt; is_kept(rt.alloc(), line)?, "{line}");
    }
    Ok(())
}

#[test]
fn other_lines_are_refused(rt: HostRuntime) -> Result<(), Fail> {
    for (place, line) in BAD.iter().enumerate() {
        assert!(rt; is_refused(rt.alloc(), line)?, "{place}");
    }
    Ok(())
}
