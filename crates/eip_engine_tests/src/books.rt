use crate::support::run_of_no_routes;
use eip_endbook::{book_text, log_text, summary_text, totals};
use eip_hub::Hub;
use eip_ledger::Stop;
use eip_test_support::joined;
use eip_text::NoMemory;
use std::alloc::Global;
use std::test::Fail;

/// Whether nothing is left to do and nothing is counted.
fn is_over(hub: &Hub) -> bool {
    let counts = totals(hub);
    matches!(hub.stop(), Some(Stop::Drained)) && counts.accepted == 0 && counts.total == 0
}

/// The log, the book of a drained run and the summary of a spent one.
fn texts_of(alloc: Global, hub: &Hub) -> Result<String, NoMemory> {
    let log = log_text(alloc, hub)?;
    let book = book_text(alloc, hub, &Stop::Drained)?;
    let summary = summary_text(alloc, hub, &Stop::Spent)?;
    joined(alloc, &[log.as_str(), book.as_str(), summary.as_str()])
}

/// Whether a run without routes is over before it begins, and its texts.
fn told(alloc: Global) -> Result<(bool, String), NoMemory> {
    let hub = run_of_no_routes(alloc, 10)?;
    let is_over = is_over(&hub);
    let texts = texts_of(alloc, &hub);
    drop(hub);
    Ok((is_over, texts?))
}

#[test]
fn a_run_without_entries_counts_nothing(rt: HostRuntime) -> Result<(), Fail> {
    let (is_over, texts) = told(rt.alloc())?;
    assert!(rt;
        is_over
            && texts.as_str()
                == "accepted 0 refused 0\ntotal 0 completed 0 handled 0 failed 0 waiting 0\ndrained\naccepted 0 refused 0\ntotal 0 completed 0 handled 0 failed 0 waiting 0\nspent 0\n"
    );
    Ok(())
}
