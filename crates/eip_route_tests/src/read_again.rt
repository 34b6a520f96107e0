use crate::support::{ALL, Given, Handed, is_told};
use eip_text::NoMemory;
use std::alloc::Global;
use std::test::*;

mod key_rows;
mod kind_rows;
mod limit_rows;
mod limits;
mod order_rows;
mod printed_rows;
mod printed_step_rows;
mod uri_rows;
mod value_rows;

use key_rows::{DOUBLED_KEYS, MISSING_KEYS, NOT_ONE_KEY, SECOND_KEYS, UNKNOWN_KEYS};
use kind_rows::WRONG_KINDS;
use order_rows::{LATER_FAULTS, SEVERAL_FAULTS, WHOLE_OBJECTS};
use printed_rows::{BLOCKS, CLAUSES, ENDPOINTS, HANDLERS, ROUTES};
use printed_step_rows::{EXPRESSIONS, GROUPS, PARTS, PREDICATES, RESEQUENCERS, STEPS, TRIES};
use uri_rows::{BAD_URIS, UNREGISTERED, WRONG_SIDES};
use value_rows::{BAD_SIMPLE, BAD_VALUES, FIRST_PATTERN_REFUSED, SECOND_PATTERN_REFUSED};

/// Whether a row's file is told as it wants.
fn is_so(alloc: Global, row: &str, given: Given) -> Result<bool, NoMemory> {
    match row.split_once(" => ") {
        Some((file, wanted)) => is_told(alloc, file.as_bytes(), given, wanted),
        None => Ok(false),
    }
}

/// The first row that isn't so, or the empty text.
fn wrong(alloc: Global, rows: &str, given: Given) -> Result<&str, NoMemory> {
    for row in rows.lines() {
        if !is_so(alloc, row, given)? {
            return Ok(row);
        }
    }
    Ok("")
}

/// Whether the canonical text of a row is told as it stands.
fn is_kept(alloc: Global, row: &str) -> Result<bool, NoMemory> {
    match row.split_once(" => ") {
        Some((_, text)) => is_told(alloc, text.as_bytes(), ALL, text),
        None => Ok(false),
    }
}

/// The first row whose canonical text isn't kept, or the empty text.
fn changed(alloc: Global, rows: &str) -> Result<&str, NoMemory> {
    for row in rows.lines() {
        if !is_kept(alloc, row)? {
            return Ok(row);
        }
    }
    Ok("")
}

/// The tables of wrong keys.
const KEYS: [&str; 5] = [
    UNKNOWN_KEYS,
    NOT_ONE_KEY,
    MISSING_KEYS,
    DOUBLED_KEYS,
    SECOND_KEYS,
];

#[test]
fn keys_that_are_unknown_missing_or_too_many_are_told(rt: HostRuntime) -> Result<(), Fail> {
    for rows in &KEYS {
        let row = wrong(rt.alloc(), rows, ALL)?;
        assert!(rt; row.is_empty(), "of {row}");
    }
    Ok(())
}

/// The tables of wrong values.
const VALUES: [&str; 5] = [WRONG_KINDS, BAD_VALUES, BAD_SIMPLE, BAD_URIS, WRONG_SIDES];

#[test]
fn values_that_may_not_stand_there_are_told(rt: HostRuntime) -> Result<(), Fail> {
    for rows in &VALUES {
        let row = wrong(rt.alloc(), rows, ALL)?;
        assert!(rt; row.is_empty(), "of {row}");
    }
    Ok(())
}

#[test]
fn nothing_is_registered_where_nothing_is_handed_in(rt: HostRuntime) -> Result<(), Fail> {
    let nothing = Given {
        handed: Handed::Nothing,
        refused: 0,
    };
    let row = wrong(rt.alloc(), UNREGISTERED, nothing)?;
    assert!(rt; row.is_empty(), "of {row}");
    Ok(())
}

/// The tables of refused patterns, with the number of the one that is refused.
const REFUSED: [(&str, u64); 2] = [(FIRST_PATTERN_REFUSED, 1), (SECOND_PATTERN_REFUSED, 2)];

#[test]
fn a_refused_pattern_stands_before_what_comes_behind_it(rt: HostRuntime) -> Result<(), Fail> {
    for &(rows, refused) in &REFUSED {
        let given = Given {
            handed: Handed::Everything,
            refused,
        };
        let row = wrong(rt.alloc(), rows, given)?;
        assert!(rt; row.is_empty(), "of {row}");
    }
    Ok(())
}

/// The tables of files with several faults.
const SEVERAL: [&str; 3] = [WHOLE_OBJECTS, SEVERAL_FAULTS, LATER_FAULTS];

#[test]
fn the_first_of_the_faults_of_objects_and_items_is_told(rt: HostRuntime) -> Result<(), Fail> {
    for rows in &SEVERAL {
        let row = wrong(rt.alloc(), rows, ALL)?;
        assert!(rt; row.is_empty(), "of {row}");
    }
    Ok(())
}

/// The tables of files that read.
const READ: [&str; 12] = [
    ROUTES,
    ENDPOINTS,
    HANDLERS,
    CLAUSES,
    BLOCKS,
    EXPRESSIONS,
    STEPS,
    PREDICATES,
    PARTS,
    GROUPS,
    TRIES,
    RESEQUENCERS,
];

#[test]
fn files_print_in_one_form(rt: HostRuntime) -> Result<(), Fail> {
    for rows in &READ {
        let row = wrong(rt.alloc(), rows, ALL)?;
        assert!(rt; row.is_empty(), "of {row}");
    }
    Ok(())
}

#[test]
fn canonical_text_is_read_and_printed_as_it_stands(rt: HostRuntime) -> Result<(), Fail> {
    for rows in &READ {
        let row = changed(rt.alloc(), rows)?;
        assert!(rt; row.is_empty(), "of {row}");
    }
    Ok(())
}
