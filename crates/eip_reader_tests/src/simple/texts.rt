use crate::simple::support::predicate_of;
use eip_simple_read::{
    Predicate, SimpleFault, Test, print_predicate, print_template, read_template,
};
use eip_test_support::string_of;
use eip_text::{NoMemory, Text};
use std::alloc::Global;
use std::test::*;

/// The printed form of the template that a text spells, or its fault.
pub fn template_said(alloc: Global, text: &str) -> Result<String, NoMemory> {
    let text = Text::of_str(alloc, text)?;
    match read_template(alloc, &text) {
        Ok(template) => string_of(alloc, print_template(alloc, &template)),
        Err(fault) => fault_said(alloc, fault),
    }
}

/// The printed form of a predicate, or its fault.
fn predicate_said(alloc: Global, text: &str, refused: u64) -> Result<String, NoMemory> {
    match predicate_of(alloc, text, refused) {
        Ok(predicate) => string_of(alloc, print_predicate(alloc, &predicate)),
        Err(fault) => fault_said(alloc, fault),
    }
}

fn is_template_said(alloc: Global, text: &str, want: &str) -> Result<bool, NoMemory> {
    Ok(template_said(alloc, text)?.as_str() == want)
}

pub fn is_predicate_said(
    alloc: Global,
    text: &str,
    refused: u64,
    want: &str,
) -> Result<bool, NoMemory> {
    Ok(predicate_said(alloc, text, refused)?.as_str() == want)
}

fn fault_said(alloc: Global, fault: SimpleFault) -> Result<String, NoMemory> {
    Ok(format!(in alloc; "{fault}")?)
}

/// Templates, and their printed form or fault.
const TEMPLATES: [(&str, &str); 10] = [
    ("", ""),
    ("cost: $5 {x}", "cost: $5 {x}"),
    ("${body}", "${body}"),
    (
        "a${headers.n}b${exchangeProperty.p-1}",
        "a${header.n}b${exchangeProperty.p-1}",
    ),
    (
        "${exchangeId}${routeId}${exception.message}",
        "${exchangeId}${routeId}${exception.message}",
    ),
    ("${body", "BadSimple 0"),
    ("é${body} ${", "BadSimple 10"),
    ("x${ body}", "UnknownFunction 1"),
    ("${header.}", "UnknownFunction 0"),
    ("${header.a b}", "UnknownFunction 0"),
];

#[test]
fn templates_are_read_and_printed(rt: HostRuntime) -> Result<(), Fail> {
    for (text, want) in &TEMPLATES {
        assert!(rt; is_template_said(rt.alloc(), text, want)?, "of {text}");
    }
    Ok(())
}

/// Predicates, and their printed form or fault.
const PREDICATES: [(&str, &str); 27] = [
    (
        "${headers.n}  starts with \"it's\" && ${body} > -5",
        "${header.n} startsWith \"it's\" && ${body} > '-5'",
    ),
    (" true || false && null ", "'true' || 'false' && null"),
    ("1 == 2 && '' != null", "'1' == '2' && '' != null"),
    ("'a' =~ 'b' || 'a' <= 'b'", "'a' =~ 'b' || 'a' <= 'b'"),
    (
        "1 < 2 && 1 >= 2 && 1 ~~ 2",
        "'1' < '2' && '1' >= '2' && '1' ~~ '2'",
    ),
    (
        "1 contains 2 || 1 !contains 2",
        "'1' contains '2' || '1' !contains '2'",
    ),
    (
        "1 ends with 2 || 1 endsWith 2",
        "'1' endsWith '2' || '1' endsWith '2'",
    ),
    ("1 in '1,2' || 1 !in '1,2'", "'1' in '1,2' || '1' !in '1,2'"),
    (
        "1 range '1..2' || 1 !range '1..2'",
        "'1' range '1..2' || '1' !range '1..2'",
    ),
    ("${body} regex \"a+\"", "${body} regex 'a+'"),
    ("${body} !regex 'a' && true", "${body} !regex 'a' && 'true'"),
    ("", "BadSimple 0"),
    ("  ", "BadSimple 2"),
    ("${body} =", "BadSimple 8"),
    ("${body} ==", "BadSimple 10"),
    ("${body} =='x'", "BadSimple 10"),
    ("${body} starts  with 'x'", "BadSimple 8"),
    ("${body} == 'x", "BadSimple 11"),
    ("${boddy} == 'x'", "UnknownFunction 0"),
    ("5x", "BadSimple 1"),
    ("true &&", "BadSimple 7"),
    ("true & true", "BadSimple 5"),
    ("${body} regex ${body}", "BadSimple 14"),
    ("${body} regex '${'", "BadSimple 15"),
    ("${body} regex '('", "BadPattern 14"),
    ("${body} regex 'a)|(b'", "BadPattern 14"),
    ("${body} regex '(' && =", "BadPattern 14"),
];

#[test]
fn predicates_are_read_and_printed(rt: HostRuntime) -> Result<(), Fail> {
    for (text, want) in &PREDICATES {
        assert!(rt; is_predicate_said(rt.alloc(), text, 0, want)?, "of {text}");
    }
    Ok(())
}

/// Whether the whole of the text matches the pattern of the predicate's one test, or `None` where it has no pattern.
fn is_match(alloc: Global, predicate: &Predicate, text: &Text) -> Result<Option<bool>, NoMemory> {
    for all in predicate.any.items() {
        for test in all.items() {
            if let Test::Matches { pattern, .. } = test {
                return Ok(Some(pattern.matches(alloc, text)?));
            }
        }
    }
    Ok(None)
}

/// The same of a predicate and a text by their texts; `None` also where there is no such predicate.
pub fn matched(alloc: Global, predicate: &str, text: &str) -> Result<Option<bool>, NoMemory> {
    let text = Text::of_str(alloc, text)?;
    match predicate_of(alloc, predicate, 0) {
        Ok(predicate) => is_match(alloc, &predicate, &text),
        Err(SimpleFault::NoMemory) => Err(NoMemory),
        Err(_) => Ok(None),
    }
}

/// Texts, and whether the whole of each matches `a|ab`.
const MATCHED: [(&str, bool); 5] = [
    ("a", true),
    ("ab", true),
    ("abb", false),
    ("ba", false),
    ("", false),
];

#[test]
fn a_pattern_matches_whole_texts(rt: HostRuntime) -> Result<(), Fail> {
    for (text, want) in &MATCHED {
        let got = matched(rt.alloc(), "${body} regex 'a|ab'", text)?;
        assert!(rt; got == Some(*want), "of {text}");
    }
    Ok(())
}

/// Predicates, the number of the build that is refused, and the fault.
const TOO_LARGE: [(&str, u64, &str); 3] = [
    ("${body} regex 'a'", 1, "PatternTooLarge 14"),
    ("1 regex '1' || 1 regex '2'", 2, "PatternTooLarge 23"),
    ("1 regex '(a{1000}){1000}'", 0, "PatternTooLarge 8"),
];

#[test]
fn a_failing_build_is_too_large(rt: HostRuntime) -> Result<(), Fail> {
    for (text, refused, want) in &TOO_LARGE {
        assert!(rt;
            is_predicate_said(rt.alloc(), text, *refused, want)?,
            "of {text}"
        );
    }
    Ok(())
}
