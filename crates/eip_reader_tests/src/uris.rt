use eip_test_support::string_of;
use eip_text::{NoMemory, Text};
use eip_uri::{Uri, UriFault, grammar_laws};
use std::alloc::Global;
use std::test::*;

/// The URI that a text spells, with a parameter where one is given.
fn uri_of(alloc: Global, text: &str, parameter: Option<(&str, &str)>) -> Result<Uri, UriFault> {
    let text = Text::of_str(alloc, text)?;
    let parameters = parameters_of(alloc, parameter)?;
    Uri::read(alloc, &text, parameters.as_slice())
}

/// What a text is read as, with a parameter where one is given: the printed form, or the fault.
pub fn said(
    alloc: Global,
    text: &str,
    parameter: Option<(&str, &str)>,
) -> Result<String, NoMemory> {
    match uri_of(alloc, text, parameter) {
        Ok(uri) => string_of(alloc, uri.print(alloc)),
        Err(fault) => fault_said(alloc, &fault),
    }
}

/// Whether that is what a text is read as.
fn is_said(
    alloc: Global,
    text: &str,
    parameter: Option<(&str, &str)>,
    want: &str,
) -> Result<bool, NoMemory> {
    Ok(said(alloc, text, parameter)?.as_str() == want)
}

fn parameters_of(
    alloc: Global,
    parameter: Option<(&str, &str)>,
) -> Result<Vec<(Text, Text)>, NoMemory> {
    let mut parameters = Vec::new(alloc);
    if let Some((name, value)) = parameter {
        let name = Text::of_str(alloc, name)?;
        parameters.push((name, Text::of_str(alloc, value)?))?;
    }
    Ok(parameters)
}

fn fault_said(alloc: Global, fault: &UriFault) -> Result<String, NoMemory> {
    match fault {
        UriFault::UnknownScheme => worded(alloc, "UnknownScheme", ""),
        UriFault::BadUri(at) => Ok(format!(in alloc; "BadUri {at}")?),
        UriFault::UnknownOption(name) => worded(alloc, "UnknownOption ", name.as_str()),
        UriFault::BadOption(name) => worded(alloc, "BadOption ", name.as_str()),
        UriFault::DoubleOption(name) => worded(alloc, "DoubleOption ", name.as_str()),
        UriFault::NoMemory => Err(NoMemory),
    }
}

fn worded(alloc: Global, word: &str, name: &str) -> Result<String, NoMemory> {
    let mut out = String::from_str(alloc, word)?;
    out.push_str(name)?;
    Ok(out)
}

/// URIs, and how they are printed.
const FORMS: [(&str, &str); 21] = [
    ("direct:a", "direct:a"),
    ("direct://a", "direct:a"),
    ("seda:q", "seda:q"),
    (
        "seda:q?size=1000&concurrentConsumers=1&discardWhenFull=false",
        "seda:q",
    ),
    ("seda:q?size=100000", "seda:q?size=100000"),
    (
        "seda:q?size=1&discardWhenFull=true",
        "seda:q?discardWhenFull=true&size=1",
    ),
    (
        "seda://q?size=20000&concurrentConsumers=16",
        "seda:q?concurrentConsumers=16&size=20000",
    ),
    ("file:in", "file:in"),
    ("file:///in/new", "file:/in/new"),
    (
        "file:in?move=.camel&noop=false&delete=false&fileExist=Override",
        "file:in",
    ),
    ("file:in?noop=true", "file:in?noop=true"),
    (
        "file:in?delete=true&fileExist=Append",
        "file:in?delete=true&fileExist=Append",
    ),
    (
        "file:in?moveFailed=/bad&move=done&fileExist=Fail",
        "file:in?fileExist=Fail&move=done&moveFailed=/bad",
    ),
    (
        "file:a&b?noop=true&moveFailed=b=c&fileExist=Ignore",
        "file:a&b?fileExist=Ignore&moveFailed=b=c&noop=true",
    ),
    ("stream:in", "stream:in"),
    ("log:l.1-x_y", "log:l.1-x_y"),
    ("log:l?level=WARN", "log:l"),
    ("line:host:80", "line:host:80"),
    ("line:listen:65535", "line:listen:65535"),
    ("lane:x", "lane:x"),
    ("load:20000", "load:20000"),
];

#[test]
fn every_form_is_read_and_printed_without_its_defaults(rt: HostRuntime) -> Result<(), Fail> {
    for &(text, want) in &FORMS {
        assert!(rt; is_said(rt.alloc(), text, None, want)?, "at {text}");
        assert!(rt; is_said(rt.alloc(), want, None, want)?, "again at {text}");
    }
    Ok(())
}

/// Texts that are no URI, and their first fault.
const FAULTS: [(&str, &str); 41] = [
    ("", "BadUri 0"),
    ("stream", "BadUri 0"),
    ("nope:x", "UnknownScheme"),
    ("Seda:q?size=0", "UnknownScheme"),
    ("abc?x:y", "UnknownScheme"),
    ("seda:?size=0", "BadUri 5"),
    ("log:l1 ?level=WAN", "BadUri 4"),
    ("direct:////a", "BadUri 7"),
    ("file:////in", "BadUri 5"),
    ("file:in${x", "BadUri 5"),
    ("stream:i", "BadUri 7"),
    ("line:listen", "BadUri 5"),
    ("line:host:0", "BadUri 5"),
    ("line:host:65536", "BadUri 5"),
    ("line:a b:80", "BadUri 5"),
    ("load:0", "BadUri 5"),
    ("load:20001", "BadUri 5"),
    ("load:+5", "BadUri 5"),
    ("load:007", "BadUri 5"),
    ("seda:q?", "BadOption "),
    ("seda:q?size", "BadOption size"),
    ("seda:q?size=0", "BadOption size"),
    ("seda:q?size=100001", "BadOption size"),
    ("seda:q?size=5&&x=1", "BadOption "),
    (
        "seda:q?concurrentConsumers=65",
        "BadOption concurrentConsumers",
    ),
    ("seda:q?discardWhenFull=TRUE", "BadOption discardWhenFull"),
    ("seda:q?=1", "UnknownOption "),
    ("seda:q?noop=true&size=0", "UnknownOption noop"),
    ("direct:a?size=1", "UnknownOption size"),
    ("stream:in?size=1", "UnknownOption size"),
    ("seda:q?size=1&size=0", "DoubleOption size"),
    ("seda:q?size=0&size=1", "BadOption size"),
    ("file:in?noop=true&delete=true", "BadOption delete"),
    ("file:in?noop=true&delete=true&move=a", "BadOption delete"),
    ("file:in?move=.camel&noop=true", "BadOption move"),
    ("file:in?delete=true&move=a", "BadOption move"),
    ("file:in?delete=true&noop=true&size=1", "UnknownOption size"),
    ("file:in?move=a?b", "BadOption move"),
    ("file:in?moveFailed=", "BadOption moveFailed"),
    ("file:in?fileExist=override", "BadOption fileExist"),
    ("log:l?level=warn", "BadOption level"),
];

#[test]
fn the_first_fault_is_told(rt: HostRuntime) -> Result<(), Fail> {
    for &(text, want) in &FAULTS {
        assert!(rt; is_said(rt.alloc(), text, None, want)?, "at {text}");
    }
    Ok(())
}

/// URIs, the name and the value of a parameter, and what comes of both.
const PARAMETERS: [(&str, &str, &str, &str); 7] = [
    ("seda:q", "size", "5", "seda:q?size=5"),
    (
        "seda:q?size=5",
        "concurrentConsumers",
        "2",
        "seda:q?concurrentConsumers=2&size=5",
    ),
    ("seda:q?size=5", "size", "5", "DoubleOption size"),
    ("seda:q?x=5", "y", "5", "UnknownOption x"),
    ("file:in", "move", "a&b", "BadOption move"),
    ("file:in?delete=true", "noop", "true", "BadOption delete"),
    ("lane:x", "y=1", "", "UnknownOption y=1"),
];

#[test]
fn parameters_are_read_behind_the_query(rt: HostRuntime) -> Result<(), Fail> {
    for &(text, name, value, want) in &PARAMETERS {
        let parameter = Some((name, value));
        assert!(rt; is_said(rt.alloc(), text, parameter, want)?, "at {text}");
    }
    Ok(())
}

/// URIs, whether each may be a `from`, and whether a `to`.
const ENDS: [(&str, bool, bool); 11] = [
    ("direct:a", true, true),
    ("seda:q?size=5", true, true),
    ("file:in?move=a&moveFailed=b", true, true),
    ("file:in?delete=true", true, true),
    ("file:in?noop=true", true, true),
    ("stream:in", true, false),
    ("log:l", false, true),
    ("line:h:80", false, true),
    ("line:listen:80", true, false),
    ("lane:x", false, true),
    ("load:7", true, false),
];

#[test]
fn copies_stand_where_their_uri_may(rt: HostRuntime) -> Result<(), Fail> {
    for &(text, from, to) in &ENDS {
        let got = copy_said(rt.alloc(), text)?;
        assert!(rt; got == Some((true, from, to)), "of {text}");
    }
    grammar_laws();
    Ok(())
}

/// Whether a copy of a URI prints as this text, whether it may be a `from`, and whether a `to`.
fn copy_shown(alloc: Global, uri: &Uri, text: &str) -> Result<(bool, bool, bool), NoMemory> {
    let copy = uri.copy(alloc)?;
    let printed = copy.print(alloc)?;
    Ok((
        printed.as_str() == text,
        copy.is_consumer(),
        copy.is_producer(),
    ))
}

/// The same of the URI that a text spells, or `None` where it spells none.
fn copy_said(alloc: Global, text: &str) -> Result<Option<(bool, bool, bool)>, NoMemory> {
    match uri_of(alloc, text, None) {
        Ok(uri) => Ok(Some(copy_shown(alloc, &uri, text)?)),
        Err(UriFault::NoMemory) => Err(NoMemory),
        Err(_) => Ok(None),
    }
}
