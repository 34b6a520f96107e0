use crate::support::{Given, Handed, is_told, told};
use eip_text::NoMemory;
use std::alloc::Global;
use std::test::*;

/// One of each is handed in, and the pattern with this number, from 1, is refused.
fn given(refused: u64) -> Given {
    Given {
        handed: Handed::OneOfEach,
        refused,
    }
}

/// Whether this is a file's first fault.
fn is_fault(alloc: Global, file: &str, wanted: &str) -> Result<bool, NoMemory> {
    is_told(alloc, file.as_bytes(), given(0), wanted)
}

/// Whether a file has no fault, and its canonical text is told.
fn is_faultless(alloc: Global, file: &str) -> Result<bool, NoMemory> {
    let told = told(alloc, file.as_bytes(), given(0))?;
    Ok(told.as_str().starts_with('['))
}

/// Files with their first fault.
const FAULTS: [(&str, &str); 28] = [
    ("{}", "$ WrongKind"),
    ("[[]]", "$[0] WrongKind"),
    ("[{\"from\":{},\"route\":{}}]", "$[0] NotOneKey"),
    ("[{\"rout\":{}}]", "$[0] UnknownKey rout"),
    (
        "[{\"route\":{\"from\":{\"uri\":\"stream:in\",\"steps\":[]},\"steps\":[]}}]",
        "$[0].route StepsTwice",
    ),
    (
        "[{\"route\":{\"id\":\"a b\",\"from\":{\"uri\":\"load:3\"}}}]",
        "$[0].route.from.uri NotRegistered load",
    ),
    (
        "[{\"from\":{\"uri\":\"log:a\"}}]",
        "$[0].from.uri NotConsumer",
    ),
    (
        "[{\"from\":{\"uri\":\"seda:q\",\"parameters\":{\"size\":0}}}]",
        "$[0].from.uri BadOption size",
    ),
    (
        "[{\"from\":{\"uri\":\"seda:q\",\"parameters\":{\"size\":1.5}}}]",
        "$[0].from.parameters.size WrongKind",
    ),
    (
        "[{\"from\":{\"uri\":\"stream:in\",\"steps\":[{\"filter\":{\"simple\":\"${body} == 'x'\",\"steps\":[{\"shout\":\"y\"}]}}]}}]",
        "$[0].from.steps[0].filter.steps[0] UnknownStep shout",
    ),
    (
        "[{\"from\":{\"uri\":\"stream:in\",\"steps\":[{\"set-body\":{\"constant\":\"a\",\"expression\":{}}}]}}]",
        "$[0].from.steps[0].set-body DoubleKey expression",
    ),
    (
        "[{\"from\":{\"uri\":\"stream:in\",\"steps\":[{\"setHeader\":{\"constant\":\"a\"}}]}}]",
        "$[0].from.steps[0].setHeader MissingKey name",
    ),
    (
        "[{\"from\":{\"uri\":\"stream:in\",\"steps\":[{\"setBody\":{\"id\":\"a\"}}]}}]",
        "$[0].from.steps[0].setBody MissingKey expression",
    ),
    (
        "[{\"from\":{\"uri\":\"stream:in\",\"steps\":[{\"to\":\"load:3\"}]}}]",
        "$[0].from.steps[0].to NotProducer",
    ),
    (
        "[{\"from\":{\"uri\":\"stream:in\",\"steps\":[{\"to\":\"lane:y\"}]}}]",
        "$[0].from.steps[0].to NotRegistered lane:y",
    ),
    (
        "[{\"from\":{\"uri\":\"stream:in\",\"steps\":[{\"process\":{\"ref\":\"#drop\"}}]}}]",
        "$[0].from.steps[0].process.ref NotRegistered drop",
    ),
    (
        "[{\"from\":{\"uri\":\"stream:in\",\"steps\":[{\"log\":{\"message\":\"a${body\"}}]}}]",
        "$[0].from.steps[0].log.message BadSimple 1",
    ),
    (
        "[{\"from\":{\"uri\":\"stream:in\",\"steps\":[{\"split\":{\"tokenize\":\"\",\"steps\":[]}}]}}]",
        "$[0].from.steps[0].split.tokenize BadValue",
    ),
    (
        "[{\"from\":{\"uri\":\"stream:in\",\"steps\":[{\"multicast\":{\"steps\":[]}}]}}]",
        "$[0].from.steps[0].multicast.steps BadValue",
    ),
    (
        "[{\"from\":{\"uri\":\"stream:in\",\"steps\":[{\"aggregate\":{\"correlationExpression\":{\"constant\":1},\"steps\":[]}}]}}]",
        "$[0].from.steps[0].aggregate NoCompletion",
    ),
    (
        "[{\"from\":{\"uri\":\"stream:in\",\"steps\":[{\"aggregate\":{\"correlationExpression\":{\"constant\":1},\"aggregationStrategy\":\"original\",\"completionSize\":2,\"steps\":[]}}]}}]",
        "$[0].from.steps[0].aggregate.aggregationStrategy BadValue",
    ),
    (
        "[{\"from\":{\"uri\":\"stream:in\",\"steps\":[{\"throwException\":{\"exceptionType\":\"a.b.\",\"message\":\"\"}}]}}]",
        "$[0].from.steps[0].throwException.exceptionType BadName",
    ),
    (
        "[{\"onException\":{\"exception\":[]}}]",
        "$[0].onException.exception BadValue",
    ),
    (
        "[{\"onException\":{\"exception\":\"E\",\"handled\":{\"constant\":\"true\"},\"continued\":true}}]",
        "$[0].onException BothHandledAndContinued",
    ),
    (
        "[{\"errorHandler\":{\"id\":\"h\"}}]",
        "$[0].errorHandler NotOneKey",
    ),
    (
        "[{\"errorHandler\":{\"defaultErrorHandler\":{}}},{\"errorHandler\":{\"defaultErrorHandler\":{}}}]",
        "$[1] DoubleErrorHandler",
    ),
    (
        "[{\"route\":{\"id\":\"route2\",\"from\":{\"uri\":\"direct:a\"}}},{\"from\":{\"uri\":\"direct:b\"}}]",
        "$[1].from DoubleRouteId",
    ),
    (
        "[{\"from\":{\"uri\":\"seda:a\"}},{\"route\":{\"from\":{\"uri\":\"seda:a?size=3\"}}}]",
        "$[1].route.from.uri SecondConsumer",
    ),
];

#[test]
fn the_first_fault_is_found(rt: HostRuntime) -> Result<(), Fail> {
    for &(file, wanted) in &FAULTS {
        assert!(rt; is_fault(rt.alloc(), file, wanted)?, "at {file}");
    }
    Ok(())
}

/// Files without a fault.
const FAULTLESS: [&str; 9] = [
    "[]",
    "[{\"errorHandler\":{\"id\":\"h\",\"dead-letter-channel\":{\"deadLetterUri\":\"lane:x\",\"redeliveryPolicy\":{\"maximumRedeliveries\":\"1000\",\"redelivery-delay\":0,\"backOffMultiplier\":100,\"useExponentialBackOff\":\"true\",\"maximumRedeliveryDelay\":1000000000}}}}]",
    "[{\"onException\":{\"exception\":[\"a.E\",\"\"],\"handled\":{\"constant\":true},\"continued\":\"false\",\"steps\":[],\"redeliveryPolicy\":{}}}]",
    "[{\"route\":{\"id\":\"a.b\",\"description\":\"\",\"from\":{\"uri\":\"stream:in\",\"id\":\"?\"},\"steps\":[]}}]",
    "[{\"from\":{\"uri\":\"stream:in\",\"steps\":[{\"setBody\":{\"expression\":{\"simple\":{\"expression\":\"a ${body}\"}}}},{\"setHeader\":{\"name\":\"h\",\"header\":\"i\"}},{\"set-property\":{\"name\":\"p\",\"exchangeProperty\":\"q\"}},{\"removeHeader\":\"h\"},{\"removeHeader\":{\"name\":\"h\"}}]}}]",
    "[{\"from\":{\"uri\":\"stream:in\",\"steps\":[{\"to\":{\"uri\":\"seda:q\",\"parameters\":{\"size\":\"3\",\"discardWhenFull\":true}}},{\"log\":\"${body}\"},{\"log\":{\"message\":\"\",\"logName\":\"l\",\"loggingLevel\":\"WARN\"}},{\"throwException\":{\"exceptionType\":\"a.B$c\",\"message\":\"m\"}},{\"process\":\"keep\"},{\"process\":{\"ref\":\"#keep\"}}]}}]",
    "[{\"from\":{\"uri\":\"stream:in\",\"steps\":[{\"choice\":{\"when\":[{\"ref\":\"#empty\",\"steps\":[]},{\"constant\":{\"expression\":\"true\"},\"steps\":[]}],\"otherwise\":{\"steps\":[]}}},{\"filter\":{\"expression\":{\"simple\":{\"expression\":\"${body} regex 'a'\"}},\"steps\":[]}}]}}]",
    "[{\"from\":{\"uri\":\"stream:in\",\"steps\":[{\"split\":{\"tokenize\":{\"token\":\",\"},\"aggregationStrategy\":\"#joined:\",\"parallelProcessing\":true,\"stopOnException\":\"false\",\"steps\":[]}},{\"split\":{\"jsonpath\":\"$[*]\",\"steps\":[]}},{\"multicast\":{\"aggregation-strategy\":\"original\",\"steps\":[{\"to\":\"log:a\"}]}},{\"recipientList\":{\"simple\":\"${body}\",\"delimiter\":\";\",\"aggregationStrategy\":\"sum\"}}]}}]",
    "[{\"from\":{\"uri\":\"stream:in\",\"steps\":[{\"aggregate\":{\"correlationExpression\":{\"expression\":{\"constant\":true}},\"completionSize\":1000000,\"completionTimeout\":\"1\",\"completionPredicate\":{\"simple\":\"true\"},\"forceCompletionOnStop\":true,\"steps\":[]}},{\"idempotentConsumer\":{\"constant\":7,\"idempotentRepository\":\"#r\",\"eager\":true,\"skipDuplicate\":false,\"removeOnFailure\":\"true\",\"steps\":[]}}]}}]",
];

#[test]
fn objects_with_their_keys_have_no_fault(rt: HostRuntime) -> Result<(), Fail> {
    for file in &FAULTLESS {
        assert!(rt; is_faultless(rt.alloc(), file)?, "at {file}");
    }
    Ok(())
}

/// A file with one pattern.
const PATTERN: &str =
    "[{\"from\":{\"uri\":\"stream:in\",\"steps\":[{\"filter\":{\"simple\":\"${body} regex 'a'\",\"steps\":[{\"shout\":\"y\"}]}}]}}]";

#[test]
fn a_pattern_that_is_too_large_is_refused_at_its_side(rt: HostRuntime) -> Result<(), Fail> {
    let wanted = "$[0].from.steps[0].filter.simple PatternTooLarge 14";
    assert!(rt; is_told(rt.alloc(), PATTERN.as_bytes(), given(1), wanted)?);
    Ok(())
}

/// A file with two patterns in one predicate and a third in a later one.
const PATTERNS: &str =
    "[{\"from\":{\"uri\":\"stream:in\",\"steps\":[{\"filter\":{\"simple\":\"${body} regex 'a' && ${body} regex 'b'\",\"steps\":[{\"filter\":{\"simple\":\"${body} regex 'c'\",\"steps\":[]}}]}}]}}]";

/// The number of the build that is refused, and the fault of that file.
const REFUSED: [(u64, &str); 3] = [
    (1, "$[0].from.steps[0].filter.simple PatternTooLarge 14"),
    (2, "$[0].from.steps[0].filter.simple PatternTooLarge 35"),
    (
        3,
        "$[0].from.steps[0].filter.steps[0].filter.simple PatternTooLarge 14",
    ),
];

#[test]
fn each_pattern_is_built_once_from_the_left(rt: HostRuntime) -> Result<(), Fail> {
    for &(refused, wanted) in &REFUSED {
        assert!(rt;
            is_told(rt.alloc(), PATTERNS.as_bytes(), given(refused), wanted)?,
            "at {refused}"
        );
    }
    let told = told(rt.alloc(), PATTERNS.as_bytes(), given(4))?;
    assert!(rt; told.as_str().starts_with('['));
    Ok(())
}
