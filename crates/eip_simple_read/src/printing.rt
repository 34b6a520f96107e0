ghost use Rattle.std.specs.Prelude.{◌≡◌, ◌++◌, ◌∷◌, [], IfOk, OnOk, string_bytes, codes};
ghost use Rattle.eip_simple_read.specs.Spelling as spec;

use crate::tree::{Function, Op, Part, Predicate, Side, Template, Test};
use eip_text::cuts::holds;
use eip_text::{NoMemory, Series, Text};
use std::alloc::Global;

fn push_function(out: &mut String, function: &Function) -> Result<(), NoMemory>
    ensures { OnOk result (string_bytes out.new ≡ string_bytes out.old ++ spec.function_text function.now) }
{
    match function {
        Function::Body => out.push_str("${body}")?,
        Function::Header(name) => push_named(out, "${header.", name)?,
        Function::Property(name) => push_named(out, "${exchangeProperty.", name)?,
        Function::ExchangeId => out.push_str("${exchangeId}")?,
        Function::RouteId => out.push_str("${routeId}")?,
        Function::ExceptionMessage => out.push_str("${exception.message}")?,
    }
    Ok(())
}

/// A function that has a Name.
fn push_named(out: &mut String, opening: &str, name: &Text) -> Result<(), NoMemory>
    ensures { OnOk result (string_bytes out.new ≡ string_bytes out.old ++ (opening.now ++ (name.now ++ codes "}"))) }
{
    out.push_str(opening)?;
    out.push_str(name.as_str())?;
    out.push('}')?;
    Ok(())
}

fn push_part(out: &mut String, part: &Part) -> Result<(), NoMemory>
    ensures { OnOk result (string_bytes out.new ≡ string_bytes out.old ++ spec.part_text part.now) }
{
    match part {
        Part::Plain(text) => out.push_str(text.as_str())?,
        Part::Call(function) => push_function(out, function)?,
    }
    Ok(())
}

/// The text of the parts.
fn printed_parts(alloc: Global, parts: &[Part]) -> Result<String, NoMemory>
    ensures { IfOk result (λ s. string_bytes s ≡ spec.parts_text parts.now) }
{
    let mut out = String::new(alloc);
    for part in parts {
        push_part(&mut out, part)?;
    }
    Ok(out)
}

/// The text in quotes.
fn push_quoted(out: &mut String, text: &str) -> Result<(), NoMemory>
    ensures { OnOk result (string_bytes out.new ≡ string_bytes out.old ++ spec.quoted_text text.now) }
{
    let quote = if holds(text, '\'') { '"' } else { '\'' };
    out.push(quote)?;
    out.push_str(text)?;
    out.push(quote)?;
    Ok(())
}

fn push_side(alloc: Global, out: &mut String, side: &Side) -> Result<(), NoMemory>
    ensures { OnOk result (string_bytes out.new ≡ string_bytes out.old ++ spec.side_text side.now) }
{
    match side {
        Side::Value(template) => {
            let inner = printed_parts(alloc, template.parts.items())?;
            push_quoted(out, inner.as_str())?;
        }
        Side::Call(function) => push_function(out, function)?,
        Side::Null => out.push_str("null")?,
    }
    Ok(())
}

/// The operator's one spelling in printed texts.
fn op_text(op: Op) -> &'static str
    ensures { result.now ≡ spec.op_text op }
{
    match op {
        Op::Equal => "==",
        Op::NotEqual => "!=",
        Op::EqualFold => "=~",
        Op::Less => "<",
        Op::AtMost => "<=",
        Op::Greater => ">",
        Op::AtLeast => ">=",
        Op::Contains => "contains",
        Op::NotContains => "!contains",
        Op::ContainsFold => "~~",
        Op::StartsWith => "startsWith",
        Op::EndsWith => "endsWith",
        Op::In => "in",
        Op::NotIn => "!in",
        Op::Range => "range",
        Op::NotRange => "!range",
    }
}

/// The word between single spaces.
fn push_spaced(out: &mut String, word: &str) -> Result<(), NoMemory>
    ensures { OnOk result (string_bytes out.new ≡ string_bytes out.old ++ (32 ∷ (word.now ++ 32 ∷ []))) }
{
    out.push(' ')?;
    out.push_str(word)?;
    out.push(' ')?;
    Ok(())
}

fn push_test(alloc: Global, out: &mut String, test: &Test) -> Result<(), NoMemory>
    ensures { OnOk result (string_bytes out.new ≡ string_bytes out.old ++ spec.test_text test.now) }
{
    match test {
        Test::Single(side) => push_side(alloc, out, side)?,
        Test::Compare { left, op, right } => {
            push_side(alloc, out, left)?;
            push_spaced(out, op_text(*op))?;
            push_side(alloc, out, right)?;
        }
        Test::Matches {
            left,
            pattern,
            negated,
        } => {
            push_side(alloc, out, left)?;
            push_spaced(out, if *negated { "!regex" } else { "regex" })?;
            push_quoted(out, pattern.text().as_str())?;
        }
    }
    Ok(())
}

/// A conjunction.
fn push_all(alloc: Global, out: &mut String, tests: &[Test]) -> Result<(), NoMemory>
    ensures { OnOk result (string_bytes out.new ≡ string_bytes out.old ++ spec.all_text tests.now) }
{
    let Some((first, others)) = tests.split_first() else {
        return Ok(());
    };
    push_test(alloc, out, first)?;
    for test in others {
        out.push_str(" && ")?;
        push_test(alloc, out, test)?;
    }
    Ok(())
}

/// The conjunctions.
fn push_any(alloc: Global, out: &mut String, any: &[Series<Test>]) -> Result<(), NoMemory>
    ensures { OnOk result (string_bytes out.new ≡ string_bytes out.old ++ spec.any_text any.now) }
{
    let Some((first, others)) = any.split_first() else {
        return Ok(());
    };
    push_all(alloc, out, first.items())?;
    for all in others {
        out.push_str(" || ")?;
        push_all(alloc, out, all.items())?;
    }
    Ok(())
}

/// The template's text. A template that `read_template` gave is read again from it.
pub fn print_template(alloc: Global, template: &Template) -> Result<Text, NoMemory>
    ensures { IfOk result (λ t. t ≡ spec.template_text template.now) }
{
    Ok(Text::of(printed_parts(alloc, template.parts.items())?))
}

/// The predicate's one printed text: single spaces, values in quotes, and each operator in its one spelling. A predicate
/// that `read_predicate` gave is read again from it.
pub fn print_predicate(alloc: Global, predicate: &Predicate) -> Result<Text, NoMemory>
    ensures { IfOk result (λ t. t ≡ spec.predicate_text predicate.now) }
{
    let mut out = String::new(alloc);
    push_any(alloc, &mut out, predicate.any.items())?;
    Ok(Text::of(out))
}
