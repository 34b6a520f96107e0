ghost use Rattle.std.specs.Prelude.{◌≡◌, ◌+◌, ◌<◌, ◌^◌, ◌++◌, length, IfOk, OnOk};
ghost use Rattle.eip_simple_read.specs.Reading as spec;
ghost use Rattle.eip_simple_read.specs.Reading.{Gives};
ghost use Rattle.eip_simple_read.specs.Spelling.{template_text};
ghost use Rattle.eip_simple_read.specs.Meaning.{Answers, template_of};

use crate::fault::{SimpleFault, Stop};
use crate::functions::function_behind;
use crate::tree::{Part, Template};
use eip_text::{NoMemory, Series, Text};
use std::alloc::Global;

/// A part of plain text at the end, unless it is empty.
fn push_plain(alloc: Global, parts: &mut Vec<Part>, text: &str) -> Result<(), NoMemory>
    ensures { OnOk result (parts.new.items ≡ parts.old.items ++ spec.plain_part text.now) }
{
    if !text.is_empty() {
        parts.push(Part::Plain(Text::of_str(alloc, text)?))?;
    }
    Ok(())
}

/// The parts of the template that a text spells which so many bytes follow.
pub fn template(alloc: Global, text: &str, after: usize) -> Result<Vec<Part>, Stop>
    requires { length text.now + after < 2 ^ 64 }
    ensures { Gives (λ ps. ps.items) result (spec.template after 0 text.now) }
{
    let mut parts = Vec::new(alloc);
    let mut rest = text;
    while let Some((front, inner)) = rest.split_once("${") {
        push_plain(alloc, &mut parts, front)?;
        let (function, more) = function_behind(alloc, inner, inner.len() + 2 + after)?;
        parts.push(Part::Call(function))?;
        rest = more;
    }
    push_plain(alloc, &mut parts, rest)?;
    Ok(parts)
}

/// The template that the text spells, or its first fault.
#[tactic(auto, unfolding(crate::specs::Meaning::template_of))]
pub fn read_template(alloc: Global, text: &Text) -> Result<Template, SimpleFault>
    ensures exact { Answers result (template_of text.now) }
    ensures again { IfOk result (λ t. template_of (template_text t) ≡ Ok t) }
{
    let whole = text.as_str();
    match template(alloc, whole, 0) {
        Ok(parts) => Ok(Template {
            parts: Series::of(parts),
        }),
        Err(stop) => Err(stop.fault(whole.len())),
    }
}
