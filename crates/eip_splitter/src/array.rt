#![tactic(auto, using(eip_text::proofs::Levels::json_levels))]

ghost use Rattle.std.specs.Prelude.{◌≡◌, Ok, Some, false, IfOk, IfErr};
ghost use Rattle.eip_text.specs.Json.{json, items_json, json_read};
ghost use Rattle.eip_text.specs.JsonText.{has_float, items_have_float};
ghost use Rattle.eip_splitter.specs.Faults.{IsFault};
ghost use Rattle.eip_splitter.specs.Parts as spec;

use crate::fault::SplitFault;
use crate::numbered::within_limit;
use eip_text::{JsonFault, NoMemory, Text, Tree, print_json, read_json};
use std::alloc::Global;

/// The texts of the elements of a JSON array.
pub fn element_bodies(alloc: Global, body: &[u8]) -> Result<Vec<Text>, SplitFault>
    ensures bodies { IfOk result (λ bs. spec.within_limit (spec.array_bodies (json_read body.now)) ≡ Ok bs.items) }
    ensures fault { IfErr result (λ e. IsFault e (spec.within_limit (spec.array_bodies (json_read body.now)))) }
{
    let tree = match read_json(alloc, body) {
        Ok(tree) => tree,
        Err(JsonFault::NotJson) => return Err(SplitFault::NotArray),
        Err(JsonFault::NoMemory) => return Err(SplitFault::NoMemory),
    };
    let bodies = bodies_of(alloc, &tree);
    drop(tree);
    bodies
}

fn bodies_of(alloc: Global, tree: &Tree) -> Result<Vec<Text>, SplitFault>
    ensures bodies { IfOk result (λ bs. spec.within_limit (spec.array_bodies (Some (json tree.now))) ≡ Ok bs.items) }
    ensures fault { IfErr result (λ e. IsFault e (spec.within_limit (spec.array_bodies (Some (json tree.now))))) }
{
    match tree {
        Tree::List(elements) => texts_within_limit(alloc, elements.items(), tree.has_float()),
        Tree::Null => Err(SplitFault::NotArray),
        Tree::Flag(_) => Err(SplitFault::NotArray),
        Tree::Whole(_) => Err(SplitFault::NotArray),
        Tree::Float => Err(SplitFault::NotArray),
        Tree::Word(_) => Err(SplitFault::NotArray),
        Tree::Object(_) => Err(SplitFault::NotArray),
    }
}

fn texts_within_limit(
    alloc: Global,
    elements: &[Tree],
    has_float: bool,
) -> Result<Vec<Text>, SplitFault>
    requires { has_float ≡ items_have_float (items_json elements.now) }
    ensures bodies { IfOk result (λ bs. spec.within_limit (spec.elements_bodies (items_json elements.now)) ≡ Ok bs.items) }
    ensures fault { IfErr result (λ e. IsFault e (spec.within_limit (spec.elements_bodies (items_json elements.now)))) }
{
    if has_float {
        return Err(SplitFault::NotArray);
    }
    within_limit(elements.len())?;
    Ok(texts_of(alloc, elements)?)
}

fn texts_of(alloc: Global, elements: &[Tree]) -> Result<Vec<Text>, NoMemory>
    requires { items_have_float (items_json elements.now) ≡ false }
    ensures { IfOk result (λ ts. ts.items ≡ spec.element_texts (items_json elements.now)) }
{
    let mut texts = Vec::with_capacity(alloc, elements.len())?;
    for element in elements {
        texts.push(text_of(alloc, element)?)?;
    }
    Ok(texts)
}

/// A text as it is, every other element as compact JSON.
fn text_of(alloc: Global, element: &Tree) -> Result<Text, NoMemory>
    requires { has_float (json element.now) ≡ false }
    ensures { IfOk result (λ t. t ≡ spec.element_text (json element.now)) }
{
    match element {
        Tree::Word(text) => text.copy(),
        Tree::Null => print_json(alloc, element),
        Tree::Flag(_) => print_json(alloc, element),
        Tree::Whole(_) => print_json(alloc, element),
        Tree::Float => print_json(alloc, element),
        Tree::List(_) => print_json(alloc, element),
        Tree::Object(_) => print_json(alloc, element),
    }
}
