// Headers and properties of the pairs that a packed message has.
ghost use Rattle.std.specs.Prelude.{◌≡◌, ◌++◌, ◌∷◌, [], true, is_none, IfOk, IfErr, OnOk};
ghost use Rattle.eip_exchange.specs.Pairs.{get_property};
ghost use Rattle.eip_splitter.specs.Batches as spec;

use crate::fault::SplitFault;
use eip_exchange::{HeaderFault, Headers, Properties};
use eip_text::Text;
use std::alloc::Global;

/// The headers of these pairs. `NotArray` exactly where two names are equal up to ASCII case, or where there are more than
/// a message may hold.
pub fn headers_of(alloc: Global, pairs: Vec<(Text, Text)>) -> Result<Headers, SplitFault>
    ensures fit { IfOk result (λ _. spec.are_headers pairs.items ≡ true) }
    ensures headers { IfOk result (λ h. h ≡ pairs.items) }
    ensures fault { IfErr result (λ e. spec.IsRefused e (spec.are_headers pairs.items)) }
{
    let mut headers = Headers::new(alloc);
    for (name, value) in pairs {
        add_header(&mut headers, name, value)?;
    }
    Ok(headers)
}

/// Sets a header that isn't there yet. `NotArray` exactly where it is there or would be one too many.
fn add_header(headers: &mut Headers, name: Text, value: Text) -> Result<(), SplitFault>
    ensures fits { OnOk result (spec.may_add name headers.old ≡ true) }
    ensures added { OnOk result (headers.new ≡ headers.old ++ (name, value) ∷ []) }
    ensures fault { IfErr result (λ e. spec.IsRefused e (spec.may_add name headers.old)) }
{
    if headers.get(name.bytes()).is_some() {
        return Err(SplitFault::NotArray);
    }
    match headers.set(name, value) {
        Ok(()) => Ok(()),
        Err(HeaderFault::TooManyHeaders) => Err(SplitFault::NotArray),
        Err(HeaderFault::NoMemory) => Err(SplitFault::NoMemory),
    }
}

/// The properties of these pairs. `NotArray` exactly where two names are equal.
pub fn properties_of(alloc: Global, pairs: Vec<(Text, Text)>) -> Result<Properties, SplitFault>
    ensures fit { IfOk result (λ _. spec.are_properties pairs.items ≡ true) }
    ensures properties { IfOk result (λ p. p ≡ pairs.items) }
    ensures fault { IfErr result (λ e. spec.IsRefused e (spec.are_properties pairs.items)) }
{
    let mut properties = Properties::new(alloc);
    for (name, value) in pairs {
        add_property(&mut properties, name, value)?;
    }
    Ok(properties)
}

/// Sets a property that isn't there yet. `NotArray` exactly where it is there.
fn add_property(properties: &mut Properties, name: Text, value: Text) -> Result<(), SplitFault>
    ensures fits { OnOk result (is_none (get_property name properties.old) ≡ true) }
    ensures added { OnOk result (properties.new ≡ properties.old ++ (name, value) ∷ []) }
    ensures fault { IfErr result (λ e. spec.IsRefused e (is_none (get_property name properties.old))) }
{
    if properties.get(name.bytes()).is_some() {
        return Err(SplitFault::NotArray);
    }
    Ok(properties.set(name, value)?)
}
