ghost use Rattle.std.specs.Prelude.{◌≡◌, IfOk, option_map};
ghost use Rattle.eip_simple.specs.Views.{seen};
ghost use Rattle.eip_simple.specs.Found.{found_text};
ghost use Rattle.eip_simple.specs.Values.{function_value};

use crate::view::View;
use eip_simple_read::Function;
use eip_text::{NoMemory, Text, decimal};
use std::alloc::Global;

/// A function's text: one of the message, or one that was made for it.
#[derive(Drop)]
pub enum Found<'v> {
    Lent(&'v Text),
    Made(Text),
}

impl Found<'_> {
    /// The text.
    pub fn as_str(&self) -> &str
        ensures { result.now ≡ found_text self.now }
    {
        match self {
            Found::Lent(text) => text.as_str(),
            Found::Made(text) => text.as_str(),
        }
    }
}

/// The property that holds the text of the fault that was caught.
const CAUGHT: &[u8] = b"CamelExceptionCaught";

/// What a function stands for, or `None` where that is absent.
pub fn function_value<'v>(
    alloc: Global,
    function: &Function,
    view: &View<'v>,
) -> Result<Option<Found<'v>>, NoMemory>
    ensures { IfOk result (λ f. option_map found_text f ≡ function_value function.now (seen view.now)) }
{
    match function {
        Function::Body => Ok(Some(Found::Lent(&view.message.body))),
        Function::Header(name) => Ok(lent(view.message.headers.get(name.bytes()))),
        Function::Property(name) => Ok(lent(view.message.properties.get(name.bytes()))),
        Function::ExchangeId => Ok(Some(Found::Made(decimal(alloc, view.number)?))),
        Function::RouteId => Ok(Some(Found::Lent(view.route))),
        Function::ExceptionMessage => Ok(lent(view.message.properties.get(CAUGHT))),
    }
}

/// A text that a message may have.
fn lent(text: Option<&Text>) -> Option<Found<'_>>
    ensures { option_map found_text result ≡ option_map (λ t. t.now) text.entry }
{
    match text {
        Some(text) => Some(Found::Lent(text)),
        None => None,
    }
}
