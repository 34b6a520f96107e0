ghost use Rattle.std.specs.Prelude.{◌≡◌, IfOk, option_map};
ghost use Rattle.eip_simple.specs.Views.{seen};
ghost use Rattle.eip_simple.specs.Found.{found_text};
ghost use Rattle.eip_simple.specs.Values.{side_value};

use crate::functions::{Found, function_value};
use crate::templates::joined;
use crate::view::View;
use eip_simple_read::Side;
use eip_text::NoMemory;
use std::alloc::Global;

/// A side's value, or `None` where it is absent. It has no limit on its length.
pub fn side_value<'v>(
    alloc: Global,
    side: &Side,
    view: &View<'v>,
) -> Result<Option<Found<'v>>, NoMemory>
    ensures { IfOk result (λ f. option_map found_text f ≡ side_value side.now (seen view.now)) }
{
    match side {
        Side::Value(template) => match joined(alloc, template, view, usize::MAX) {
            Ok(text) => Ok(Some(Found::Made(text))),
            Err(_) => Err(NoMemory),
        },
        Side::Call(function) => function_value(alloc, function, view),
        Side::Null => Ok(None),
    }
}
