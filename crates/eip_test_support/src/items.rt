ghost use Rattle.std.specs.Prelude.{◌≤◌, IfOk, length};
ghost use Rattle.eip_endpoint.specs.MemorySources.{IsNew, AreNew};

use eip_endpoint::Pulled;
use eip_exchange::Message;
use eip_text::{NoMemory, Series, Text};
use std::alloc::Global;

/// An item of this name with this body.
pub fn item(alloc: Global, name: &str, body: &str) -> Result<Pulled, NoMemory>
    requires { length body.now ≤ 65536 }
    ensures { IfOk result IsNew }
{
    let item = Text::of_str(alloc, name)?;
    let body = Text::of_str(alloc, body)?;
    let message = Message::of_body(alloc, body);
    Ok(Pulled::Item { item, message })
}

/// These two items as what standard input gives.
pub fn two_of_stream(
    alloc: Global,
    first: Pulled,
    second: Pulled,
) -> Result<Vec<(Text, Series<Pulled>)>, NoMemory>
    requires first { IsNew first }
    requires second { IsNew second }
    ensures { IfOk result (λ v. AreNew v.items) }
{
    let items = Series::of(vec![in alloc; first, second]?);
    let uri = Text::of_str(alloc, "stream:in")?;
    Ok(vec![in alloc; (uri, items)]?)
}
