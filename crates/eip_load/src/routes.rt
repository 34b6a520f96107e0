ghost use Rattle.std.specs.Prelude.{◌≡◌, IfOk};
ghost use Rattle.eip_load.specs.Routes.{load_text};

use eip_text::{NoMemory, Text};
use std::alloc::Global;

/// The routes of the load test in front of the number of items.
const FRONT: &str = r#"[{"route":{"id":"in","from":{"uri":"load:"#;

/// The routes of the load test behind the number of items.
const REST: &str =
    r#"","steps":[{"idempotentConsumer":{"simple":"${header.order}","steps":[{"to":"seda:work"}]}}]}}},{"route":{"id":"work","from":{"uri":"seda:work?size=20000&concurrentConsumers=16","steps":[{"process":{"ref":"keep"}},{"aggregate":{"correlationExpression":{"simple":"${header.customer}"},"completionSize":3,"forceCompletionOnStop":true,"aggregationStrategy":"sum","steps":[{"to":"log:batch"}]}}]}}}]"#;

/// The routes of the load test with this number of items, as the text of a route file: the items pass an idempotent
/// consumer by their order into a queue, whose consumer hands each to the processor `keep` and adds up the bodies of
/// three by customer (Camel manual, *Idempotent Consumer*, *SEDA* and *Aggregate*).
pub fn load_routes(alloc: Global, count: u32) -> Result<Text, NoMemory>
    ensures { IfOk result (λ t. t ≡ load_text count) }
{
    let mut out = String::from_str(alloc, FRONT)?;
    write!(out, "{count}")?;
    out.push_str(REST)?;
    Ok(Text::of(out))
}
