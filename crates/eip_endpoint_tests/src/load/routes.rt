use eip_load::load_routes;
use std::test::Fail;

/// The route file of a load test of ten items.
const TEN: &str =
    r#"[{"route":{"id":"in","from":{"uri":"load:10","steps":[{"idempotentConsumer":{"simple":"${header.order}","steps":[{"to":"seda:work"}]}}]}}},{"route":{"id":"work","from":{"uri":"seda:work?size=20000&concurrentConsumers=16","steps":[{"process":{"ref":"keep"}},{"aggregate":{"correlationExpression":{"simple":"${header.customer}"},"completionSize":3,"forceCompletionOnStop":true,"aggregationStrategy":"sum","steps":[{"to":"log:batch"}]}}]}}}]"#;

#[test]
fn the_routes_take_the_number_of_items(rt: HostRuntime) -> Result<(), Fail> {
    let text = load_routes(rt.alloc(), 10)?;
    assert!(rt; text.as_str() == TEN);
    Ok(())
}
