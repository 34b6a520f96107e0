use crate::given::{comes_to, route_of};
use eip_test_support::holds;
use std::test::Fail;

/// Words of a drain by several workers.
const BY_THREE: [&str; 4] = ["drain", "r.json", "--workers", "3"];

#[test]
fn each_line_is_sent_to_each_lane_by_workers(rt: HostRuntime) -> Result<(), Fail> {
    let routes = route_of(rt.alloc(), "[{\"to\":\"lane:a\"},{\"to\":\"lane:b\"}]")?;
    let text =
        "exchange 1 source route1 completed\nexchange 2 source route1 completed\naccepted 2 refused 0\ntotal 2 completed 2 handled 0 failed 0 waiting 0\ndrained\n";
    holds(comes_to(&rt, &BY_THREE, routes.as_str(), &["a", "b"], 0, text))
}
