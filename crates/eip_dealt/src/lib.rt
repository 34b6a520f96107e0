// Lanes and inlets that are dealt out to their owners, and gathered behind what these did with them.
#![tactic(auto)]

mod laws;

pub use laws::{dealt_inlets_law, dealt_lanes_law, own_door_law, own_inlet_law, own_lane_law};
