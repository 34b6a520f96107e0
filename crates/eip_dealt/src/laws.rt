ghost use Rattle.std.specs.Prelude.{ℕ, List};
ghost use Rattle.eip_endpoint.specs.Inlets.{InletView};
ghost use Rattle.eip_endpoint.specs.Lanes.{LaneView};
ghost use Rattle.eip_dealt.specs.Dealt.{OwnDoor, OwnLane, OwnInlet, DealtLanes, DealtInlets};

/// What is found under its name among all is found under it in the share that it was dealt to. It does nothing.
pub fn own_door_law<A: Drop>()
    ensures { (f : A → List ℕ) → OwnDoor f }
{}

/// A worker finds each lane that is its own in its share. It does nothing.
pub fn own_lane_law<L: Drop>()
    ensures { (f : L → LaneView) → OwnLane f }
{}

/// A worker finds the inlet of each source that is its own in its share. It does nothing.
pub fn own_inlet_law<I: Drop>()
    ensures { (g : I → InletView) → OwnInlet g }
{}

/// Where each worker has had the calls of its answers on the lanes that were dealt out to it, the lanes that are gathered from theirs
/// have had all calls. It does nothing.
pub fn dealt_lanes_law<L: Drop, I: Drop>()
    ensures { (f : L → LaneView) (g : I → InletView) → DealtLanes f g }
{}

/// Where the inlets that were dealt out to each worker did what its entries and answers say, the inlets that are gathered from theirs
/// did what all entries and answers say. It does nothing.
pub fn dealt_inlets_law<L: Drop, I: Drop>()
    ensures { (f : L → LaneView) (g : I → InletView) → DealtInlets f g }
{}
