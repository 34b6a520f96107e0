ghost use Rattle.std.specs.Prelude.{◌≡◌, ◌<◌, ◌≤◌, [], length, slice_get, slice_set, IfOk, Some, option_map};
ghost use Rattle.std.specs.List.{position_from};
ghost use Rattle.eip_plan.specs.Plan.{plan_of};
ghost use Rattle.eip_tables.specs.Rows.{SourcesStand, is_idle, are_done};

use crate::row::SourceState;
use eip_route::RouteSet;
use eip_text::NoMemory;
use std::alloc::Global;
use std::marker::Model;

/// Where the source of each route stands, by the index of the route.
#[derive(Drop)]
pub struct Sources {
    states: Vec<SourceState>,
}

impl Model for Sources {
    ghost use Rattle.std.specs.Prelude.{List};
    ghost use Rattle.eip_tables.specs.declared.row.SourceState.{SourceState};

    ghost Value = { List SourceState };

    ghost view = { λ s. s.states.items };
}

impl Sources {
    /// The sources of a set before the first entry.
    pub fn new(alloc: Global, set: &RouteSet) -> Result<Sources, NoMemory>
        ensures { IfOk result (λ s. SourcesStand (plan_of set.now) [] s) }
    {
        let mut states = Vec::new(alloc);
        for route in set.routes.items() {
            let state = match route.from.inlet() {
                Some(_) => SourceState::Idle,
                None => SourceState::Unused,
            };
            states.push(state)?;
        }
        Ok(Sources { states })
    }

    /// The source of a route stands so now.
    pub fn set(&mut self, route: u32, state: SourceState)
        requires { route < length self.old }
        ensures { self.new ≡ slice_set self.old route state }
    {
        self.states[route as usize] = state;
    }

    /// Whether the source of a route may be pulled.
    pub fn is_idle(&self, route: u32) -> bool
        requires { route < length self.now }
        ensures { option_map is_idle (slice_get self.now route) ≡ Some result }
    {
        self.states[route as usize] == SourceState::Idle
    }

    /// The first route whose source may be pulled.
    pub fn first_idle(&self) -> Option<usize>
        ensures { result ≡ position_from is_idle 0 self.now }
    {
        self.states
            .iter()
            .position(|state| *state == SourceState::Idle)
    }

    /// Whether every source has ended or failed.
    pub fn are_done(&self) -> bool
        ensures { result ≡ are_done self.now }
    {
        self.states.iter().all(|state| *state == SourceState::Done || *state == SourceState::Unused)
    }
}
