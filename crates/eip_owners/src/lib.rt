// What a journal says of its workers: which part of it each of them made, and that a lane or an inlet of a worker did what that part says.
#![tactic(auto)]

mod laws;

pub use laws::{
    answers_law, calls_law, commits_law, hand_law, home_law, inlets_law, lanes_law,
    owned_calls_law, owned_commits_law, owned_more_law, part_grows_law, part_stays_law, parts_law,
    pull_law, pullers_law, sources_law,
};
