// What is always true of a legal journal, as contracts of functions that do nothing.
#![tactic(auto)]

mod laws;

pub use laws::{
    answering_law, arrivals_law, closing_law, ending_law, folding_law, held_law, holder_law,
    key_law, owner_law, progress_law, size_law, totals_law, waiting_law,
};
