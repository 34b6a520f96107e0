// Tests of route files (their first fault, the set that they say, their canonical text) and of sets made by hand.
#![tactic(auto)]

#[cfg(test)]
mod builds;
#[cfg(test)]
mod faults;
#[cfg(test)]
mod printed;
#[cfg(test)]
mod printed_sets;
#[cfg(test)]
mod read_again;
#[cfg(test)]
mod sets;
#[cfg(test)]
mod support;
