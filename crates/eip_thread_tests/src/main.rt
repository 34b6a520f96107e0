// Tests with workers: what the top call prints and leaves, whatever the schedule, and workers by themselves.
#![tactic(auto)]

#[cfg(test)]
mod feed;
#[cfg(test)]
mod given;
#[cfg(test)]
mod loads;
#[cfg(test)]
mod parts;
#[cfg(test)]
mod signals;
#[cfg(test)]
mod unlocked;
#[cfg(test)]
mod workers;

// What is run are the tests; the program itself does nothing.
fn main(_rt: HostRuntime) {}
