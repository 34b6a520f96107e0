// Tests of the top call.
#![tactic(auto)]

#[cfg(test)]
mod calls;
#[cfg(test)]
mod doors;
#[cfg(test)]
mod dumps;
#[cfg(test)]
mod errors;
#[cfg(test)]
mod given;
#[cfg(test)]
mod groups;
#[cfg(test)]
mod keys;
#[cfg(test)]
mod lines;
#[cfg(test)]
mod parts;
#[cfg(test)]
mod processors;
#[cfg(test)]
mod runs;
#[cfg(test)]
mod sizes;
#[cfg(test)]
mod tries;
#[cfg(test)]
mod wanting;
#[cfg(test)]
mod workers;

// What is run are the tests; the program itself does nothing.
fn main(_rt: HostRuntime) {}
