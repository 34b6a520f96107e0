// Tests of the engine: the cursor, the hub, the drain, the texts of the book, and the turnstile that workers go through.
#![tactic(auto)]

#[cfg(test)]
mod books;
#[cfg(test)]
mod cursor;
#[cfg(test)]
mod drains;
#[cfg(test)]
mod hubs;
#[cfg(test)]
mod sizes;
#[cfg(test)]
mod support;
#[cfg(test)]
mod turnstile;

// What is run are the tests; the program itself does nothing.
fn main(_rt: HostRuntime) {}
