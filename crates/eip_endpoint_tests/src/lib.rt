// Tests of the outside, through public calls: its forms in memory, files, lines, peers, the built-in load, and the program's host.
#![tactic(auto)]

#[cfg(test)]
mod file_calls;
#[cfg(test)]
mod files;
#[cfg(test)]
mod folders;
#[cfg(test)]
mod given;
#[cfg(test)]
mod host;
#[cfg(test)]
mod lines;
#[cfg(test)]
mod load;
#[cfg(test)]
mod memory_forms;
#[cfg(test)]
mod peers;
#[cfg(test)]
mod pulls;
