// Tests of texts, messages, URIs, Simple, processors and the words of a command, through public calls.
#![tactic(auto)]

#[cfg(test)]
mod commands;
#[cfg(test)]
mod messages;
#[cfg(test)]
mod registry;
#[cfg(test)]
mod samples;
#[cfg(test)]
mod simple;
#[cfg(test)]
mod sizes;
#[cfg(test)]
mod texts;
#[cfg(test)]
mod uris;
