// Tests of clauses, redelivery policies, batches, aggregation strategies, the parts of a message, lists of recipients, lists that
// are dealt out in turn, and the tables of what waits, through public calls.
#![tactic(auto)]

#[cfg(test)]
mod batches;
#[cfg(test)]
mod parts;
#[cfg(test)]
mod policies;
#[cfg(test)]
mod shares;
#[cfg(test)]
mod strategies;
#[cfg(test)]
mod tables;
