// Tests of journals: written and read as text, refused, and audited, each rule by entries that break it.
#![tactic(auto)]

#[cfg(test)]
mod dumps;
#[cfg(test)]
mod entries;
#[cfg(test)]
mod legal;
#[cfg(test)]
mod routes;
#[cfg(test)]
mod support;
#[cfg(test)]
mod wrong;
