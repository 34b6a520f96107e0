// Whether a journal that was kept is a legal history of a route set.
#![tactic(auto)]

pub mod answers;
pub mod auditor;
pub mod dumped;
pub mod exchanges;
pub mod moments;
pub mod rest;
pub mod sources;
pub mod whole;

pub use dumped::audit_dump;
pub use eip_verdict::Verdict;
pub use whole::audit;
