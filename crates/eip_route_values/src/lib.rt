// What the objects of a route file say: texts, numbers, expressions, policies and the steps that nest
// no others.
#![tactic(auto)]

pub mod built;
pub mod leaves;
pub mod parts;
pub mod places;
pub mod steps;
