// Routes: their steps, blocks and sets.
#![tactic(auto)]

pub mod fault;
pub mod goal;
mod nesting;
mod plain;
pub mod repository;
pub mod route;
pub mod step;

pub use fault::SetFault;
pub use goal::Goal;
pub use repository::own_repository;
pub use route::{Block, Handler, Names, Route, RouteSet};
pub use step::{Aggregate, Catch, Check, Expr, Fan, Step};
