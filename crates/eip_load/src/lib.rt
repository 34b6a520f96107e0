// The load test that is built in: the items that its source generates, and the routes that they go through.
#![tactic(auto)]

pub mod generator;
pub mod routes;
pub mod source;

pub use generator::Generator;
pub use routes::load_routes;
pub use source::LoadSource;
