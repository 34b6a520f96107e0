// How far an exchange is on its way through a route, as data, and what is left of its meaning. There is no code but to read it.
#![tactic(auto)]

mod cursor;
mod frame;
mod queue;
mod tried;

pub use cursor::{Cursor, Next, State};
pub use frame::{Frame, Now, Task, Wait};
pub use queue::Queue;
pub use tried::{Asking, Progress, Tried};
