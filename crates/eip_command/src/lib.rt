// The words behind the program's name, and the line that tells a fault of the route file that they name.
#![tactic(auto)]

pub mod fault;
pub mod forms;
pub mod options;
pub mod words;

pub use fault::fault_line;
pub use forms::{Form, OptionRule, Rule};
pub use options::value_of;
pub use words::{Command, Path, TURN_LIMIT, WordsFault, read_words};
