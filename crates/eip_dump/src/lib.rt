// Journals written and read as text.
#![tactic(auto)]

mod answer_printer;
mod answer_reader;
pub mod dump_printer;
pub mod dump_reader;
pub mod entry_printer;
pub mod entry_reader;
pub mod fault;
pub mod first_line;
pub mod laws;
mod message_printer;
mod message_reader;
mod number_reader;
mod text_reader;

pub use dump_printer::dump;
pub use dump_reader::{first_limits, migrate, next_entry, read_dump};
pub use entry_printer::print_entry;
pub use entry_reader::read_entry;
pub use fault::DumpFault;
pub use first_line::First;
pub use laws::dump_laws;
