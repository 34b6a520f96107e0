// The texts of a run: its log, its book and the book's summary.
#![tactic(auto)]

mod book;
mod counts;
mod lines;
mod log;
mod names;

pub use book::{book_text, push_book, summary_text};
pub use counts::{Summary, totals};
pub use log::{log_text, push_log};
