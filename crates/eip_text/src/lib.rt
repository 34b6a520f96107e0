// Texts and lists as the engine keeps them, JSON trees, and how texts are shown.
#![tactic(auto)]

pub mod boxed;
pub mod counts;
pub mod cuts;
pub mod escapes;
pub mod json_printer;
pub mod json_reader;
pub mod memory;
pub mod names;
pub mod numbers;
pub mod series;
pub mod split;
pub mod text;
pub mod tree;

pub use boxed::Boxed;
pub use counts::read_count;
pub use escapes::{escape, push_escaped, push_quoted, quote};
pub use json_printer::print_json;
pub use json_reader::{JsonFault, read_json};
pub use memory::NoMemory;
pub use names::{is_name, same_name};
pub use numbers::{decimal, read_i64, signed_decimal};
pub use series::Series;
pub use split::split_by;
pub use text::{Text, TextFault};
pub use tree::Tree;
