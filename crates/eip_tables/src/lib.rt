// The tables that stand for a history: rows, rising numbers, sources, and what a row shows. They know no call of the books.
#![tactic(auto)]

pub mod aggregators;
pub mod around;
pub mod asking;
pub mod groups;
pub mod joins;
pub mod keys;
pub mod live;
pub mod notes;
pub mod origin;
pub mod parts;
pub mod places;
pub mod queues;
pub mod rising;
pub mod row;
pub mod sleepers;
pub mod sources;
pub mod stop;
pub mod table;
pub mod wanted;

pub use asking::{Asked, Inner};
pub use origin::OriginView;
pub use parts::Parent;
pub use rising::RisingNumbers;
pub use row::{Born, Newborn, Row, SourceState, Stage};
pub use sources::Sources;
pub use table::Table;
