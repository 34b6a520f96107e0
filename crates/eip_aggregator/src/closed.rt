use eip_exchange::Message;
use eip_frames::Completion;
use eip_strategy::StrategyFault;
use eip_text::{NoMemory, Text};
use thiserror::Error;

/// A group that was closed (Camel manual, *Aggregate EIP*, completion).
#[derive(Drop)]
pub struct Closed {
    /// The group's number, from 1.
    pub group: u64,
    /// The number of the block that it runs.
    pub block: u32,
    /// What closed it.
    pub cause: Completion,
    /// The greatest hops among its parts.
    pub hops: u32,
    /// What the strategy made of its parts, with `CamelAggregatedSize` and `CamelAggregatedCorrelationKey`.
    pub message: Message,
}

/// A group that is still open, as it is shown.
#[derive(Drop)]
pub struct OpenGroup<'a> {
    /// The group's number, from 1.
    pub number: u64,
    /// How many parts it has.
    pub size: u64,
    /// The value that its parts have in common.
    pub key: &'a Text,
    /// Whether it may be forced to close.
    pub force: bool,
}

/// Where an arrival went.
#[derive(Drop)]
pub struct Arrived {
    /// The number of its group, from 1.
    pub group: u64,
    /// The group, where the arrival closed it.
    pub closed: Option<Closed>,
}

/// Why an arrival joined no group.
#[derive(Clone, Copy, Debug, PartialEq, Eq, Error)]
pub enum ArriveFault {
    /// The aggregator's strategy can't add it.
    #[error("unfit: {0}")]
    Unfit(StrategyFault),
    #[error("out of memory")]
    NoMemory,
}

impl From<NoMemory> for ArriveFault {
    ghost use Rattle.std.specs.Prelude.{◌≡◌};
    ghost use Rattle.eip_aggregator.specs.declared.closed.ArriveFault.TheVariants.{NoMemory};

    ghost from_gives = { λ _ e. e ≡ NoMemory };

    fn from(_refused: NoMemory) -> ArriveFault {
        ArriveFault::NoMemory
    }
}
