use crate::queue::Queue;
use eip_exchange::{Ended, Fault, Message};
use eip_frames::{Request, Seed};
use eip_text::{Boxed, Series};

/// How far one try of a step is: what its request was for.
#[derive(Drop)]
pub enum Progress {
    /// The only request of the step.
    First,
    /// The check of the case at this index.
    Choosing(usize),
    /// All parts are asked for.
    SpawningAll,
    /// They are waited for.
    JoiningAll,
    /// The part at this index is asked for; those before have ended, and these are left behind it.
    Spawning {
        index: u32,
        ended: Series<Ended>,
        left: Queue<Seed>,
    },
    /// It is waited for.
    Joining {
        index: u32,
        ended: Series<Ended>,
        left: Queue<Seed>,
    },
    /// Of a doTry: the block (0), a catch (1) or the last block (2) is asked for, with this fault pending.
    Entering {
        part: u32,
        pending: Option<Fault>,
    },
    /// It is waited for.
    Leaving {
        part: u32,
        pending: Option<Fault>,
    },
    /// Of a doTry: the check of the catch at this index, about the message of the block, which failed so.
    Testing {
        index: usize,
        fault: Fault,
        latest: Message,
    },
}

/// What a try has asked, with parts from this index on.
#[derive(Drop)]
pub struct Asking {
    pub progress: Progress,
    pub request: Request,
    pub index: u32,
}

/// What one try of a step gives, at first or behind an answer. The definitions speak of it; the code has its two parts, an effect and
/// the message.
#[derive(Drop)]
pub enum Tried {
    /// It goes on with this message.
    Goes(Message),
    /// It faults on this message; the flag says that the step may be tried again.
    Faults(Fault, bool, Message),
    /// It asks, and keeps this message.
    Asks(Boxed<Asking>, Message),
    /// A nested block runs on this message.
    Enters(u32, Message),
    /// The block of a called route runs on this message.
    Calls(u32, Message),
}
