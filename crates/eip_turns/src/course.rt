ghost use Rattle.std.specs.Prelude.{◌≡◌};
ghost use Rattle.eip_turns.specs.Courses.{state_of, IsLast};

use eip_exchange::{End, Fault, Message};
use eip_meaning::Context;
use eip_progress::{Asking, State, Task, Wait};
use eip_text::Boxed;

/// What is to be done next with a message, which lies in its place.
#[derive(Drop)]
pub enum Course {
    /// It goes on, behind the frames.
    Goes,
    /// The exchange ends.
    Stops(End),
    /// A try has asked this, and so many may follow.
    Asks {
        context: Context,
        task: Task,
        left: u32,
        asking: Boxed<Asking>,
    },
    /// The delay before the next try.
    Sleeps {
        context: Context,
        task: Task,
        left: u32,
        ticks: u64,
    },
    /// A block runs.
    Enters {
        context: Context,
        block: u32,
    },
    /// A clause's steps run, where it has some.
    Handles {
        handled: bool,
        continued: bool,
        fault: Boxed<Fault>,
        context: Context,
        block: Option<u32>,
    },
    /// The message is sent to the dead letter endpoint.
    Letters {
        context: Context,
    },
}

/// The state in which an exchange stands whose turns are done.
pub fn into_state(course: Course, message: Message) -> State
    requires { IsLast course }
    ensures { result ≡ state_of course message }
{
    match course {
        Course::Stops(end) => State::Finishing(end, message),
        Course::Asks {
            context,
            task,
            left,
            asking,
        } => State::Runs(Wait::Trying {
            context,
            task,
            left,
            message,
            asking,
        }),
        Course::Sleeps {
            context,
            task,
            left,
            ticks,
        } => State::Runs(Wait::Sleeping {
            context,
            task,
            left,
            ticks,
            message,
        }),
        Course::Goes | Course::Enters { .. } | Course::Handles { .. } | Course::Letters { .. } =>
            unreachable!(),
    }
}
