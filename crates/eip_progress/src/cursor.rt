ghost use Rattle.std.specs.Prelude.{◌≡◌};
ghost use Rattle.eip_progress.specs.Rest.{asked_at, state_place, wait_place};

use crate::frame::{Frame, Wait};
use eip_exchange::{End, Message, Origin, Work};
use eip_frames::{At, Request};
use eip_meaning::Context;
use eip_text::Boxed;
use eip_uri::Uri;

/// What comes next of an exchange.
#[derive(Drop)]
pub enum Next {
    /// It asks this, and goes on by an answer that fits.
    Asks(Request),
    /// It has ended with this message.
    Ended(End, Message),
}

/// Where a cursor stands between two calls.
#[derive(Drop)]
pub enum State {
    /// Nothing has been asked.
    Starting(Work, Message),
    /// A step waits for an answer.
    Runs(Wait),
    /// The end has been asked for.
    Finishing(End, Message),
    /// It has ended.
    Over(End, Message),
}

/// One exchange on its way through a route, from one request to the next.
pub struct Cursor {
    /// That of the steps which the exchange was born with.
    pub context: Context,
    pub commit: bool,
    pub origin: Origin,
    /// The endpoint of a send that is the whole work, once it has been read.
    pub whole: Option<Boxed<Uri>>,
    /// What comes behind the part that runs, the outermost first.
    pub stack: Vec<Frame>,
    pub state: State,
}

impl Drop for Cursor {
    fn drop(self) {
        let Cursor {
            context,
            commit: _,
            origin,
            whole,
            stack,
            state,
        } = self;
        drop(context);
        drop(origin);
        drop(whole);
        drop(stack);
        drop(state);
    }
}

impl Cursor {
    /// The place of the last request.
    #[tactic(auto, unfolding(crate::specs::Rest::asked_at))]
    pub fn at(&self) -> At
        ensures { result ≡ asked_at self.now }
    {
        place_in(self.context, &self.state)
    }
}

fn place_in(context: Context, state: &State) -> At
    ensures { result ≡ state_place context state.now }
{
    match state {
        State::Runs(wait) => wait_place(wait),
        State::Starting(..) | State::Finishing(..) | State::Over(..) => context.place(0),
    }
}

fn wait_place(wait: &Wait) -> At
    ensures { result ≡ wait_place wait.now }
{
    match wait {
        Wait::Trying {
            context,
            asking,
            ..
        } => context.place(asking.get().index),
        Wait::Sleeping { context, .. } => context.place(0),
    }
}
