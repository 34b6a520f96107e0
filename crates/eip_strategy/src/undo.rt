// How a message that took a new one in is made as it was before.
ghost use Rattle.std.specs.Prelude.{◌≡◌};
ghost use Rattle.eip_strategy.specs.Undoing.{CanUndo, undone};

use eip_exchange::Message;
use eip_text::Text;

/// How a message was before it took a new one in where it stands.
#[derive(Drop)]
pub enum Undo {
    /// Its body had this many bytes; they still stand at the start.
    Cut(usize),
    /// Its body was a JSON list with this many bytes in front of the closing bracket; they still stand at the start.
    Reclose(usize),
    /// It had this body.
    Body(Text),
    /// It was this message.
    Whole(Message),
}

impl Undo {
    /// Makes the message as it was before. It takes no memory.
    pub fn apply(self, message: &mut Message)
        requires { CanUndo self message.old.body }
        ensures { message.new ≡ undone self message.old }
    {
        match self {
            Undo::Cut(end) => message.body.end_with(end, ""),
            Undo::Reclose(end) => message.body.end_with(end, "]"),
            Undo::Body(body) => message.body = body,
            Undo::Whole(old) => *message = old,
        }
    }
}
