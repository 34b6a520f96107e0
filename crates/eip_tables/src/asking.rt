ghost use Rattle.std.specs.Prelude.{◌≡◌, ℕ, Some};
ghost use Rattle.eip_frames.specs.declared.request.Request.{Request as ARequest};
ghost use Rattle.eip_tables.specs.Asking.{asked_kind};

use crate::row::Row;
use eip_frames::{Request, is_outside};

/// What kind of answer an exchange waits for.
#[derive(Clone, Copy, Debug, PartialEq, Eq)]
pub enum Asked {
    /// A line of the log is to be written.
    Line,
    /// The block of a route is to run.
    Route,
    /// A copy is to be put into a queue.
    Copy,
    /// Parts are to be born.
    Parts,
    /// The ends of its parts are to be told.
    Ends,
    /// A group is to be joined.
    Group,
    /// A key is offered.
    Key,
    /// A moment is to come.
    Moment,
    /// It is to end.
    End,
    /// Somebody outside is to answer.
    Outside,
    /// There is no request.
    Unknown,
}

/// What came of a look at an exchange: its answer was made, or it waits for somebody outside.
#[derive(Clone, Copy, Debug, PartialEq, Eq)]
pub enum Inner {
    Did,
    Outside,
}

fn kind_of(request: &Request) -> Asked
    ensures { result ≡ asked_kind request.now }
{
    if is_outside(request) {
        return Asked::Outside;
    }
    match request {
        Request::Log { .. } => Asked::Line,
        Request::Call { .. } => Asked::Route,
        Request::Offer { .. } => Asked::Copy,
        Request::Spawn { .. } => Asked::Parts,
        Request::Join { .. } => Asked::Ends,
        Request::Arrive { .. } => Asked::Group,
        Request::Idem { .. } => Asked::Key,
        Request::Wait { .. } => Asked::Moment,
        Request::Finish { .. } => Asked::End,
        _ => Asked::Outside,
    }
}

/// The kind of what an exchange asks, where it asks.
pub fn asked_of(row: &Row) -> Asked
    ensures { (q : ARequest) → row.now.request ≡ Some q → result ≡ asked_kind q }
{
    match row.request() {
        Some(request) => kind_of(request),
        None => Asked::Unknown,
    }
}
