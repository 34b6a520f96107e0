ghost use Rattle.std.specs.Prelude.{◌≡◌, None, Some, IfOk, IfNone, OnErr, MatchOption};
ghost use Rattle.eip_tables.specs.Row.{kept_birth, kept_cursor, kept_request, kept_fault, WasKept};
ghost use Rattle.eip_tables.specs.Moves.{end_asked, starved_end};

use eip_exchange::{Birth, End, Ended, Fault};
use eip_frames::Request;
use eip_progress::Cursor;
use eip_text::{Boxed, NoMemory};
use std::alloc::Global;
use std::mem;

/// What an exchange has while it lives, in one allocation.
#[derive(Drop)]
pub struct Live {
    /// What a copy, a part or a closed group's exchange was born as; an item's birth is read from the journal.
    pub birth: Option<Birth>,
    /// Its cursor, from the first look on.
    pub cursor: Option<Cursor>,
    /// What it asks, while it asks.
    pub request: Option<Request>,
    /// What a part would fail with if it were starved.
    pub fault: Option<Fault>,
}

/// What a row keeps of its exchange beside how far it is.
#[derive(Drop)]
pub enum Kept {
    /// Nothing: it is an item that nobody has looked at, or it has ended and not failed.
    Nothing,
    /// What it has while it lives.
    Live(Boxed<Live>),
    /// What it failed with.
    Failed(Boxed<Option<Fault>>),
}

/// Room for what an exchange has while it lives.
#[derive(Drop)]
pub struct Room {
    pub live: Boxed<Live>,
    /// Whether the exchange has this already. Else it is the room of one that has ended, of which a cursor and a request may be left:
    /// they are dropped when others take their places.
    pub is_own: bool,
}

/// The end of a part that is starved, by its birth and its fault.
fn starved_end(birth: Option<Birth>, fault: Option<Fault>) -> Option<Ended>
    ensures { result ≡ starved_end birth fault }
{
    let Birth { message, .. } = birth?;
    let fault = fault?;
    Some(Ended {
        end: End::Failed(fault),
        message,
    })
}

/// Drops what stands in a place. Where nothing does, the place is left alone, since to write a `None` fills all of it.
fn clear<T: Drop>(place: &mut Option<T>)
    ensures { place.new ≡ None }
{
    if place.is_some() {
        *place = None;
    }
}

impl Live {
    /// An exchange of which nothing is known, in an allocation of its own: the room for one that is to be born.
    pub fn room(alloc: Global) -> Result<Boxed<Live>, NoMemory> {
        Boxed::of(
            alloc,
            Live {
                birth: None,
                cursor: None,
                request: None,
                fault: None,
            },
        )
    }

    /// It is a newborn that is told this of its birth. What it had is dropped.
    fn tell(&mut self, birth: Option<Birth>, fault: Option<Fault>)
        ensures { self.new ≡ record { birth = birth; cursor = None; request = None; fault = fault } }
    {
        self.forget();
        self.birth = birth;
        self.fault = fault;
    }

    /// Nothing is known of it. What it had is dropped.
    fn forget(&mut self)
        ensures { self.new ≡ record { birth = None; cursor = None; request = None; fault = None } }
    {
        clear(&mut self.birth);
        clear(&mut self.cursor);
        clear(&mut self.request);
        clear(&mut self.fault);
    }

    /// Nothing is known of its birth, nor of a fault.
    fn forget_birth(&mut self)
        ensures { self.new ≡ record self.old { birth = None; fault = None } }
    {
        clear(&mut self.birth);
        clear(&mut self.fault);
    }

    /// What it asks is handed out.
    pub fn take_request(&mut self) -> Option<Request>
        ensures live { self.new ≡ record self.old { request = None } }
        ensures request { result ≡ self.old.request }
    {
        self.request.take()
    }

    /// The end that it asks for, handed out; any other request is dropped.
    pub(crate) fn take_end(&mut self) -> Option<End>
        ensures end { result ≡ end_asked self.old.request }
        ensures none { IfNone result (self.new ≡ record self.old { request = None }) }
    {
        match &mut self.request {
            Some(Request::Finish { end, .. }) => Some(mem::replace(end, End::Completed)),
            _ => {
                clear(&mut self.request);
                None
            }
        }
    }

    /// The end that it has if it is starved, where it is a part, with the message that it was born with.
    fn starved(&mut self) -> Option<Ended>
        ensures { result ≡ starved_end self.old.birth self.old.fault }
    {
        let birth = self.birth.take();
        let fault = self.fault.take();
        starved_end(birth, fault)
    }
}

impl Kept {
    /// What is kept of a newborn: what it was born as, in this room.
    pub fn born(mut room: Boxed<Live>, birth: Option<Birth>, fault: Option<Fault>) -> Kept
        ensures birth { kept_birth result ≡ birth }
        ensures cursor { kept_cursor result ≡ None }
        ensures request { kept_request result ≡ None }
        ensures fault { kept_fault result ≡ fault }
    {
        room.get_mut().tell(birth, fault);
        Kept::Live(room)
    }

    /// What was kept of its birth.
    pub fn birth(&self) -> Option<&Birth>
        ensures { MatchOption result (kept_birth self.now ≡ None) (λ b. kept_birth self.now ≡ Some b.now) }
    {
        match self {
            Kept::Live(live) => live.get().birth.as_ref(),
            Kept::Nothing | Kept::Failed(_) => None,
        }
    }

    /// Its cursor, where it was looked at and has not ended.
    pub fn cursor(&self) -> Option<&Cursor>
        ensures { MatchOption result (kept_cursor self.now ≡ None) (λ c. kept_cursor self.now ≡ Some c.now) }
    {
        match self {
            Kept::Live(live) => live.get().cursor.as_ref(),
            Kept::Nothing | Kept::Failed(_) => None,
        }
    }

    /// What it asks.
    pub fn request(&self) -> Option<&Request>
        ensures { MatchOption result (kept_request self.now ≡ None) (λ q. kept_request self.now ≡ Some q.now) }
    {
        match self {
            Kept::Live(live) => live.get().request.as_ref(),
            Kept::Nothing | Kept::Failed(_) => None,
        }
    }

    /// What it failed with, or would fail with.
    pub fn fault(&self) -> Option<&Fault>
        ensures { MatchOption result (kept_fault self.now ≡ None) (λ f. kept_fault self.now ≡ Some f.now) }
    {
        match self {
            Kept::Live(live) => live.get().fault.as_ref(),
            Kept::Failed(fault) => fault.get().as_ref(),
            Kept::Nothing => None,
        }
    }

    /// What it has while it lives, taken out to be put back; where it has nothing yet, room for that. On `NoMemory` all is as before.
    pub fn take_room(
        &mut self,
        alloc: Global,
        vacant: &mut Option<Boxed<Live>>,
    ) -> Result<Room, NoMemory>
        ensures birth { IfOk result (λ r. r.live.birth ≡ kept_birth self.old) }
        ensures fault { IfOk result (λ r. r.live.fault ≡ kept_fault self.old) }
        ensures old { IfOk result (λ r. WasKept r.is_own r.live self.old self.new) }
        ensures err { OnErr result (self.new ≡ self.old) }
    {
        match mem::replace(self, Kept::Nothing) {
            Kept::Live(live) => Ok(Room { live, is_own: true }),
            Kept::Nothing => {
                let mut live = room_for(alloc, vacant)?;
                live.get_mut().forget_birth();
                Ok(Room {
                    live,
                    is_own: false,
                })
            }
            Kept::Failed(mut fault) => match room_for(alloc, vacant) {
                Ok(mut live) => {
                    live.get_mut().tell(None, fault.replace(None));
                    Ok(Room { live, is_own: true })
                }
                Err(NoMemory) => {
                    *self = Kept::Failed(fault);
                    Err(NoMemory)
                }
            },
        }
    }

    /// What it asks is handed out.
    pub fn take_request(&mut self) -> Option<Request>
        ensures birth { kept_birth self.new ≡ kept_birth self.old }
        ensures cursor { kept_cursor self.new ≡ kept_cursor self.old }
        ensures none { kept_request self.new ≡ None }
        ensures fault { kept_fault self.new ≡ kept_fault self.old }
        ensures request { result ≡ kept_request self.old }
    {
        if let Kept::Live(live) = self {
            return live.get_mut().take_request();
        }
        None
    }

    /// The end that an exchange has if it is starved, where it is a part, with the message that it was born with. It takes no
    /// memory.
    pub fn starved(self) -> Option<Ended>
        ensures { result ≡ starved_end (kept_birth self) (kept_fault self) }
    {
        match self {
            Kept::Live(mut live) => live.get_mut().starved(),
            Kept::Nothing | Kept::Failed(_) => None,
        }
    }
}

/// The room that is vacant, or else a new one. What stands in it is dropped when it is told of an exchange.
pub(crate) fn room_for(
    alloc: Global,
    vacant: &mut Option<Boxed<Live>>,
) -> Result<Boxed<Live>, NoMemory> {
    match vacant.take() {
        Some(room) => Ok(room),
        None => Live::room(alloc),
    }
}

/// What is kept of an exchange that has ended and did not fail: nothing. Its room is the vacant one from now on, as it stands.
pub fn left_vacant(vacant: &mut Option<Boxed<Live>>, live: Boxed<Live>) -> Kept
    ensures { result ≡ Kept.Nothing }
{
    *vacant = Some(live);
    Kept::Nothing
}

/// What is kept of an exchange that has failed: its fault alone, or where there is no memory for it apart, in the place of what the
/// exchange had.
pub fn left_failed(alloc: Global, mut live: Boxed<Live>, fault: Fault) -> Kept
    ensures birth { kept_birth result ≡ None }
    ensures cursor { kept_cursor result ≡ None }
    ensures request { kept_request result ≡ None }
    ensures fault { kept_fault result ≡ Some fault }
{
    match Boxed::of(alloc, None) {
        Ok(mut room) => {
            drop(room.replace(Some(fault)));
            Kept::Failed(room)
        }
        Err(NoMemory) => {
            live.get_mut().tell(None, Some(fault));
            Kept::Live(live)
        }
    }
}
