ghost use Rattle.std.specs.Prelude.{◌≡◌, ◌<◌, ◌+◌, ℕ, List, [], ◌∷◌, length, map, MatchOption, IfOk, OnOk, IfErr, OnErr, IsSome, Some, None};
ghost use Rattle.std.specs.List.{list_any, slice_get};
ghost use Rattle.std.specs.List.Sorted.{IsStrictlySortedBy};
ghost use Rattle.std.specs.Ordering.{nat_cmp};
ghost use Rattle.eip_strategy.specs.Adding.{IsReady};
ghost use Rattle.eip_aggregator.specs.Arrivals.{Call, Came, Ticked, Forced, Settings, Group, cause_at, is_at_most};
ghost use Rattle.eip_ordered.specs.Numbered.{value_at};
ghost use Rattle.eip_aggregator.specs.Tables.{Stands, IsSetSo, IsFree, IsOf, IsFirstDue, closed_as, count_in, message_in, GoesOn, IsRefused, Settles, Answers, AreAsMany, Shows, ShowsBehind, AreClosed, is_forced};
ghost use Rattle.eip_frames.specs.declared.answer.Completion.TheVariants as by;

use crate::closed::{ArriveFault, Arrived, Closed, OpenGroup};
use crate::closing::close_all;
use crate::group::{KeptGroup, first};
use crate::key::GroupKey;
use crate::places::Places;
use eip_exchange::Message;
use eip_frames::Completion;
use eip_route::Aggregate;
use eip_text::{NoMemory, Text};
use std::alloc::Global;
use std::marker::Model;

/// The open groups of aggregators (Hohpe and Woolf, *Aggregator*; Camel manual, *Aggregate EIP*). It stands for the list of
/// its calls.
pub struct Groups {
    alloc: Global,
    // How many groups have begun.
    begun: u64,
    places: Places,
}

impl Drop for Groups {
    fn drop(self) {
        let Groups {
            alloc: _,
            begun: _,
            places,
        } = self;
        drop(places);
    }
}

impl Model for Groups {
    ghost use Rattle.eip_aggregator.specs.Tables.{Table};

    ghost Value = { Table };

    ghost view = { λ g. record { begun = g.begun; open_groups = g.places } };
}

impl Groups {
    /// No group has begun. It takes no memory.
    pub fn new(alloc: Global) -> Groups
        ensures { (s : Settings) → Stands s [] result }
    {
        Groups {
            alloc,
            begun: 0,
            places: Places::new(alloc),
        }
    }

    /// An exchange comes to an aggregator: its message joins the open group of this key, or begins one, and may close it.
    /// `number` is the exchange's, `hops` its hops, `route` the id of the route whose block runs, and `tick` the moment.
    /// `Unfit` exactly where the aggregator's strategy can't add the message; then it joins no group.
    pub fn arrive(
        &mut self,
        setting: &Aggregate,
        key: &Text,
        part: &Message,
        hops: u32,
        number: u64,
        route: &Text,
        tick: u64,
    ) -> Result<Arrived, ArriveFault>
        requires { IsSetSo setting.now self.old }
        ensures answer { (s : Settings) (calls : List Call) → Stands s calls self.old → s setting.now.block ≡ setting.now → Answers s calls (setting.now.block, key.now) (record { number = number; route = route.now; hops = hops; at = tick; message = part.now }) result }
        ensures ok { OnOk result ((s : Settings) (calls : List Call) → Stands s calls self.old → s setting.now.block ≡ setting.now → Stands s (Came (setting.now.block, key.now) (record { number = number; route = route.now; hops = hops; at = tick; message = part.now }) ∷ calls) self.new) }
        ensures err { OnErr result (self.new ≡ self.old) }
    {
        let key = GroupKey::of(setting.block, key)?;
        match self.places.find(&key) {
            None => {
                let group = first(self.alloc, setting, &key, part, hops, tick)?;
                self.begin(setting, group, number, route)
            }
            Some(place) => self.go_on(setting, place, part, hops, number, route, tick),
        }
    }

    /// An arrival begins a group, which it may close at once.
    #[tactic(auto, using(crate::proofs::Settling::settles_closed, crate::proofs::Settling::settles_open, crate::proofs::Settling::puts_none))]
    fn begin(
        &mut self,
        setting: &Aggregate,
        group: KeptGroup,
        number: u64,
        route: &Text,
    ) -> Result<Arrived, ArriveFault>
        requires few { self.old.begun < 18446744073709551615 }
        requires unused { value_at self.old.open_groups (self.old.begun + 1) ≡ None }
        requires free { IsFree self.old.open_groups group.key }
        ensures ok { OnOk result (self.new.begun ≡ self.old.begun + 1) }
        ensures settles { Settles self.old.open_groups self.new.open_groups (self.old.begun + 1) group (cause_at setting.now group.message group.count number route.now) result }
        ensures err { OnErr result (self.new ≡ self.old) }
    {
        let place = self.begun + 1;
        match group.cause(self.alloc, setting, number, route)? {
            Some(cause) => {
                self.begun = place;
                Ok(closed_at(place, group, cause))
            }
            None => {
                self.places.open(place, group)?;
                self.begun = place;
                Ok(open_at(place))
            }
        }
    }

    /// An arrival goes on with a group, where it stands, and may close it.
    fn go_on(
        &mut self,
        setting: &Aggregate,
        place: u64,
        part: &Message,
        hops: u32,
        number: u64,
        route: &Text,
        tick: u64,
    ) -> Result<Arrived, ArriveFault>
        requires there { IsSome (value_at self.old.open_groups place) }
        requires ready { IsReady setting.now.strategy (message_in (value_at self.old.open_groups place)) }
        requires fits { count_in (value_at self.old.open_groups place) < 18446744073709551615 }
        ensures same { self.new.begun ≡ self.old.begun }
        ensures ok { IfOk result (λ r. GoesOn setting.now (record { number = number; route = route.now; hops = hops; at = tick; message = part.now }) place self.old.open_groups self.new.open_groups r) }
        ensures fault { IfErr result (λ e. IsRefused setting.now part.now hops tick (value_at self.old.open_groups place) e) }
        ensures err { OnErr result (self.new ≡ self.old) }
    {
        let places = &mut self.places;
        match places.grow(self.alloc, setting, place, part, hops, number, route, tick)? {
            Some(cause) => match self.places.close(place) {
                Some(group) => Ok(closed_at(place, group, cause)),
                None => unreachable!(),
            },
            None => Ok(open_at(place)),
        }
    }

    /// How many groups are open. It takes no memory.
    pub fn open_groups(&self) -> usize
        ensures as_many { (s : Settings) (calls : List Call) → Stands s calls self.now → AreAsMany s calls result }
        ensures len { result ≡ length self.now.open_groups }
        ensures rising { IsStrictlySortedBy nat_cmp (map (λ (e : ℕ × Group). e.0) self.now.open_groups) }
    {
        self.places.len()
    }

    /// The first moment at which an open group is due; none exactly where no open group has a timeout. It takes no memory.
    pub fn due(&self) -> Option<u64>
        ensures { (s : Settings) (calls : List Call) → Stands s calls self.now → IsFirstDue s calls result }
    {
        self.places.due()
    }

    /// The first open group whose number is greater than this one; None exactly where no open group has a greater number. So
    /// all are shown in the order of their numbers, from 0 and then from the last one shown. It takes no memory.
    pub fn open_group(&self, behind: u64) -> Option<OpenGroup<'_>>
        ensures { (s : Settings) (calls : List Call) → Stands s calls self.now → ShowsBehind s calls behind result }
    {
        match self.places.next_behind(behind) {
            None => None,
            Some((number, group)) => Some(OpenGroup {
                number,
                size: group.count(),
                key: group.key().text(),
                force: group.is_forced(),
            }),
        }
    }

    /// Whether an open group may be forced to close. It takes no memory.
    pub fn may_force(&self) -> bool
        ensures { result ≡ list_any is_forced self.now.open_groups }
    {
        self.places.any_forced()
    }

    /// The open group with this index from 0, by the groups' numbers; None exactly beyond them. It takes no memory.
    pub fn open_group_at(&self, k: usize) -> Option<OpenGroup<'_>>
        ensures shown { MatchOption result (slice_get self.now.open_groups k ≡ None) (λ x. (e : ℕ × Group) × (slice_get self.now.open_groups k ≡ Some e) × Shows x e) }
        ensures rising { IsStrictlySortedBy nat_cmp (map (λ (e : ℕ × Group). e.0) self.now.open_groups) }
    {
        match self.places.at(k) {
            None => None,
            Some((number, group)) => Some(OpenGroup {
                number,
                size: group.count(),
                key: group.key().text(),
                force: group.is_forced(),
            }),
        }
    }

    /// Closes the groups that are due at this tick, in the order of their numbers.
    pub fn close_due(&mut self, tick: u64) -> Result<Vec<Closed>, NoMemory>
        ensures groups { (s : Settings) (calls : List Call) → Stands s calls self.old → IfOk result (λ closed. AreClosed s calls (λ g. is_at_most g.due tick) by.Timeout closed.items) }
        ensures ok { OnOk result ((s : Settings) (calls : List Call) → Stands s calls self.old → Stands s (Ticked tick ∷ calls) self.new) }
        ensures err { OnErr result (self.new ≡ self.old) }
    {
        let numbers = self.places.due_numbers(self.alloc, tick)?;
        let room = Vec::with_capacity(self.alloc, numbers.len())?;
        Ok(close_all(&mut self.places, numbers, room, Completion::Timeout))
    }

    /// Closes the groups that may be forced to, in the order of their numbers.
    pub fn close_forced(&mut self) -> Result<Vec<Closed>, NoMemory>
        ensures groups { (s : Settings) (calls : List Call) → Stands s calls self.old → IfOk result (λ closed. AreClosed s calls (λ g. g.force) by.Force closed.items) }
        ensures ok { OnOk result ((s : Settings) (calls : List Call) → Stands s calls self.old → Stands s (Forced ∷ calls) self.new) }
        ensures err { OnErr result (self.new ≡ self.old) }
    {
        let numbers = self.places.forced_numbers(self.alloc)?;
        let room = Vec::with_capacity(self.alloc, numbers.len())?;
        Ok(close_all(&mut self.places, numbers, room, Completion::Force))
    }
}

/// The group that an arrival closed.
fn closed_at(place: u64, group: KeptGroup, cause: Completion) -> Arrived
    ensures { result ≡ record { group = place; closed = Some (closed_as cause place group) } }
{
    Arrived {
        group: place,
        closed: Some(group.into_closed(place, cause)),
    }
}

/// The group that is still open behind an arrival.
fn open_at(place: u64) -> Arrived
    ensures { result ≡ record { group = place; closed = None } }
{
    Arrived {
        group: place,
        closed: None,
    }
}
