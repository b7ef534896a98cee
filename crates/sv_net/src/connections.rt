//! The connections that are open.

ghost use Rattle.std.specs.Prelude.{◌≡◌, ◌-◌, ◌≤◌, ℕ, None, true, IfSome, is_none};
ghost use Rattle.sv_net.specs.Exchange.{AllContinue, GoOnWith, GoesOnThere};
ghost use Rattle.sv_net.specs.Sending.{links_of};
ghost use Rattle.sv_net.specs.Places.{places_of, count_of, elsewhere, held_at, with_at, naming_of, persistence_of, IsKept, Keeps, HasStood, ServesAlike};

use crate::links::Links;
use crate::open::Open;
use crate::persistence::Persistence;
use crate::queue::Queue;
use crate::socket::Socket;
use crate::state::State;
use mio::{Interest, Registry};
use std::alloc::{AllocFailed, Global};
use std::rt::Clock;
use std::time::Duration;
use sv_connection::Naming;
use sv_log::Report;

/// So many connections are open at once. After that one that has been silent for longest is closed for a new one.
pub(crate) const OPEN_LIMIT: usize = 1_000;

/// In thousandths of a second: so long a turn may take, a second of it to wait for somebody.
const MOST: u64 = 1_250;

/// The connections that are open, each at a place.
pub struct Connections {
    pub(crate) places: Vec<Option<Open>>,
    pub(crate) free: Vec<usize>,
    pub(crate) count: usize,
    pub(crate) registry: Registry,
    /// The clock that never goes back, when it was last looked at.
    pub(crate) clock: Duration,
    /// When it was last looked who has taken too long.
    pub(crate) looked: Duration,
    /// Where something is to be done that the poll may not report.
    pub(crate) due: Vec<usize>,
    /// Where the last packet is still being sent.
    pub(crate) calling: Option<usize>,
    pub(crate) links: Links,
    /// Greetings are taken; else they are no request.
    pub(crate) greets: bool,
    /// Where refusals name their cause.
    pub(crate) naming: Naming,
    /// What is told to the operator.
    pub report: Report,
    pub(crate) alloc: Global,
}

/// By hand, so that the proof of a caller has one step for it.
impl Drop for Connections {
    fn drop(self) {
        let Connections {
            places: _,
            free: _,
            count: _,
            registry: _,
            clock: _,
            looked: _,
            due: _,
            calling: _,
            links: _,
            greets: _,
            naming: _,
            report: _,
            alloc: _,
        } = self;
    }
}

/// The poll has told of whoever stands there.
fn was_told_there(slot: &mut Option<Open>, is_ended: bool)
    ensures { GoesOnThere slot.old slot.new }
{
    if let Some(open) = slot {
        open.socket.was_told(is_ended);
    }
}

/// Gives so much more time to whoever stands there.
fn forgive_there(slot: &mut Option<Open>, stood: Duration)
    ensures { GoesOnThere slot.old slot.new }
{
    if let Some(open) = slot {
        open.forgive(stood);
    }
}

impl Connections {
    pub fn new(registry: Registry, persistence: Persistence, alloc: Global) -> Connections
        ensures { persistence_of result ≡ persistence }
    {
        Connections {
            places: Vec::new(alloc),
            free: Vec::new(alloc),
            count: 0,
            registry,
            clock: Duration::ZERO,
            looked: Duration::ZERO,
            due: Vec::new(alloc),
            calling: None,
            links: Links::new(alloc, persistence),
            greets: false,
            naming: Naming::InBody,
            report: Report::none(),
            alloc,
        }
    }

    /// Has what happens told to the operator.
    pub fn report_by(&mut self, report: Report)
        ensures naming { naming_of self.new ≡ naming_of self.old }
        ensures persistence { persistence_of self.new ≡ persistence_of self.old }
        ensures places { places_of self.new ≡ places_of self.old }
        ensures count { count_of self.new ≡ count_of self.old }
        ensures greets { self.new.greets ≡ self.old.greets }
    {
        self.report = report;
    }

    /// Has refusals name their cause so.
    pub fn name_causes(&mut self, naming: Naming)
        ensures naming { naming_of self.new ≡ naming }
        ensures persistence { persistence_of self.new ≡ persistence_of self.old }
        ensures places { places_of self.new ≡ places_of self.old }
        ensures count { count_of self.new ≡ count_of self.old }
        ensures greets { self.new.greets ≡ self.old.greets }
    {
        self.naming = naming;
    }

    /// Has greetings taken.
    pub fn take_greetings(&mut self)
        ensures taken { self.new.greets ≡ true }
        ensures places { places_of self.new ≡ places_of self.old }
        ensures count { count_of self.new ≡ count_of self.old }
        ensures naming { naming_of self.new ≡ naming_of self.old }
        ensures persistence { persistence_of self.new ≡ persistence_of self.old }
    {
        self.greets = true;
    }

    /// How many connections are open.
    pub fn len(&self) -> usize {
        self.count
    }

    /// Nobody is here.
    pub fn is_empty(&self) -> bool {
        self.count == 0
    }

    /// As many connections are open as may be.
    pub(crate) fn is_full(&self) -> bool {
        self.count >= OPEN_LIMIT
    }

    /// The clock that never goes back, when it was last looked at.
    pub fn clock(&self) -> Duration {
        self.clock
    }

    /// Looks at the clock. While a turn stood still, as one does whose disk does, nobody was heard: what is more than a turn may take
    /// is nobody's delay.
    pub fn look_at_clock(&mut self, machine: &HostRuntime)
        ensures { AllContinue self.old self.new }
    {
        if let Ok(now) = machine.monotonic() {
            let stood = now.saturating_sub(self.clock.saturating_add(Duration::from_millis(MOST)));
            self.clock = now;
            if !stood.is_zero() {
                self.forgive(stood);
            }
        }
    }

    /// Gives everybody so much more time.
    fn forgive(&mut self, stood: Duration)
        ensures { AllContinue self.old self.new }
    {
        for place in 0..self.places.len() {
            self.forgive_at(place, stood);
        }
    }

    /// The same of one place.
    fn forgive_at(&mut self, place: usize, stood: Duration)
        ensures { AllContinue self.old self.new }
    {
        if place < self.places.len() {
            forgive_there(&mut self.places[place], stood);
        }
    }

    /// What stands at a place, which keeps the place.
    pub fn take(&mut self, place: usize) -> Option<Open>
        ensures taken { result ≡ held_at self.old place }
        ensures places { places_of self.new ≡ elsewhere place self.old }
        ensures count { count_of self.new ≡ count_of self.old }
        ensures others { elsewhere place self.new ≡ elsewhere place self.old }
        ensures links { links_of self.new ≡ links_of self.old }
        ensures alike { ServesAlike self.old self.new }
    {
        if place >= self.places.len() {
            return None;
        }
        self.places[place].take()
    }

    /// Puts a connection to its place.
    pub fn put(&mut self, place: usize, socket: Socket, state: State, begun: Duration)
        ensures places { places_of self.new ≡ with_at place (record { socket = socket; state = state; begun = begun; heard = self.old.clock }) self.old }
        ensures count { count_of self.new ≡ count_of self.old }
        ensures others { elsewhere place self.new ≡ elsewhere place self.old }
        ensures links { links_of self.new ≡ links_of self.old }
        ensures alike { ServesAlike self.old self.new }
    {
        let heard = self.clock;
        self.seat(
            place,
            Open {
                socket,
                state,
                begun,
                heard,
            },
        );
    }

    /// Sets a connection at its place.
    pub(crate) fn seat(&mut self, place: usize, open: Open)
        ensures places { places_of self.new ≡ with_at place «open» self.old }
        ensures count { count_of self.new ≡ count_of self.old }
        ensures others { elsewhere place self.new ≡ elsewhere place self.old }
        ensures links { links_of self.new ≡ links_of self.old }
        ensures alike { ServesAlike self.old self.new }
    {
        if place < self.places.len() {
            self.places[place] = Some(open);
        }
    }

    /// Puts a connection that begins a state to its place.
    pub fn begin(&mut self, place: usize, socket: Socket, state: State)
        ensures places { places_of self.new
            ≡ with_at place (record { socket = socket; state = state; begun = self.old.clock; heard = self.old.clock }) self.old }
        ensures count { count_of self.new ≡ count_of self.old }
        ensures others { elsewhere place self.new ≡ elsewhere place self.old }
        ensures links { links_of self.new ≡ links_of self.old }
        ensures alike { ServesAlike self.old self.new }
    {
        let begun = self.clock;
        self.put(place, socket, state, begun);
    }

    /// Puts a connection back as it was, and has the poll report it. Where that can't be, it is closed.
    pub fn keep(&mut self, place: usize, open: Open)
        ensures kept { Keeps place «open» self.old self.new }
        ensures others { elsewhere place self.new ≡ elsewhere place self.old }
        ensures links { links_of self.new ≡ links_of self.old }
        ensures alike { ServesAlike self.old self.new }
    {
        let mut open = open;
        if self.watch(place, &mut open) {
            self.seat(place, open);
        } else {
            self.leave(place);
        }
    }

    /// Has the poll report what the state of a connection waits for. False where it can't.
    fn watch(&self, place: usize, open: &mut Open) -> bool
        ensures { IsKept «open».old «open».new }
    {
        match open.state.interest() {
            Some(interest) => open.socket.watch(&self.registry, place, interest),
            None => true,
        }
    }

    /// What has come at a place already is to be gone on with, which no poll reports.
    fn has_come(&self, place: usize) -> bool {
        match self.places.get(place) {
            Some(Some(open)) => open.state.has_come(),
            _ => false,
        }
    }

    /// The poll has told of a place; whether the other end sends no more.
    pub(crate) fn was_told(&mut self, place: usize, is_ended: bool)
        ensures { AllContinue self.old self.new }
    {
        if place < self.places.len() {
            was_told_there(&mut self.places[place], is_ended);
        }
    }

    /// Has the poll report once more what comes at a place.
    fn watch_anew(&mut self, place: usize)
        ensures stood { HasStood place self.old self.new }
        ensures others { elsewhere place self.new ≡ elsewhere place self.old }
    {
        if let Some(mut open) = self.take(place) {
            let _ = open
                .socket
                .watch_anew(&self.registry, place, Interest::READABLE);
            self.seat(place, open);
        }
    }

    /// Has a connection gone on with again, of which more may be there.
    pub fn call_again(&mut self, place: usize)
        ensures stood { HasStood place self.old self.new }
        ensures others { elsewhere place self.new ≡ elsewhere place self.old }
    {
        if self.has_come(place) {
            self.put_down(place);
        } else {
            self.watch_anew(place);
        }
    }

    /// Puts a place down as one where something is to be done. Where there is no memory for it the connection is closed.
    pub(crate) fn put_down(&mut self, place: usize)
        ensures stood { HasStood place self.old self.new }
        ensures others { elsewhere place self.new ≡ elsewhere place self.old }
    {
        let put: Result<(), AllocFailed<usize>> = self.due.push(place);
        if put.is_err() {
            let _closed = self.take(place);
            self.leave(place);
        }
    }

    /// Queues the places where something is to be done that the poll may not report.
    pub(crate) fn queue_due(&mut self, queue: &mut Queue)
        ensures { places_of self.new ≡ places_of self.old }
    {
        for place in &self.due {
            queue.add(*place);
        }
        self.due.clear();
    }

    /// When that began which a connection now brings: for one that has rested it is what comes next.
    pub(crate) fn since(&self, state: &State, begun: Duration) -> Duration {
        if state.is_between() {
            self.clock
        } else {
            begun
        }
    }

    /// A node is at a place, whose packets were taken.
    pub fn is_peer(&self, place: usize) -> bool {
        match self.places.get(place) {
            Some(Some(open)) => open.state.is_peer(),
            _ => false,
        }
    }

    /// Gives a place up whose connection was taken.
    pub fn leave(&mut self, place: usize)
        ensures places { places_of self.new ≡ places_of self.old }
        ensures count { count_of self.new ≡ count_of self.old - 1 }
        ensures links { links_of self.new ≡ links_of self.old }
        ensures alike { ServesAlike self.old self.new }
    {
        self.count = self.count.saturating_sub(1);
        let _: Result<(), AllocFailed<usize>> = self.free.push(place);
    }

    /// Nobody stands at a place.
    fn is_vacant(&self, place: usize) -> bool
        ensures { result ≡ is_none (held_at self.now place) }
    {
        match self.places.get(place) {
            Some(Some(_)) => false,
            _ => true,
        }
    }

    /// A place where nobody is; none where memory is refused.
    fn vacant(&mut self) -> Option<usize>
        ensures vacant { IfSome result (λ place. held_at self.new place ≡ None) }
        ensures same { (place : ℕ) → held_at self.new place ≡ held_at self.old place }
        ensures links { links_of self.new ≡ links_of self.old }
        ensures alike { ServesAlike self.old self.new }
        ensures count { count_of self.new ≡ count_of self.old }
    {
        if let Some(place) = self.free.pop()
            && self.is_vacant(place)
        {
            return Some(place);
        }
        let place = self.places.len();
        self.places.push(None).ok()?;
        Some(place)
    }

    /// A place for one more connection, which is kept for it; none where as many are open as may be, or there is no memory for it.
    pub fn free_place(&mut self) -> Option<usize>
        ensures vacant { IfSome result (λ place. held_at self.new place ≡ None) }
        ensures same { (place : ℕ) → held_at self.new place ≡ held_at self.old place }
        ensures links { links_of self.new ≡ links_of self.old }
        ensures alike { ServesAlike self.old self.new }
        ensures more { count_of self.old ≤ count_of self.new }
    {
        if self.is_full() {
            return None;
        }
        let place = self.vacant()?;
        self.count = self.count.saturating_add(1);
        Some(place)
    }

    /// Puts somebody who has come to their place. They are gone on with once all have been who wait for that already.
    pub fn put_off(&mut self, place: usize, open: Open)
        ensures { GoOnWith place «open» self.old self.new }
    {
        self.seat(place, open);
        self.put_down(place);
    }

    /// Goes on with a connection that was taken, where no more than its socket is needed.
    pub fn go_on(&mut self, place: usize, open: Open)
        ensures { held_at self.old place ≡ None → GoOnWith place «open» self.old self.new }
    {
        match open.state {
            State::Waiting { .. } => self.look_at_client(place, open),
            State::Saying { .. } => self.say_on(place, open),
            State::Parting { bytes } => self.part(place, open, bytes),
            State::Calling { .. } => self.call_on(place, open),
            _ => self.keep(place, open),
        }
    }
}
