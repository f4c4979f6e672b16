//! A request arrives.
//!
//! ```text
//! turn_arrived > arrive > accept > ready_to_arrive, then accept_plan by what splitter plans for it:
//!   accept_value                       the proxy's own answer, or a command without parts
//!   accept_whole > place_whole         one part, for its key's host
//!   accept_list > place_parts > place_all > place_one > place_at    several parts, each for its key's host
//! ```
ghost use Rattle.std.specs.Prelude.{◌≡◌, ℕ, ◌<◌, ◌^◌, ◌-◌, [], ◌∷◌, length, map, replicate, None, IfOk, IfErr, OnOk, IfSome};
ghost use Rattle.resp_core.specs.Value.{tree_of};
ghost use Rattle.resp_core.specs.Stream.{told_offset};
ghost use Rattle.ketama.specs.Key.{point_of};
ghost use Rattle.ketama.specs.Owner.{owner_of};
ghost use Rattle.ejector.specs.State.{hosts_of};
ghost use Rattle.ejector.specs.UsableHosts.{is_usable};
ghost use Rattle.splitter.specs.Join.{MayJoin};
ghost use Rattle.splitter.specs.Part.{part_of};
ghost use Rattle.splitter.specs.Plan.{parts};
ghost use Rattle.splitter.specs.Planned.{planned_in};
ghost use Rattle.splitter.specs.declared.plans.Join.TheVariants.{Same};
ghost use Rattle.proxy_history.specs.Setting.{hosts};
ghost use Rattle.proxy_history.specs.History.{plan_for};
ghost use Rattle.proxy_history.specs.Past.{past};
ghost use Rattle.proxy_history.specs.Part.{Past};
ghost use Rattle.proxy_history.specs.Payload.{length_of_request};
ghost use Rattle.proxy_history.specs.Answer.{answer_to};
ghost use Rattle.proxy_history.specs.Arrival.{parts_placed};
ghost use Rattle.proxy_history.specs.declared.event.Event.TheVariants as events;
ghost use Rattle.proxy_core.specs.Connections.{MayAccept, connection_at};
ghost use Rattle.proxy_core.specs.Places.{AreCounted, counted_at, next_place, placed_as};
ghost use Rattle.proxy_core.specs.Arrivals.{ArePlaced, HasAccepted, HasRoomFor, IsAccepted, MayJoinAll, Tells, own_plan, with_arrival};
ghost use Rattle.proxy_core.specs.Core.{IsMade, IsLeft};
ghost use Rattle.proxy_core.specs.Machine.{setting_in, memory_in, history_in, IsDone, IsKept, IsSame, IsReady, HasCauseIn};

use crate::machine::{Done, Machine, make_room};
use crate::refused::Refused;
use crate::state::place::{Accepted, Place, Placed, next_place};
use bytes::Bytes;
use ketama::point_of_key;
use limits::{MAX_COMMANDS, MAX_HOSTS};
use proxy_history::{Answer, Event, Refusal};
use resp_core::Value;
use splitter::{Join, Local, PartPlan, PartPlans, Plan, Planned, Request, plan_with};
use std::alloc::AllocError;
use std::slice;

impl Machine {
    #[inline(always)]
    pub(crate) fn turn_arrived(
        &mut self,
        pass: u64,
        conn: u64,
        request: Request,
    ) -> Result<Answer, Refused>
        requires { IsKept self.old }
        ensures answered { IfOk result
            (λ a. IsMade self.old self.new pass (events.Arrived conn request) a) }
        ensures refused { IfErr result
            (λ r. IsLeft self.old self.new (events.Arrived conn request) r) }
    {
        let done = self.arrive(conn, &request);
        self.add_step(pass, Event::Arrived { conn, request }, done)
    }

    /// Accepts the command of a connection's request. Each of its parts gets its host for good, or a value at once.
    pub(crate) fn arrive(&mut self, conn: u64, request: &Request) -> Result<Done, Refusal>
        requires { IsKept self.old }
        ensures done { IfOk result (λ d. (d.answer ≡ answer_to (setting_in self.old)
            (past (setting_in self.old) (history_in self.old)) (events.Arrived conn request.now))
            × IsDone self.old self.new (events.Arrived conn request.now) d
            (with_arrival self.old conn (plan_for request.now)
            (past (setting_in self.old) (history_in self.old)))) }
        ensures refused { IfErr result (λ r. IsSame self.old self.new
            × HasCauseIn self.old (events.Arrived conn request.now) r) }
    {
        let bytes = request.text_len();
        let accepted = self.accept(conn, request, bytes)?;
        Ok(Done {
            answer: accepted.answer(),
            recorded: accepted.answer(),
            bytes,
        })
    }

    fn accept(&mut self, conn: u64, request: &Request, bytes: u64) -> Result<Accepted, Refusal>
        requires kept { IsKept self.old }
        requires bytes { bytes ≡ told_offset (length_of_request request.now) }
        ensures ready { OnOk result
            (HasRoomFor self.old self.new (events.Arrived conn request.now)) }
        ensures text { OnOk result (length_of_request request.now < 2 ^ 64 - 1) }
        ensures accepted { IfOk result
            (λ a. IsAccepted self.old self.new conn (plan_for request.now)
            (past (setting_in self.old) (history_in self.old)) a) }
        ensures refused { IfErr result (λ r. IsSame self.old self.new
            × HasCauseIn self.old (events.Arrived conn request.now) r) }
    {
        let plan = self.ready_to_arrive(conn, request, bytes)?;
        self.accept_plan(conn, plan)
    }

    // Looks for a cause, makes room, and plans the request.
    fn ready_to_arrive<'r>(
        &mut self,
        conn: u64,
        request: &'r Request,
        bytes: u64,
    ) -> Result<Planned<'r>, Refusal>
        requires { bytes ≡ told_offset (length_of_request request.now) }
        ensures ready { OnOk result (IsReady self.old self.new (events.Arrived conn request.now)) }
        ensures text { OnOk result (length_of_request request.now < 2 ^ 64 - 1) }
        ensures plan { IfOk result (λ plan. planned_in plan ≡ plan_for request.now) }
        ensures refused { IfErr result (λ r. IsSame self.old self.new
            × HasCauseIn self.old (events.Arrived conn request.now) r) }
    {
        let Some(connection) = self.connections.get(conn) else {
            return Err(Refusal::NoSuchConnection);
        };
        if connection.is_finishing {
            return Err(Refusal::Finishing);
        }
        if connection.queue.left() >= MAX_COMMANDS {
            return Err(Refusal::Crowded);
        }
        make_room(&mut self.journal, bytes)?;
        match plan_with(self.alloc, &mut self.texts, request, bytes) {
            Ok(plan) => Ok(plan),
            Err(_) => Err(Refusal::NoMemory),
        }
    }

    fn accept_plan(&mut self, conn: u64, plan: Planned<'_>) -> Result<Accepted, Refusal>
        requires pipelines { length self.old.pipelines.states ≡ hosts (setting_in self.old) }
        requires hosts { self.old.ejector.rules.hosts ≡ self.old.ring.hosts }
        requires open { MayAccept (connection_at conn self.old.connections.numbered) }
        requires join { MayJoinAll (planned_in plan) }
        ensures accepted { IfOk result (λ a. (x : Past)
            → Tells (setting_in self.old) (memory_in self.old) conn x
            → IsAccepted self.old self.new conn (planned_in plan.entry) x a) }
        ensures journal { self.new.journal ≡ self.old.journal }
        ensures refused { IfErr result (λ r. (r ≡ Refusal.NoMemory) × IsSame self.old self.new) }
    {
        match plan {
            Planned::Whole { key, text } => self.accept_whole(conn, key, text),
            Planned::Other(Plan::Here(name, value)) => self.accept_value(conn, name, value, false),
            Planned::Other(Plan::Leave(name, value)) => self.accept_value(conn, name, value, true),
            Planned::Other(Plan::Parts { how, list }) => self.accept_list(conn, how, list),
        }
    }

    fn accept_value(
        &mut self,
        conn: u64,
        name: Local,
        value: Value,
        is_last: bool,
    ) -> Result<Accepted, Refusal>
        requires open { MayAccept (connection_at conn self.old.connections.numbered) }
        ensures accepted { IfOk result (λ a. (x : Past)
            → Tells (setting_in self.old) (memory_in self.old) conn x
            → IsAccepted self.old self.new conn (own_plan is_last name (tree_of value)) x a) }
        ensures journal { self.new.journal ≡ self.old.journal }
        ensures refused { IfErr result (λ r. (r ≡ Refusal.NoMemory) × IsSame self.old self.new) }
    {
        let index = self.connections.accept_own(conn, value, is_last)?;
        Ok(Accepted::own(index, name))
    }

    fn accept_whole(&mut self, conn: u64, key: &[u8], text: Bytes) -> Result<Accepted, Refusal>
        requires pipelines { length self.old.pipelines.states ≡ hosts (setting_in self.old) }
        requires hosts { self.old.ejector.rules.hosts ≡ self.old.ring.hosts }
        requires open { MayAccept (connection_at conn self.old.connections.numbered) }
        ensures accepted { IfOk result (λ a. (x : Past)
            → Tells (setting_in self.old) (memory_in self.old) conn x
            → IsAccepted self.old self.new conn (parts Same (part_of key.now text ∷ [])) x a) }
        ensures journal { self.new.journal ≡ self.old.journal }
        ensures refused { IfErr result (λ r. (r ≡ Refusal.NoMemory) × IsSame self.old self.new) }
    {
        let mut places = [0u16; MAX_HOSTS];
        let counts = &mut places[..self.ring.hosts()];
        let placed = self.place_whole(counts, key, text);
        match self.accept_placed(conn, Join::Same, counts, slice::from_ref(&placed)) {
            Ok(accepted) => {
                self.pipelines.push_one(conn, accepted.index, placed);
                Ok(accepted)
            }
            Err(cause) => {
                drop(placed);
                Err(cause)
            }
        }
    }

    // Accepts a command whose parts are placed, and reserves room for those that are to wait. They don't wait yet.
    fn accept_placed(
        &mut self,
        conn: u64,
        how: Join,
        counts: &[u16],
        placed: &[Placed],
    ) -> Result<Accepted, Refusal>
        requires open { MayAccept (connection_at conn self.old.connections.numbered) }
        requires counted { AreCounted (memory_in self.old).pipelines counts.now placed.now }
        requires join { MayJoin how (length placed.now) }
        requires parts { length placed.now < 2 ^ 32 }
        ensures accepted { IfOk result
            (λ a. HasAccepted self.old self.new conn how placed.now a) }
        ensures journal { self.new.journal ≡ self.old.journal }
        ensures refused { IfErr result (λ r. (r ≡ Refusal.NoMemory) × IsSame self.old self.new) }
    {
        self.pipelines.reserve(counts)?;
        let index = self.connections.enqueue(conn, how, placed)?;
        Ok(Accepted::counted(index, placed))
    }

    // Places a command's only part, and counts it for its host if it is to wait there.
    fn place_whole(&self, counts: &mut [u16], key: &[u8], text: Bytes) -> Placed
        requires pipelines { length self.now.pipelines.states ≡ hosts (setting_in self.now) }
        requires hosts { self.now.ejector.rules.hosts ≡ self.now.ring.hosts }
        requires counts { counts.old ≡ replicate (length self.now.pipelines.states) 0 }
        ensures placed { (x : Past) (conn command : ℕ)
            → Tells (setting_in self.now) (memory_in self.now) conn x
            → result ∷ [] ≡ map placed_as
            (parts_placed (setting_in self.now) x conn command [] (part_of key.now text ∷ [])) }
        ensures counted { AreCounted (memory_in self.now).pipelines counts.new (result ∷ []) }
    {
        let mut places = [false; MAX_HOSTS];
        let usable = &mut places[..self.ring.hosts()];
        self.ejector.all_usable(usable);
        Placed {
            number: 0,
            place: self.place_at(usable, counts, self.point_of(key)),
            text,
        }
    }

    fn accept_list(&mut self, conn: u64, how: Join, list: PartPlans) -> Result<Accepted, Refusal>
        requires pipelines { length self.old.pipelines.states ≡ hosts (setting_in self.old) }
        requires hosts { self.old.ejector.rules.hosts ≡ self.old.ring.hosts }
        requires open { MayAccept (connection_at conn self.old.connections.numbered) }
        requires join { MayJoinAll (parts how list) }
        ensures accepted { IfOk result (λ a. (x : Past)
            → Tells (setting_in self.old) (memory_in self.old) conn x
            → IsAccepted self.old self.new conn (parts how list) x a) }
        ensures journal { self.new.journal ≡ self.old.journal }
        ensures refused { IfErr result (λ r. (r ≡ Refusal.NoMemory) × IsSame self.old self.new) }
    {
        let mut places = [0u16; MAX_HOSTS];
        let counts = &mut places[..self.ring.hosts()];
        let placed = self.place_parts(counts, list)?;
        match self.accept_placed(conn, how, counts, &placed) {
            Ok(accepted) => {
                self.pipelines.push(conn, accepted.index, placed);
                Ok(accepted)
            }
            Err(cause) => {
                drop(placed);
                Err(cause)
            }
        }
    }

    // Places a command's parts one after another, and counts for each host those that are to wait there.
    fn place_parts(&self, counts: &mut [u16], list: PartPlans) -> Result<Vec<Placed>, AllocError>
        requires pipelines { length self.now.pipelines.states ≡ hosts (setting_in self.now) }
        requires hosts { self.now.ejector.rules.hosts ≡ self.now.ring.hosts }
        requires counts { counts.old ≡ replicate (length self.now.pipelines.states) 0 }
        requires parts { length list < 2 ^ 32 }
        ensures { IfOk result (λ placed. ArePlaced self.now list counts.new placed.items) }
    {
        let mut places = [false; MAX_HOSTS];
        let usable = &mut places[..self.ring.hosts()];
        self.ejector.all_usable(usable);
        self.place_all(usable, counts, list)
    }

    fn place_all(
        &self,
        usable: &[bool],
        counts: &mut [u16],
        list: PartPlans,
    ) -> Result<Vec<Placed>, AllocError>
        requires pipelines { length self.now.pipelines.states ≡ hosts (setting_in self.now) }
        requires hosts { self.now.ejector.rules.hosts ≡ self.now.ring.hosts }
        requires usable { usable.now ≡ map (is_usable self.now.ejector.rules self.now.ejector.state)
            (hosts_of self.now.ejector.rules) }
        requires counts { counts.old ≡ replicate (length self.now.pipelines.states) 0 }
        requires parts { length list < 2 ^ 32 }
        ensures { IfOk result (λ placed. ArePlaced self.now list counts.new placed.items) }
    {
        let mut placed = Vec::with_capacity(self.alloc, list.0.len())?;
        for plan in list.0 {
            let number = placed.len() as u32;
            placed.push_reserved(self.place_one(usable, counts, number, plan));
        }
        Ok(placed)
    }

    fn place_one(&self, usable: &[bool], counts: &mut [u16], number: u32, plan: PartPlan) -> Placed
        requires pipelines { length self.now.pipelines.states ≡ self.now.ring.hosts }
        requires usable { length usable.now ≡ self.now.ring.hosts }
        requires counts { length counts.old ≡ length self.now.pipelines.states }
        ensures placed { result ≡ record {
          number = number;
          place = next_place (memory_in self.now).pipelines counts.old
              (owner_of self.now.ring.pairs
              (point_of plan.key self.now.ejector.rules.settings.tags) usable.now);
          text = plan.text;
        } }
        ensures counts { counts.new ≡ counted_at result.place counts.old }
        ensures host { IfSome
            (owner_of self.now.ring.pairs
            (point_of plan.key self.now.ejector.rules.settings.tags) usable.now)
            (λ h. h < length self.now.pipelines.states) }
    {
        let point = self.point_of(plan.key.as_slice());
        Placed {
            number,
            place: self.place_at(usable, counts, point),
            text: plan.text,
        }
    }

    fn point_of(&self, key: &[u8]) -> u32
        ensures { result ≡ point_of key.now self.now.ejector.rules.settings.tags }
    {
        point_of_key(key, self.ejector.rules().settings.tags)
    }

    // Finds the place of a part by its key's point, and counts it for its host if it is to wait there.
    fn place_at(&self, usable: &[bool], counts: &mut [u16], point: u32) -> Place
        requires pipelines { length self.now.pipelines.states ≡ self.now.ring.hosts }
        requires usable { length usable.now ≡ self.now.ring.hosts }
        requires counts { length counts.old ≡ length self.now.pipelines.states }
        ensures place { result ≡ next_place (memory_in self.now).pipelines counts.old
            (owner_of self.now.ring.pairs point usable.now) }
        ensures counts { counts.new ≡ counted_at result counts.old }
        ensures host { IfSome (owner_of self.now.ring.pairs point usable.now)
            (λ h. h < length self.now.pipelines.states) }
    {
        next_place(&self.pipelines, counts, self.ring.owner(point, usable))
    }
}
