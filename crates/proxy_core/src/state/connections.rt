ghost use Rattle.std.specs.Prelude.{◌≡◌, ◌+◌, ◌-◌, ◌^◌, ◌<◌, ◌++◌, ◌∷◌, [], false, Some, None, length, map, is_some, IsSome, filter_map, IfOk, IfErr, OnOk, OnErr};
ghost use Rattle.std.specs.Option.{option_copied, option_map};
ghost use Rattle.resp_core.specs.Value.{tree_of};
ghost use Rattle.splitter.specs.Join.{MayJoin};
ghost use Rattle.splitter.specs.declared.plans.Join.TheVariants.{Same};
ghost use Rattle.list_lemmas.specs.Lists.{list_of};
ghost use Rattle.proxy_history.specs.Value.{upstream_failure};
ghost use Rattle.proxy_core.specs.Places.{value_of_placed};
ghost use Rattle.proxy_core.specs.Connections.{connection_with_command, AreAwaited, IsAwaited, IsAwaitedIn, MayAccept, answered_part, answered_parts, connections_without, connection_at, finished_connection, fresh_connection, connection_without_front, left_in, next_index, reply_in, with_answer, with_connection};

use crate::local::upstream_failure;
use crate::state::connection::{Connection, queue_own, queue_parts};
use crate::state::place::Placed;
use proxy_history::Refusal;
use resp_core::Value;
use splitter::Join;
use std::alloc::{AllocError, Global};
use std::marker::Model;
use upstream_pipe::{Lost, Owner};

/// The connections by their numbers, which count from 0 in the order of opening: `None` in the place of a closed
/// one.
#[derive(Drop)]
pub(crate) struct Connections {
    alloc: Global,
    numbered: Vec<Option<Connection>>,
    closed: usize,
}

impl Model for Connections {
    ghost use Rattle.proxy_core.specs.Connections.{ConnectionTable};

    ghost Value = { ConnectionTable };

    ghost use Rattle.std.specs.Coded.{codes};
    ghost use Rattle.resp_core.specs.Code.{tree_code};

    ghost coded = { Prim.hlevel (codes, tree_code) };

    ghost view = { λ c. record { numbered = c.numbered.items; closed = c.closed } };
}

impl Connections {
    pub(crate) fn new(alloc: Global) -> Connections
        ensures { result ≡ record { numbered = []; closed = 0 } }
    {
        Connections {
            alloc,
            numbered: Vec::new(alloc),
            closed: 0,
        }
    }

    pub(crate) fn get(&self, conn: u64) -> Option<&Connection>
        ensures { option_copied result ≡ connection_at conn self.now.numbered }
    {
        match self.numbered.get(conn as usize) {
            Some(connection) => connection.as_ref(),
            None => None,
        }
    }

    pub(crate) fn open_count(&self) -> usize
        ensures { result ≡ length self.now.numbered - self.now.closed }
    {
        self.numbered.len().saturating_sub(self.closed)
    }

    /// The number of the connection's commands accepted and not handed out; 0 if it isn't open.
    pub(crate) fn left(&self, conn: u64) -> usize
        ensures { result ≡ left_in (connection_at conn self.now.numbered) }
    {
        match self.get(conn) {
            Some(connection) => connection.queue.left(),
            None => 0,
        }
    }

    /// Whether there is a reply to the oldest command of the connection that isn't handed out; not if it isn't open.
    pub(crate) fn is_ready(&self, conn: u64) -> bool
        ensures { result ≡ is_some (reply_in (connection_at conn self.now.numbered)) }
    {
        match self.get(conn) {
            Some(connection) => connection.queue.ready(),
            None => false,
        }
    }

    /// Opens a connection, and returns its number.
    pub(crate) fn open(&mut self) -> Result<u64, AllocError>
        ensures number { IfOk result (λ conn. conn ≡ length self.old.numbered) }
        ensures opened { OnOk result (self.new
            ≡ record self.old { numbered = self.old.numbered ++ Some fresh_connection ∷ [] }) }
        ensures err { OnErr result (self.new ≡ self.old) }
    {
        self.numbered.reserve(1)?;
        let conn = self.numbered.len() as u64;
        self.numbered
            .push_reserved(Some(Connection::new(self.alloc)));
        Ok(conn)
    }

    /// The connection accepts no further command.
    pub(crate) fn finish(&mut self, conn: u64)
        ensures { self.new ≡ record self.old {
          numbered = with_connection finished_connection conn
              self.old.numbered;
        } }
    {
        let place = conn as usize;
        if place < self.numbered.len() {
            finish_one(&mut self.numbered[place]);
        }
    }

    pub(crate) fn close(&mut self, conn: u64)
        requires { self.old.closed + 1 < 2 ^ 64 }
        ensures { self.new ≡ record {
          numbered = connections_without conn self.old.numbered;
          closed = self.old.closed + 1;
        } }
    {
        let place = conn as usize;
        self.closed += 1;
        if place < self.numbered.len() {
            close_one(&mut self.numbered[place]);
        }
    }

    /// Takes out the oldest command of the connection, each part of which has its value.
    pub(crate) fn hand(&mut self, conn: u64)
        requires { IsSome (reply_in (connection_at conn self.old.numbered)) }
        ensures { self.new ≡ record self.old {
          numbered = with_connection connection_without_front conn
              self.old.numbered;
        } }
    {
        let place = conn as usize;
        if place < self.numbered.len() {
            hand_one(&mut self.numbered[place]);
        }
    }

    /// Gives the owner's part its value, if there is an owner.
    pub(crate) fn answer(&mut self, owner: Option<Owner>, value: Value)
        requires { AreAwaited (list_of owner) (tree_of value) self.old.numbered }
        ensures { self.new ≡ record self.old {
          numbered = answered_parts (list_of owner) (tree_of value) self.old.numbered;
        } }
    {
        match owner {
            Some(owner) => self.answer_part(owner, value),
            None => drop(value),
        }
    }

    fn answer_part(&mut self, owner: Owner, value: Value)
        requires { IsAwaited owner self.old.numbered }
        ensures { self.new ≡ record self.old {
          numbered = answered_part owner
              (tree_of value) self.old.numbered;
        } }
    {
        answer_one(&mut self.numbered[owner.conn as usize], owner, value);
    }

    /// Gives each lost part the failure of its host. None of them has a value.
    pub(crate) fn fail(&mut self, lost: &Lost)
        requires { AreAwaited (filter_map
            (λ o. o) lost.now.flying.items ++ lost.now.waiting.items) upstream_failure
            self.old.numbered }
        ensures { self.new ≡ record self.old {
          numbered = answered_parts
              (filter_map (λ o. o) lost.now.flying.items ++ lost.now.waiting.items)
              upstream_failure self.old.numbered;
        } }
    {
        self.fail_places(&lost.flying);
        self.fail_parts(&lost.waiting);
    }

    fn fail_parts(&mut self, owners: &[Owner])
        requires { AreAwaited owners.now upstream_failure self.old.numbered }
        ensures { self.new ≡ record self.old {
          numbered = answered_parts owners.now upstream_failure self.old.numbered;
        } }
    {
        for owner in owners {
            self.answer_part(*owner, upstream_failure());
        }
    }

    // Like `fail_parts`, for places that may have lost their owner.
    fn fail_places(&mut self, places: &[Option<Owner>])
        requires { AreAwaited (filter_map (λ o. o) places.now) upstream_failure self.old.numbered }
        ensures { self.new ≡ record self.old {
          numbered = answered_parts (filter_map (λ o. o) places.now) upstream_failure
              self.old.numbered;
        } }
    {
        for place in places {
            self.answer(*place, upstream_failure());
        }
    }

    /// Accepts a command of the connection with placed parts, behind the others, and returns its index. Parts that got
    /// a value at once have it.
    pub(crate) fn enqueue(
        &mut self,
        conn: u64,
        how: Join,
        placed: &[Placed],
    ) -> Result<u64, Refusal>
        requires open { MayAccept (connection_at conn self.old.numbered) }
        requires join { MayJoin how (length placed.now) }
        requires parts { length placed.now < 2 ^ 32 }
        ensures index { IfOk result
            (λ index. index ≡ next_index (connection_at conn self.old.numbered)) }
        ensures accepted { OnOk result (self.new ≡ record self.old {
          numbered = with_connection
              (connection_with_command
              (record { how = how; values = map value_of_placed placed.now }) false)
              conn self.old.numbered;
        }) }
        ensures refused { IfErr result (λ r. (r ≡ Refusal.NoMemory) × (self.new ≡ self.old)) }
    {
        accept_one(&mut self.numbered[conn as usize], how, placed)
    }

    /// Accepts a command of the connection that the proxy answers itself, behind the others, and returns its index.
    /// After the last one the connection accepts no further command.
    pub(crate) fn accept_own(
        &mut self,
        conn: u64,
        value: Value,
        is_last: bool,
    ) -> Result<u64, Refusal>
        requires open { MayAccept (connection_at conn self.old.numbered) }
        ensures index { IfOk result
            (λ index. index ≡ next_index (connection_at conn self.old.numbered)) }
        ensures accepted { OnOk result (self.new ≡ record self.old {
          numbered = with_connection
              (connection_with_command
              (record { how = Same; values = Some (tree_of value) ∷ [] }) is_last)
              conn self.old.numbered;
        }) }
        ensures refused { IfErr result (λ r. (r ≡ Refusal.NoMemory) × (self.new ≡ self.old)) }
    {
        accept_own_one(&mut self.numbered[conn as usize], value, is_last)
    }
}

// The functions below work on one slot, so that a proof has that alone and not the list.

fn finish_one(connection: &mut Option<Connection>)
    ensures { connection.new ≡ option_map finished_connection connection.old }
{
    if let Some(connection) = connection {
        connection.is_finishing = true;
    }
}

fn close_one(connection: &mut Option<Connection>)
    ensures { connection.new ≡ None }
{
    drop(connection.take());
}

// Takes out the oldest command of the connection, if that is open.
fn hand_one(connection: &mut Option<Connection>)
    requires { IsSome (reply_in connection.old) }
    ensures { connection.new ≡ option_map connection_without_front connection.old }
{
    if let Some(connection) = connection {
        connection.queue.drop_front();
    }
}

fn answer_one(connection: &mut Option<Connection>, owner: Owner, value: Value)
    requires { IsAwaitedIn connection.old owner }
    ensures { connection.new ≡ option_map (with_answer owner (tree_of value)) connection.old }
{
    match connection {
        Some(connection) => connection.queue.set_part(owner.command, owner.part, value),
        None => drop(value),
    }
}

fn accept_one(
    connection: &mut Option<Connection>,
    how: Join,
    placed: &[Placed],
) -> Result<u64, Refusal>
    requires open { MayAccept connection.old }
    requires join { MayJoin how (length placed.now) }
    requires parts { length placed.now < 2 ^ 32 }
    ensures index { IfOk result (λ index. index ≡ next_index connection.old) }
    ensures accepted { OnOk result (connection.new
        ≡ option_map (connection_with_command
        (record { how = how; values = map value_of_placed placed.now }) false) connection.old) }
    ensures refused { IfErr result (λ r. (r ≡ Refusal.NoMemory)
        × (connection.new ≡ connection.old)) }
{
    match connection {
        Some(connection) => queue_parts(&mut connection.queue, how, placed),
        None => unreachable!(),
    }
}

fn accept_own_one(
    connection: &mut Option<Connection>,
    value: Value,
    is_last: bool,
) -> Result<u64, Refusal>
    requires open { MayAccept connection.old }
    ensures index { IfOk result (λ index. index ≡ next_index connection.old) }
    ensures accepted { OnOk result (connection.new
        ≡ option_map (connection_with_command
        (record { how = Same; values = Some (tree_of value) ∷ [] }) is_last) connection.old) }
    ensures refused { IfErr result (λ r. (r ≡ Refusal.NoMemory)
        × (connection.new ≡ connection.old)) }
{
    let Some(connection) = connection else {
        unreachable!()
    };
    match queue_own(&mut connection.queue, value) {
        Ok(command) => {
            connection.is_finishing = connection.is_finishing || is_last;
            Ok(command)
        }
        Err(cause) => Err(cause),
    }
}
