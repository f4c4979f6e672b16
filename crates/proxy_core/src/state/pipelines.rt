ghost use Rattle.std.specs.Prelude.{◌≡◌, ◌≢◌, ℕ, ◌+◌, ◌-◌, ◌<◌, ◌≤◌, ◌^◌, [], length, map, get_or, slice_get, replicate, IfSome, IfNone, IfOk, IfErr, OnOk, OnErr};
ghost use Rattle.std.specs.Option.{option_copied};
ghost use Rattle.upstream_pipe.specs.Pipe.{owner_in};
ghost use Rattle.list_lemmas.specs.Lists.{list_of};
ghost use Rattle.proxy_core.specs.Places.{one_at};
ghost use Rattle.proxy_core.specs.Arrivals.{HaveRoom, MayWait, pushed_all, pushed_at, piped_as};
ghost use Rattle.proxy_core.specs.Pipelines.{HasRooms, answered_by, failed_pipeline, next_connection, next_owner, no_pipeline, taken_from, with_pipeline, without_connection, pipeline_at};

use crate::state::place::{Place, Placed};
use proxy_history::Refusal;
use std::alloc::{AllocError, Global};
use std::marker::Model;
use upstream_pipe::{Lost, Owner, Part, Pipe, PipeRefusal};

/// The pipes by the numbers of their hosts, which count from 0.
#[derive(Drop)]
pub(crate) struct Pipelines {
    by_host: Vec<Pipe>,
}

impl Model for Pipelines {
    ghost use Rattle.proxy_core.specs.Pipelines.{PipelineTable, table_of};

    ghost Value = { PipelineTable };

    ghost view = { λ p. table_of p.by_host.items };
}

impl Pipelines {
    pub(crate) fn new(alloc: Global, hosts: usize) -> Result<Pipelines, AllocError>
        ensures { IfOk result (λ p. p.states ≡ replicate hosts no_pipeline) }
    {
        let mut by_host = Vec::with_capacity(alloc, hosts)?;
        for _ in 0..hosts {
            by_host.push_reserved(Pipe::new(alloc));
        }
        Ok(Pipelines { by_host })
    }

    pub(crate) fn len(&self) -> usize
        ensures { result ≡ length self.now.states }
    {
        self.by_host.len()
    }

    pub(crate) fn epoch(&self, host: usize) -> u64
        requires { host < length self.now.states }
        ensures { result ≡ (pipeline_at host self.now.states).epoch }
    {
        self.by_host[host].epoch()
    }

    pub(crate) fn waiting(&self, host: usize) -> usize
        requires { host < length self.now.states }
        ensures { result ≡ length (pipeline_at host self.now.states).waiting }
    {
        self.by_host[host].waiting()
    }

    pub(crate) fn flying(&self, host: usize) -> usize
        requires { host < length self.now.states }
        ensures { result ≡ length (pipeline_at host self.now.states).flying }
    {
        self.by_host[host].flying()
    }

    /// The connection to which a host's next reply belongs, if a part flies to it and its connection is open.
    pub(crate) fn next_connection(&self, host: usize) -> Option<u64>
        requires { host < length self.now.states }
        ensures { result ≡ next_connection (pipeline_at host self.now.states).flying }
    {
        match self.by_host[host].next_owner() {
            Some(owner) => Some(owner.conn),
            None => None,
        }
    }

    pub(crate) fn taken(&self, host: usize) -> u64
        requires { host < length self.now.states }
        ensures { result ≡ (pipeline_at host self.now.states).taken }
    {
        self.by_host[host].taken()
    }

    pub(crate) fn oldest(&self, host: usize) -> Option<&Part>
        requires { host < length self.now.states }
        ensures { option_copied result ≡ slice_get (pipeline_at host self.now.states).waiting 0 }
    {
        self.by_host[host].oldest()
    }

    /// Reserves room for this many more parts of each host. Refused 1001 (no memory): only room has changed.
    pub(crate) fn reserve(&mut self, counts: &[u16]) -> Result<(), Refusal>
        requires { length counts.now ≡ length self.old.states }
        ensures room { OnOk result (HasRooms counts.now (length self.new.states) self.new) }
        ensures refused { IfErr result (λ r. r ≡ Refusal.NoMemory) }
        ensures same { self.new.states ≡ self.old.states }
    {
        for host in 0..counts.len() {
            self.reserve_one(host, usize::from(counts[host]))?;
        }
        Ok(())
    }

    // Reserves room for this many more parts of one host; the others' stays.
    fn reserve_one(&mut self, host: usize, parts: usize) -> Result<(), Refusal>
        requires { host < length self.old.states }
        ensures room { OnOk result (parts ≤ get_or self.new.room host 0) }
        ensures others { (h : ℕ) → h ≢ host → get_or self.new.room h 0 ≡ get_or self.old.room h 0 }
        ensures refused { IfErr result (λ r. r ≡ Refusal.NoMemory) }
        ensures same { self.new.states ≡ self.old.states }
    {
        if parts == 0 {
            return Ok(());
        }
        match self.by_host[host].room(parts) {
            Ok(()) => Ok(()),
            Err(_) => Err(Refusal::NoMemory),
        }
    }

    /// Queues a command's parts that are to wait, each for its host. There must be room.
    pub(crate) fn push(&mut self, conn: u64, command: u64, placed: Vec<Placed>)
        requires { HaveRoom placed.items self.old }
        ensures { self.new.states ≡ pushed_all conn command placed.items self.old.states }
    {
        for part in placed {
            self.push_one(conn, command, part);
        }
    }

    /// Queues a part, if it is to wait. There must be room.
    pub(crate) fn push_one(&mut self, conn: u64, command: u64, placed: Placed)
        requires { MayWait placed.place self.old }
        ensures pushed { self.new.states ≡ pushed_at placed.place
            (piped_as conn command placed) self.old.states }
        ensures room { (h : ℕ)
            → get_or self.old.room h 0 ≤ get_or self.new.room h 0 + one_at h placed.place }
    {
        if let Place::Waits(host) = placed.place {
            let owner = Owner {
                conn,
                command,
                part: placed.number,
            };
            let part = Part {
                owner,
                text: placed.text,
            };
            match self.by_host[host].push(part) {
                Ok(()) => {}
                Err(_) => unreachable!(),
            }
        }
    }

    pub(crate) fn take(&mut self, host: usize) -> Option<Part>
        requires host { host < length self.old.states }
        requires taken { (pipeline_at host self.old.states).taken + 1 < 2 ^ 64 }
        ensures part { result ≡ slice_get (pipeline_at host self.old.states).waiting 0 }
        ensures taken { IfSome result
            (λ part. self.new.states ≡ with_pipeline taken_from host self.old.states) }
        ensures none { IfNone result (self.new.states ≡ self.old.states) }
    {
        self.by_host[host].take()
    }

    /// Takes the oldest part that flies to a host, to which a reply came; there must be one, and the epoch must be the
    /// host's present one. Returns its owner, if its connection is open.
    pub(crate) fn answer(&mut self, host: usize, epoch: u64) -> Option<Owner>
        requires host { host < length self.old.states }
        requires epoch { epoch ≡ (pipeline_at host self.old.states).epoch }
        requires flying { (pipeline_at host self.old.states).flying ≢ [] }
        ensures owner { list_of result ≡ next_owner (pipeline_at host self.old.states).flying }
        ensures answered { self.new.states ≡ with_pipeline answered_by host self.old.states }
    {
        match self.by_host[host].answered(epoch) {
            Ok(owner) => owner,
            Err(_) => unreachable!(),
        }
    }

    /// Takes out all parts of a host, which are lost by a fault in this epoch; it must be the host's present one.
    /// Refused where memory is, and no part has changed.
    pub(crate) fn fail(&mut self, host: usize, epoch: u64) -> Result<Lost, PipeRefusal>
        requires host { host < length self.old.states }
        requires epoch { epoch ≡ (pipeline_at host self.old.states).epoch }
        requires next { epoch < 2 ^ 64 - 1 }
        ensures flying { IfOk result
            (λ lost. lost.flying.items ≡ (pipeline_at host self.old.states).flying) }
        ensures waiting { IfOk result
            (λ lost. lost.waiting.items ≡ map owner_in (pipeline_at host self.old.states).waiting) }
        ensures failed { OnOk result (self.new.states
            ≡ with_pipeline failed_pipeline host self.old.states) }
        ensures err { OnErr result (self.new.states ≡ self.old.states) }
    {
        self.by_host[host].fault(epoch)
    }

    /// Forgets a closed connection: its waiting parts are dropped, and the replies to its flying ones are discarded.
    pub(crate) fn forget(&mut self, conn: u64)
        ensures { self.new.states ≡ map (without_connection conn) self.old.states }
    {
        for host in 0..self.len() {
            self.forget_at(host, conn);
        }
    }

    fn forget_at(&mut self, host: usize, conn: u64)
        requires { host < length self.old.states }
        ensures { self.new.states ≡ with_pipeline (without_connection conn) host self.old.states }
    {
        self.by_host[host].forget(conn);
    }
}
