ghost use Rattle.std.specs.Prelude.{true, false, ◌≡◌, ◌≢◌, ◌≤◌, ◌↔◌, ◌++◌, ◌∷◌, ℕ, List, [], length, Some, None, IfOk, IfErr, IfSome, IfNone, OnErr, OnOk};
ghost use Rattle.std.specs.Borrow.{sem};
ghost use Rattle.proxy_devices.specs.Device.{reader_state};
ghost use Rattle.resp_core.specs.Command.{command_of};
ghost use Rattle.resp_core.specs.declared.error.RespError.{RespError};
ghost use Rattle.proxy_engines.specs.LinkFaults.{TellsLimit};
ghost use Rattle.splitter.specs.Request.{Request as Asked, IsNotSpelled, read, request_of};

use crate::link_fault::{LastPiece, PassedLimit, passed_limit};
use close_behind::CloseBehind;
use limits::READ_SIZE;
use proxy_devices::{IoOutcome, ReadTally};
use resp_core::{Limits, Reader, RespError, SpelledCommand};
use splitter::Request;
use std::alloc::{AllocError, Global};
use std::marker::Model;

// The most bytes of a first read, and the least length of the buffer.
const MIN_READ_SIZE: usize = 1_024;

fn is_memory(error: &RespError) -> bool
    ensures { (result ≡ true) ↔ (error.now ≡ RespError.NoMemory) }
{
    matches!(error, RespError::NoMemory)
}

// The length that a buffer should have after a read of `last` bytes; 0 before the first one.
fn fitting_size(length: usize, last: usize) -> usize
    requires { (MIN_READ_SIZE ≤ length) × (length ≤ READ_SIZE) }
    ensures { (MIN_READ_SIZE ≤ result) × (result ≤ READ_SIZE) }
{
    if last >= length {
        (2 * length).min(READ_SIZE)
    } else if last > 0 && last <= length / 8 {
        (length / 2).max(MIN_READ_SIZE)
    } else {
        length
    }
}

/// A client's unused input: the waiting request, an unfinished command, and bytes not looked at. It goes with what closes the
/// connection.
#[derive(Drop)]
pub struct Rest {
    next: Option<Request>,
    behind: CloseBehind,
    alloc: Global,
    buffer: Vec<u8>,
    fresh: usize,
    last: usize,
    values: Reader,
}

impl Model for Rest {
    ghost use Rattle.std.specs.Prelude.{◌≡◌, ◌≤◌, None, take, length};
    ghost use Rattle.proxy_engines.specs.Ends.{RestState};
    ghost use Rattle.limits.specs.declared.reads.TheConstants.{READ_SIZE};
    ghost use Rattle.proxy_engines.specs.declared.inbox.TheConstants.{MIN_READ_SIZE};

    ghost Value = { RestState };

    ghost use Rattle.splitter.specs.contracts.request.Request as request;
    ghost use Rattle.std.specs.Coded.{codes};
    ghost use Rattle.resp_core.specs.Code.{tree_code};

    ghost coded = { Prim.hlevel (codes, tree_code, request.the_row.coded) };

    ghost view = { λ r. record {
      next = r.next;
      behind = r.behind;
      fresh = take r.fresh r.buffer.items;
      values = r.values;
    } };

    ghost invariant = { λ r. (MIN_READ_SIZE ≤ length r.buffer.items)
        × (length r.buffer.items ≤ READ_SIZE) × (r.fresh ≤ length r.buffer.items)
        × (r.values.refusal ≡ None) };
}

#[derive(Drop)]
pub(crate) struct Inbox<R: ReadTally> {
    alloc: Global,
    input: R,
    // The latest bytes are in front; `fresh` is their number.
    buffer: Vec<u8>,
    fresh: usize,
    // The bytes of the last read that brought any, or half of the number before if that is more.
    last: usize,
    values: Reader,
    // The length of the piece that was fed last, and the offset behind it.
    piece: usize,
    fed: u64,
    passed: Option<PassedLimit>,
    // Whether the reader of values has returned all complete values of its bytes.
    has_given_all: bool,
}

impl<R: ReadTally> Model for Inbox<R> {
    ghost use Rattle.std.specs.Prelude.{◌≡◌, ◌≤◌, true, take, length};
    ghost use Rattle.proxy_engines.specs.Ends.{InboxState, HasNothingToGive};
    ghost use Rattle.proxy_engines.specs.LinkFaults.{TellsLimit};
    ghost use Rattle.limits.specs.declared.reads.TheConstants.{READ_SIZE};
    ghost use Rattle.proxy_engines.specs.declared.inbox.TheConstants.{MIN_READ_SIZE};

    ghost Value = { InboxState };

    ghost use Rattle.std.specs.Coded.{codes};
    ghost use Rattle.resp_core.specs.Code.{tree_code};

    ghost coded = { Prim.hlevel (codes, tree_code) };

    ghost view = { λ i. record {
      left = R.remaining i.input;
      told = R.told i.input;
      counts = R.counts i.input;
      fresh = take i.fresh i.buffer.items;
      values = i.values;
    } };

    ghost invariant = { λ i. (MIN_READ_SIZE ≤ length i.buffer.items)
        × (length i.buffer.items ≤ READ_SIZE) × (i.fresh ≤ length i.buffer.items)
        × (i.has_given_all ≡ true → HasNothingToGive i.values)
        × TellsLimit i.values.refusal i.passed };
}

impl<R: ReadTally> Inbox<R> {
    ghost use Rattle.proxy_engines.specs.AtRest.{IsUsedUp};
    ghost use Rattle.proxy_engines.specs.Ends.{GivesNext, Holds, IsCut, KeepsReader, ReadsOnce};
    ghost use Rattle.proxy_engines.specs.Lends.{lends_reader, with_reader};

    /// Without memory for its buffer the reader comes back.
    pub(crate) fn new(alloc: Global, input: R, limits: Limits) -> Result<Inbox<R>, R>
        ensures left { IfOk result (λ i. i.left ≡ R.remaining input) }
        ensures told { IfOk result (λ i. (i.told ≡ R.told input) × (i.counts ≡ R.counts input)) }
        ensures most { IfOk result (λ i. i.values.most ≡ limits.array) }
        ensures holds { IfOk result (λ i. Holds i [] []) }
        ensures whole { IfOk result (λ i. i.values.refusal ≡ None) }
        ensures back { IfErr result (λ r. r ≡ input) }
    {
        match vec![in alloc; 0; MIN_READ_SIZE] {
            Ok(buffer) => Ok(Inbox {
                alloc,
                input,
                buffer,
                fresh: 0,
                last: 0,
                values: Reader::new(alloc, limits),
                piece: 0,
                fed: 0,
                passed: None,
                has_given_all: false,
            }),
            Err(_) => Err(input),
        }
    }

    pub(crate) fn with(input: R, rest: Rest) -> (Inbox<R>, Option<Request>, CloseBehind)
        ensures left { result.0.left ≡ R.remaining input }
        ensures told { (result.0.told ≡ R.told input) × (result.0.counts ≡ R.counts input) }
        ensures fresh { result.0.fresh ≡ rest.fresh }
        ensures values { result.0.values ≡ rest.values }
        ensures whole { result.0.values.refusal ≡ None }
        ensures next { result.1 ≡ rest.next }
        ensures behind { result.2 ≡ rest.behind }
    {
        let Rest {
            next,
            behind,
            alloc,
            buffer,
            fresh,
            last,
            values,
        } = rest;
        let fed = values.held();
        let inbox = Inbox {
            alloc,
            input,
            buffer,
            fresh,
            last,
            values,
            piece: 0,
            fed,
            passed: None,
            has_given_all: false,
        };
        (inbox, next, behind)
    }

    pub(crate) fn into_rest(self, next: Option<Request>, behind: CloseBehind) -> (R, Rest)
        requires { self.values.refusal ≡ None }
        ensures left { R.remaining result.0 ≡ self.left }
        ensures told { (R.told result.0 ≡ self.told) × (R.counts result.0 ≡ self.counts) }
        ensures cut { (b : List ℕ) (rs : List Asked) → Holds self b rs
            → IsCut self.values.most b rs result.1 }
        ensures most { result.1.values.most ≡ self.values.most }
        ensures next { result.1.next ≡ next }
        ensures behind { result.1.behind ≡ behind }
    {
        let Inbox {
            alloc,
            input,
            buffer,
            fresh,
            last,
            mut values,
            ..
        } = self;
        values.begin_behind();
        let rest = Rest {
            next,
            behind,
            alloc,
            buffer,
            fresh,
            last,
            values,
        };
        (input, rest)
    }

    pub(crate) fn reader(&self) -> &R
        ensures { self.now ≡ with_reader self.now
            (reader_state R.remaining R.told R.counts result.now) }
    {
        &self.input
    }

    pub(crate) fn reader_mut(&mut self) -> &mut R
        ensures* writes_back { sem 𝓛 (lends_reader R.row (record { told = R.told })
            (record { remaining = R.remaining }) (record { counts = R.counts }) self.entry result) }
        ensures value { self.old ≡ with_reader self.old
            (reader_state R.remaining R.told R.counts result.now) }
    {
        &mut self.input
    }

    /// That of a refused value, if it is too long.
    pub(crate) fn passed_limit(&self) -> Option<PassedLimit>
        ensures { TellsLimit self.now.values.refusal result }
    {
        self.passed
    }

    /// Whether a request was made of each byte that was read.
    pub(crate) fn is_used_up(&self) -> bool
        ensures yes { result ≡ true → IsUsedUp self.now }
        ensures no { result ≡ false → IsUsedUp self.now → ⊥ }
    {
        self.fresh == 0 && self.values.held() == 0
    }

    // Doubles the buffer if the last read filled it, and halves it if an eighth was enough, as memory allows.
    fn fit(&mut self)
        requires { self.old.fresh ≡ [] }
        ensures { self.new ≡ self.old }
    {
        let wanted = fitting_size(self.buffer.len(), self.last);
        if wanted != self.buffer.len() {
            if let Ok(buffer) = vec![in self.alloc; 0; wanted] {
                self.buffer = buffer;
            }
        }
    }

    /// The previous read must have been used.
    pub(crate) fn read_once(&mut self) -> IoOutcome
        requires { self.old.fresh ≡ [] }
        ensures few { length self.new.fresh ≤ READ_SIZE }
        ensures reads { ReadsOnce self.old self.new result }
    {
        self.fit();
        let told = self.input.read_told(&mut self.buffer);
        self.fresh = match told {
            IoOutcome::Moved(n) => n,
            IoOutcome::End | IoOutcome::Idle | IoOutcome::Failed => 0,
        };
        if self.fresh > 0 {
            self.last = self.fresh.max(self.last / 2);
        }
        told
    }

    fn feed(&mut self) -> Result<(), AllocError>
        requires { self.old.values.refusal ≡ None }
        ensures fresh { OnOk result (self.new.fresh ≡ []) }
        ensures holds { (b : List ℕ) (rs : List Asked) → Holds self.old b rs → Holds self.new b rs }
        ensures whole { self.new.values.refusal ≡ None }
        ensures keeps { KeepsReader self.old self.new
            × (self.new.values.most ≡ self.old.values.most) }
    {
        if self.fresh > 0 {
            self.has_given_all = false;
            if self.values.feed(&self.buffer[..self.fresh]).is_err() {
                return Err(AllocError);
            }
            self.piece = self.fresh;
            self.fed = self.fed.saturating_add(self.fresh as u64);
            self.fresh = 0;
        }
        Ok(())
    }

    // The next command, if it is read as its text alone.
    fn next_spelled(&mut self) -> Result<Option<SpelledCommand>, AllocError>
        requires { self.old.values.refusal ≡ None }
        ensures some { IfOk result (λ o. IfSome o (λ c. (b : List ℕ) (rs : List Asked)
            → Holds self.old b rs → Holds self.new b (rs ++ read (command_of c) ∷ []))) }
        ensures none { IfOk result (λ o. IfNone o ((b : List ℕ) (rs : List Asked)
            → Holds self.old b rs → Holds self.new b rs)) }
        ensures err { OnErr result ((b : List ℕ) (rs : List Asked) → Holds self.old b rs
            → Holds self.new b rs) }
        ensures whole { self.new.values.refusal ≡ None }
        ensures keeps { KeepsReader self.old self.new
            × (self.new.values.most ≡ self.old.values.most) }
    {
        self.feed()?;
        self.has_given_all = false;
        // (each exit has its clause)
        let Some(command) = self.values.next_spelled()? else {
            return Ok(None);
        };
        Ok(Some(command))
    }

    /// The next complete request; a refused byte is one too.
    ///
    /// Refused where there is no memory; nothing is lost.
    pub(crate) fn next_request(&mut self) -> Result<Option<Request>, AllocError>
        requires { self.old.values.refusal ≡ None }
        ensures next { IfOk result (λ o. GivesNext self.old self.new o) }
        ensures err { OnErr result (((b : List ℕ) (rs : List Asked) → Holds self.old b rs
            → Holds self.new b rs) × (self.new.values.refusal ≡ None)) }
        ensures keeps { KeepsReader self.old self.new
            × (self.new.values.most ≡ self.old.values.most) }
    {
        if self.has_given_all && self.fresh == 0 {
            return Ok(None);
        }
        match self.next_spelled()? {
            Some(command) => Ok(Some(Request::Spelled(command))),
            None => self.next_read(),
        }
    }

    /// The same, read as a value.
    pub(crate) fn next_read(&mut self) -> Result<Option<Request>, AllocError>
        requires { self.old.values.refusal ≡ None }
        ensures next { IfOk result (λ o. GivesNext self.old self.new o) }
        ensures read { IfOk result (λ o. IfSome o IsNotSpelled) }
        ensures err { OnErr result (((b : List ℕ) (rs : List Asked) → Holds self.old b rs
            → Holds self.new b rs) × (self.new.values.refusal ≡ None)) }
        ensures keeps { KeepsReader self.old self.new
            × (self.new.values.most ≡ self.old.values.most) }
    {
        if self.has_given_all && self.fresh == 0 {
            return Ok(None);
        }
        self.feed()?;
        self.has_given_all = false;
        let begin = self.fed.saturating_sub(self.values.held());
        match self.values.next_value() {
            Ok(Some(value)) => Ok(Some(Request::Read(value))),
            Ok(None) => {
                self.has_given_all = true;
                Ok(None)
            }
            Err(error) => {
                if is_memory(&error) {
                    return Err(AllocError);
                }
                let piece = LastPiece {
                    end: self.fed,
                    length: self.piece,
                    bytes: &self.buffer,
                };
                self.passed = passed_limit(error, begin, piece);
                Ok(Some(Request::Broken))
            }
        }
    }
}
