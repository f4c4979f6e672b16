//! The state of a reader within an unfinished value.
ghost use Rattle.std.specs.Prelude.{true, false, ◌≡◌, ◌≢◌, ◌⊎◌, ◌≤◌, ◌<◌, ◌-◌, ◌+◌, ◌++◌, ◌^◌, List, ℕ, [], length, take, drop, Some, None, IfOk, IfErr, IfSome, IfNone, OnOk, OnErr, IsOk};
ghost use Rattle.resp_core.specs.PartialValue.{Reads, IsGood, IsFresh, LeadsTo, LeadsToValue, IsShort, HaltsIn, CameTo, ClosesLists, Gave, HasStopped, shown_progress, to_do, to_read, with_done};
ghost use Rattle.resp_core.specs.Word.{IfLast, IfMember, IfMissing};
ghost use Rattle.resp_core.specs.FirstValue.{IsUnfinished};
ghost use Rattle.resp_core.specs.Value.{tree_of};
ghost use Rattle.resp_core.specs.Grammar.{max_text};
ghost use Rattle.resp_core.specs.Command.{command_of};
ghost use Rattle.resp_core.specs.SpelledCommand.{max_words};
ghost use Rattle.resp_core.specs.declared.error.Refusal.TheVariants.{TooLong, TooDeep};

use crate::begun::{Begun, put};
use crate::error::Refusal;
use crate::head::{Found, Head, Line, Next, RefusedByte, read_head, short_bulk};
use crate::parse::{Stop, take_payload, take_text};
use crate::payload::Payload;
use crate::pending::Pending;
use crate::spelled_command::{SpelledCommand, spelled_len};
use crate::text::digits;
use crate::value::{Value, Values};
use bytes::Bytes;
use limits::{MAX_DEPTH, MAX_TEXT};
use std::alloc::{AllocError, Global};
use std::mem;

// The most members of a list for which memory is reserved before they come.
const MAX_RESERVED: usize = 16;

// The most bytes of a buffer that is kept while no byte is pending.
pub(crate) const MAX_IDLE: usize = 32_768;

#[derive(Drop)]
pub(crate) enum Halt {
    NoMemory,
    Refused(Refusal, usize),
}

// What came of the next value: it is the outermost one or its last member; there is more to read; or nothing has
// changed.
#[derive(Drop)]
enum Word {
    Last(Value),
    Member,
    Missing,
}

#[derive(Drop)]
pub(crate) struct PartialValue {
    // They begin with the next byte of a head, or the first of a text or payload.
    pub(crate) pending: Pending,
    // The most bytes for which there was room since nothing was pending.
    pub(crate) room: usize,
    // The outermost first.
    pub(crate) opens: Vec<Begun>,
    // A complete value that isn't in its list yet.
    pub(crate) done: Option<Value>,
    pub(crate) next: Next,
    // The pending bytes of a line that needn't be looked at again.
    pub(crate) seen: usize,
    // The bytes of the value that were taken.
    pub(crate) came: usize,
    // Nothing is read while fewer bytes are pending; 0 if the payload's length isn't known.
    pub(crate) needed: usize,
}

// At the byte that makes the value too long, no higher number is told.
fn told_at(refusal: Refusal, place: usize) -> Refusal
    ensures { ((refusal ≡ TooDeep) × (place ≡ max_text) × (result ≡ TooLong))
        ⊎ ((place ≡ max_text → refusal ≢ TooDeep) × (result ≡ refusal)) }
{
    match refusal {
        Refusal::TooDeep if place == MAX_TEXT => Refusal::TooLong,
        other => other,
    }
}

impl PartialValue {
    pub(crate) fn new(alloc: Global) -> PartialValue
        ensures good { (most : ℕ) → IsGood most result }
        ensures reads { (most : ℕ) → Reads most [] result }
    {
        PartialValue {
            pending: Pending::new(alloc),
            room: 0,
            opens: Vec::new(alloc),
            done: None,
            next: Next::Head(Head::Type),
            seen: 0,
            came: 0,
            needed: 0,
        }
    }

    // Whether a payload is due and hasn't come completely.
    pub(crate) fn is_short(&self) -> bool
        ensures { result ≡ true → (most : ℕ) → IsGood most self.now → (held : List ℕ)
            → Reads most held self.now → IsUnfinished most held }
    {
        self.pending.len() < self.needed
    }

    // The bytes of the value that have come, taken or pending.
    pub(crate) fn held(&self) -> u64
        requires good { (most : ℕ) × IsGood most self.now }
        ensures { result ≡ self.now.came + length self.now.pending.items }
    {
        self.came as u64 + self.pending.len() as u64
    }

    pub(crate) fn feed(&mut self, piece: &[u8]) -> Result<(), AllocError>
        ensures good { (most : ℕ) → IsGood most self.old → IsGood most self.new }
        ensures reads { OnOk result ((most : ℕ) (held : List ℕ) → Reads most held self.old
            → Reads most (held ++ piece.now) self.new) }
        ensures same { OnErr result (shown_progress self.new ≡ shown_progress self.old) }
    {
        self.pending.feed(piece)
    }

    fn note_room(&mut self)
        ensures good { (most : ℕ) → IsGood most self.old → IsGood most self.new }
        ensures same { shown_progress self.new ≡ shown_progress self.old }
    {
        self.room = self.room.max(self.pending.capacity());
    }

    // Drops what is kept for further bytes, if none is pending.
    fn give_back(&mut self)
        ensures good { (most : ℕ) → IsGood most self.old → IsGood most self.new }
        ensures same { shown_progress self.new ≡ shown_progress self.old }
    {
        if self.pending.len() > 0 {
            return;
        }
        self.pending.forget_copies();
        if self.room > MAX_IDLE {
            self.pending.give_back();
            self.room = 0;
        }
    }

    pub(crate) fn begin_anew(&mut self, alloc: Global)
        ensures good { (most : ℕ) → IsGood most self.new }
        ensures reads { (most : ℕ) → Reads most [] self.new }
    {
        drop(mem::replace(self, PartialValue::new(alloc)));
    }

    // The outermost value and the length of its text, if it has come completely.
    pub(crate) fn next_value(
        &mut self,
        alloc: Global,
        most: u64,
    ) -> Result<Option<(Value, usize)>, Halt>
        requires good { IsGood most self.old }
        ensures good { IsGood most self.new }
        ensures value { IfOk result (λ o. IfSome o (λ x. (held : List ℕ) → Reads most held self.old
            → Gave most held (tree_of x.0) x.1 self.new)) }
        ensures none { IfOk result (λ o. IfNone o ((held : List ℕ) → Reads most held self.old
            → Reads most held self.new × IsUnfinished most held)) }
        ensures halts { IfErr result (λ e. (held : List ℕ) → Reads most held self.old
            → HasStopped most held self.new e) }
    {
        match self.go_on(alloc, most) {
            Ok(Some(_)) if self.came > MAX_TEXT => Err(Halt::Refused(Refusal::TooLong, MAX_TEXT)),
            Ok(Some(value)) => {
                let len = self.came;
                self.came = 0;
                Ok(Some((value, len)))
            }
            Ok(None) if self.held() > MAX_TEXT as u64 => {
                Err(Halt::Refused(Refusal::TooLong, MAX_TEXT))
            }
            Ok(None) => {
                self.give_back();
                Ok(None)
            }
            Err(Halt::NoMemory) => Err(Halt::NoMemory),
            Err(Halt::Refused(refusal, place)) => {
                Err(Halt::Refused(told_at(refusal, place), place))
            }
        }
    }

    // The same, if it is a short command in its one spelling. `None`: nothing has changed.
    pub(crate) fn next_spelled(
        &mut self,
        most: u64,
    ) -> Result<Option<(SpelledCommand, usize)>, AllocError>
        requires good { IsGood most self.old }
        requires most { (max_words ≤ most) × (most < 2 ^ 32) }
        ensures good { IsGood most self.new }
        ensures value { IfOk result (λ o. IfSome o (λ x. (held : List ℕ) → Reads most held self.old
            → Gave most held (command_of x.0) x.1 self.new)) }
        ensures none { IfOk result (λ o. IfNone o (self.new ≡ self.old)) }
        ensures err { OnErr result (shown_progress self.new ≡ shown_progress self.old) }
    {
        if !self.is_fresh() {
            return Ok(None);
        }
        let Some(len) = spelled_len(self.pending.as_slice()) else {
            return Ok(None);
        };
        let text = self.pending.cut(self.room, len, len)?;
        self.seen = 0;
        Ok(Some((SpelledCommand::from_text(text), len)))
    }

    fn is_fresh(&self) -> bool
        ensures { result ≡ true → IsFresh self.now × (self.now.came ≡ 0) }
    {
        let Next::Head(head) = self.next else {
            return false;
        };
        let Head::Type = head else {
            return false;
        };
        self.came == 0 && self.done.is_none() && self.opens.is_empty()
    }

    fn go_on(&mut self, alloc: Global, most: u64) -> Result<Option<Value>, Halt>
        requires good { IsGood most self.old }
        ensures good { IsGood most self.new }
        ensures value { IfOk result (λ o. IfSome o (λ v. IsFresh self.new
            × LeadsToValue most self.old self.new (tree_of v))) }
        ensures none { IfOk result (λ o. IfNone o (LeadsTo most self.old self.new
            × IsShort most self.old)) }
        ensures halts { IfErr result (λ e. LeadsTo most self.old self.new
            × HaltsIn most self.old e) }
    {
        self.note_room();
        loop {
            match self.put_next(most) {
                Ok(Word::Last(value)) => return Ok(Some(value)),
                Ok(Word::Member) => continue,
                Ok(Word::Missing) => {}
                Err(_) => return Err(Halt::NoMemory),
            }
            if !self.turn(alloc, most)? {
                return Ok(None);
            }
        }
    }

    #[inline(always)]
    fn put_next(&mut self, most: u64) -> Result<Word, AllocError>
        requires good { IsGood most self.old }
        ensures good { IsGood most self.new }
        ensures last { IfOk result (λ w. IfLast w (λ v. IsFresh self.new
            × LeadsToValue most self.old self.new (tree_of v))) }
        ensures member { IfOk result (λ w. IfMember w (LeadsTo most self.old self.new
            × (to_do self.new < to_do self.old))) }
        ensures missing { IfOk result (λ w. IfMissing w ((self.new ≡ self.old)
            × (self.old.done ≡ None))) }
        ensures err { OnErr result (LeadsTo most self.old self.new) }
    {
        let Some(value) = self.take_value(most)? else {
            return Ok(Word::Missing);
        };
        match self.put_value(value)? {
            Some(value) => Ok(Word::Last(value)),
            None => Ok(Word::Member),
        }
    }

    // Takes the complete value that isn't in its list yet, or else a bulk string with a short head. `None`: nothing
    // has changed.
    #[inline(always)]
    fn take_value(&mut self, most: u64) -> Result<Option<Value>, AllocError>
        requires good { IsGood most self.old }
        ensures good { IsGood most self.new }
        ensures done { self.new.done ≡ None }
        ensures value { IfOk result (λ o. IfSome o (λ v.
            LeadsTo most self.old (with_done v self.new)
            × IsGood most (with_done v self.new)
            × (to_do self.new < to_do self.old))) }
        ensures missing { IfOk result (λ o. IfNone o (self.new ≡ self.old)) }
        ensures err { OnErr result (LeadsTo most self.old self.new) }
    {
        // (`take` would write it anew)
        if self.done.is_some() {
            return Ok(self.done.take());
        }
        match self.take_word(most)? {
            Some(word) => Ok(Some(Value::Bulk(word))),
            None => Ok(None),
        }
    }

    // Takes a bulk string with a short head in its one spelling. `None`: nothing has changed.
    #[inline(always)]
    fn take_word(&mut self, most: u64) -> Result<Option<Payload>, AllocError>
        requires good { IsGood most self.old }
        requires done { self.old.done ≡ None }
        ensures good { IsGood most self.new }
        ensures done { self.new.done ≡ None }
        ensures word { IfOk result (λ o. IfSome o (λ word.
            LeadsTo most self.old (with_done (Value.Bulk word) self.new)
            × (self.new.next ≡ Next.Head Head.Type)
            × (to_read self.new < to_read self.old))) }
        ensures missing { IfOk result (λ o. IfNone o (self.new ≡ self.old)) }
        ensures err { OnErr result (LeadsTo most self.old self.new) }
    {
        let Next::Head(due) = self.next else {
            return Ok(None);
        };
        let Head::Type = due else {
            return Ok(None);
        };
        let left = MAX_DEPTH - self.opens.len() as u32;
        let visible = self.pending.len().min(MAX_TEXT + 1 - self.came);
        let bytes = &self.pending.as_slice()[..visible];
        let Some((n, head)) = short_bulk(bytes, most, left) else {
            return Ok(None);
        };
        if head as u64 != digits(n).saturating_add(3) {
            return Ok(None);
        }
        let Ok((_, rest)) = take_payload(&bytes[head..], n) else {
            return Ok(None);
        };
        let len = visible - rest.len();
        let text = self.pending.cut(self.room, len, len)?;
        self.came += len;
        self.seen = 0;
        Ok(Some(Payload::in_text(head as u8, text)))
    }

    // True: what the last head or this one announced has come completely.
    fn turn(&mut self, alloc: Global, most: u64) -> Result<bool, Halt>
        requires good { IsGood most self.old }
        requires done { self.old.done ≡ None }
        ensures good { IsGood most self.new }
        ensures reads { LeadsTo most self.old self.new }
        ensures falls { IfOk result (λ came. came ≡ true → to_read self.new < to_read self.old) }
        ensures none { IfOk result (λ came. came ≡ false → IsShort most self.old) }
        ensures halts { IfErr result (λ e. HaltsIn most self.old e) }
    {
        match self.go_on_to_found(most)? {
            Some(found) => self.take_found(alloc, found, most),
            None => Ok(false),
        }
    }

    fn go_on_to_found(&mut self, most: u64) -> Result<Option<Found>, Halt>
        requires good { IsGood most self.old }
        requires done { self.old.done ≡ None }
        ensures good { IsGood most self.new }
        ensures reads { LeadsTo most self.old self.new }
        ensures falls { IfOk result (λ o. IfSome o (λ _. to_read self.new ≤ to_read self.old)) }
        ensures came { IfOk result (λ o. CameTo most self.old self.new o) }
        ensures halts { IfErr result (λ e. HaltsIn most self.old e) }
    {
        match self.next {
            Next::Head(head) => self.go_on_in_head(head, most),
            Next::Found(found) => Ok(Some(found)),
        }
    }

    fn go_on_in_head(&mut self, head: Head, most: u64) -> Result<Option<Found>, Halt>
        requires good { IsGood most self.old }
        requires head { (self.old.done ≡ None) × (self.old.next ≡ Next.Head head) }
        ensures good { IsGood most self.new }
        ensures reads { LeadsTo most self.old self.new }
        ensures falls { IfOk result (λ o. IfSome o (λ _. to_read self.new < to_read self.old)) }
        ensures came { IfOk result (λ o. CameTo most self.old self.new o) }
        ensures halts { IfErr result (λ e. HaltsIn most self.old e) }
    {
        let left = MAX_DEPTH - self.opens.len() as u32;
        let visible = self.pending.len().min(MAX_TEXT + 1 - self.came);
        match read_head(head, &self.pending.as_slice()[..visible], most, left) {
            Ok((next, taken)) => {
                self.pending.advance(taken);
                self.came += taken;
                self.seen = 0;
                self.next = next;
                match next {
                    Next::Head(_) => Ok(None),
                    Next::Found(found) => Ok(Some(found)),
                }
            }
            Err(RefusedByte(refusal, place)) => Err(Halt::Refused(refusal, self.came + place)),
        }
    }

    // True: it has come completely.
    fn take_found(&mut self, alloc: Global, found: Found, most: u64) -> Result<bool, Halt>
        requires good { IsGood most self.old }
        requires next { (self.old.done ≡ None) × (self.old.next ≡ Next.Found found) }
        ensures good { IsGood most self.new }
        ensures falls { IfOk result (λ came. came ≡ true → to_read self.new < to_read self.old) }
        ensures reads { LeadsTo most self.old self.new }
        ensures none { IfOk result (λ came. came ≡ false → IsShort most self.old) }
        ensures halts { IfErr result (λ e. HaltsIn most self.old e) }
    {
        match found {
            Found::Line(line) => return self.take_line(line, most),
            Found::Payload(n) => return self.take_bulk(n, most),
            Found::Members(n) => {
                if self.open_list(alloc, most, n).is_err() {
                    return Err(Halt::NoMemory);
                }
            }
            Found::NullBulk => self.finish(Value::NullBulk),
            Found::NullList => self.finish(Value::NullList),
            Found::Whole(n) => self.finish(Value::Whole(n)),
        }
        Ok(true)
    }

    fn finish(&mut self, value: Value)
        ensures done { self.new.done ≡ Some value }
        ensures next { self.new.next ≡ Next.Head Head.Type }
        ensures same { (self.new.pending ≡ self.old.pending) × (self.new.opens ≡ self.old.opens) }
        ensures seen { (self.new.seen ≡ self.old.seen) × (self.new.came ≡ self.old.came) }
        ensures needed { self.new.needed ≡ 0 }
    {
        drop(self.done.replace(value));
        self.next = Next::Head(Head::Type);
        self.needed = 0;
    }

    // Closes the lists that the value completes. Returns the outermost value if it is complete.
    #[inline(always)]
    fn put_value(&mut self, value: Value) -> Result<Option<Value>, AllocError>
        requires done { self.old.done ≡ None }
        ensures puts { (most : ℕ) → IsGood most (with_done value self.old)
            → ClosesLists most (with_done value self.old) self.new result }
        ensures none { OnOk result (self.new.done ≡ None) }
        ensures pending { self.new.pending ≡ self.old.pending }
        ensures next { self.new.next ≡ self.old.next }
        ensures came { self.new.came ≡ self.old.came }
    {
        match put(&mut self.opens, value) {
            Ok(done) => Ok(done),
            Err(failed) => {
                drop(self.done.replace(failed.value));
                Err(AllocError)
            }
        }
    }

    fn open_list(&mut self, alloc: Global, most: u64, n: u64) -> Result<(), AllocError>
        requires good { IsGood most self.old }
        requires next { (self.old.done ≡ None) × (self.old.next ≡ Next.Found (Found.Members n)) }
        ensures good { IsGood most self.new }
        ensures next { OnOk result (self.new.next ≡ Next.Head Head.Type) }
        ensures fewer { self.new.pending ≡ self.old.pending }
        ensures reads { LeadsTo most self.old self.new }
    {
        if n == 0 {
            self.finish(Value::List(Values(Vec::new(alloc))));
            return Ok(());
        }
        let members = Vec::with_capacity(alloc, MAX_RESERVED.min(n as usize))?;
        let list = Begun {
            members: Values(members),
            due: n - 1,
        };
        if self.opens.push(list).is_err() {
            return Err(AllocError);
        }
        self.next = Next::Head(Head::Type);
        Ok(())
    }

    fn take_bulk(&mut self, n: u64, most: u64) -> Result<bool, Halt>
        requires good { IsGood most self.old }
        requires next { (self.old.done ≡ None) × (self.old.next ≡ Next.Found (Found.Payload n)) }
        ensures good { IsGood most self.new }
        ensures falls { IfOk result (λ came. came ≡ true → to_read self.new < to_read self.old) }
        ensures reads { LeadsTo most self.old self.new }
        ensures none { IfOk result (λ came. came ≡ false → IsShort most self.old) }
        ensures halts { IfErr result (λ e. HaltsIn most self.old e) }
    {
        let visible = self.pending.len().min(MAX_TEXT + 1 - self.came);
        match take_payload(&self.pending.as_slice()[..visible], n) {
            Ok((payload, rest)) => {
                let len = payload.len();
                let taken = visible - rest.len();
                let Ok(payload) = self.pending.cut(self.room, len, taken) else {
                    return Err(Halt::NoMemory);
                };
                self.came += taken;
                self.seen = 0;
                self.finish(Value::Bulk(Payload::new(payload)));
                Ok(true)
            }
            Err(Stop::Unfinished) => {
                self.needed = (n as usize).min(MAX_TEXT + 1 - self.came);
                Ok(false)
            }
            Err(Stop::Refused(refusal, rest)) => {
                let place = visible - rest.len();
                Err(Halt::Refused(refusal, self.came + place))
            }
        }
    }

    fn take_line(&mut self, line: Line, most: u64) -> Result<bool, Halt>
        requires good { IsGood most self.old }
        requires next { (self.old.done ≡ None) × (self.old.next ≡ Next.Found (Found.Line line)) }
        ensures good { IsGood most self.new }
        ensures falls { IfOk result (λ came. came ≡ true → to_read self.new < to_read self.old) }
        ensures reads { LeadsTo most self.old self.new }
        ensures none { IfOk result (λ came. came ≡ false → IsShort most self.old) }
        ensures halts { IfErr result (λ e. HaltsIn most self.old e) }
    {
        let visible = self.pending.len().min(MAX_TEXT + 1 - self.came);
        match take_text(&self.pending.as_slice()[..visible], self.seen) {
            Ok((text, rest)) => {
                let len = text.len();
                let taken = visible - rest.len();
                let Ok(text) = self.pending.cut(self.room, len, taken) else {
                    return Err(Halt::NoMemory);
                };
                self.came += taken;
                self.seen = 0;
                self.finish(line.value(text));
                Ok(true)
            }
            Err(Stop::Unfinished) => {
                // (the last byte can be the CR of the line's end)
                self.seen = visible.saturating_sub(1);
                Ok(false)
            }
            Err(Stop::Refused(refusal, rest)) => {
                let place = visible - rest.len();
                Err(Halt::Refused(refusal, self.came + place))
            }
        }
    }
}
