ghost use Rattle.std.specs.Prelude.{◌≡◌, [], IfOk, IfErr, OnErr, true, map, length, pos};
ghost use Rattle.resp_core.specs.Value.{tree_of};
ghost use Rattle.resp_core.specs.Tree.{whole, fault};
ghost use Rattle.stub_server.specs.Command.{takes};
ghost use Rattle.resp_core.specs.Command.{are_words, payload_of};
ghost use Rattle.stub_server.specs.Map.{value_at, with_value, map_without, count_among};
ghost use Rattle.stub_server.specs.Script.{IsResponse, act_of, acts_after, map_by};
ghost use Rattle.stub_server.specs.Table.{answer_of, map_after, outcome_of_words, outcome_by, incremented_reply, number_at, bulk_of, ok_reply};

use crate::command::{Command, command_named};
use crate::error::StubError;
use crate::map::{Entry, count_among, count_keys, put, take_out, value_at};
use crate::number::{number_in, spelling};
use crate::script::{Act, Script};
use crate::words::keys_of;
use bytes::Bytes;
use resp_core::{Payload, Value, Values};
use std::alloc::Global;
use std::marker::Model;

/// A Redis host in memory: a map from keys to byte strings, and a script.
pub struct Stub {
    alloc: Global,
    entries: Vec<Entry>,
    script: Script,
}

impl Drop for Stub {
    fn drop(self) {
        let Stub {
            alloc: _,
            entries: _,
            script: _,
        } = self;
    }
}

impl Model for Stub {
    ghost use Rattle.stub_server.specs.Script.{StubState};

    ghost Value = { StubState };

    ghost view = { λ s. record { map = s.entries.items; script = s.script } };
}

/// The response to a request.
#[derive(Drop)]
pub enum Response {
    /// The answer to the request.
    Answer(Value),
    /// Nothing: it stays unanswered.
    Silence,
    /// The end of the link.
    End,
    /// Bytes that are no reply.
    Garbage,
}

impl Stub {
    /// A stub with an empty map and an empty script.
    pub fn new(alloc: Global) -> Stub
        ensures map { result.map ≡ [] }
        ensures script { result.script ≡ [] }
    {
        Stub {
            alloc,
            entries: Vec::new(alloc),
            script: Script::new(Vec::new(alloc)),
        }
    }

    /// Handles the next requests by these acts, one each, and later ones by `Act::Reply`. The rest of an earlier
    /// script is forgotten.
    pub fn script(&mut self, acts: Vec<Act>)
        ensures script { self.new.script ≡ acts.items }
        ensures map { self.new.map ≡ self.old.map }
    {
        self.script = Script::new(acts);
    }

    /// Handles a request by the script's next act; `Act::Hold` is also the act of all later requests.
    ///
    /// Refused 1501 (no memory): nothing has changed.
    pub fn serve(&mut self, request: &Value) -> Result<Response, StubError>
        ensures response { IfOk result
            (λ response. IsResponse (act_of self.old.script) self.old.map
            (tree_of request.now) response) }
        ensures map { IfOk result
            (λ _. self.new.map ≡ map_by (act_of self.old.script) self.old.map
            (tree_of request.now)) }
        ensures script { IfOk result (λ _. self.new.script ≡ acts_after self.old.script) }
        ensures err { OnErr result (self.new ≡ self.old) }
        ensures memory { IfErr result (λ e. e ≡ StubError.NoMemory) }
    {
        let response = match self.script.act() {
            Act::Reply => Response::Answer(self.answer(request)?),
            Act::Hold => Response::Silence,
            Act::Drop => Response::End,
            Act::Garble => Response::Garbage,
        };
        self.script.advance();
        Ok(response)
    }

    /// Answers the request by the table of commands, and changes the map:
    ///
    /// - GET key: the value as a bulk string, or the null bulk string.
    /// - SET key value: simple `OK`.
    /// - DEL or UNLINK key ..: the number of keys removed.
    /// - EXISTS or TOUCH key ..: the number of words that are keys, repeats counted.
    /// - INCR key: the number at the key, raised by one; a missing key counts as 0. The value must be the one decimal
    ///   spelling of a signed 64-bit number below the greatest, or else `ERR value is not an integer or out of range`.
    /// - Another number of words: `ERR wrong number of arguments`.
    /// - Any other request: `ERR unknown command`.
    ///
    /// Names are compared without ASCII case. The script is neither read nor changed. Refused 1501 (no memory): the map
    /// is unchanged.
    pub fn answer(&mut self, request: &Value) -> Result<Value, StubError>
        ensures answer { IfOk result
            (λ answer. tree_of answer ≡ answer_of self.old.map (tree_of request.now)) }
        ensures map { IfOk result
            (λ _. self.new.map ≡ map_after self.old.map (tree_of request.now)) }
        ensures script { self.new.script ≡ self.old.script }
        ensures err { OnErr result (self.new ≡ self.old) }
        ensures memory { IfErr result (λ e. e ≡ StubError.NoMemory) }
    {
        match request.words() {
            Some(words) => answer_words(self.alloc, &mut self.entries, words),
            None => Ok(fault(b"ERR unknown command")),
        }
    }
}

fn answer_words(alloc: Global, entries: &mut Vec<Entry>, words: &Values) -> Result<Value, StubError>
    requires { are_words words.now ≡ true }
    ensures answer { IfOk result
        (λ answer. tree_of answer ≡
        (outcome_of_words entries.old.items (map payload_of words.now)).answer) }
    ensures map { IfOk result
        (λ _. entries.new.items ≡
        (outcome_of_words entries.old.items (map payload_of words.now)).map) }
    ensures err { OnErr result (entries.new.items ≡ entries.old.items) }
    ensures memory { IfErr result (λ e. e ≡ StubError.NoMemory) }
{
    let Some(command) = command_named(words.word(0).as_slice()) else {
        return Ok(fault(b"ERR unknown command"));
    };
    if !command.takes(words.0.len()) {
        return Ok(fault(b"ERR wrong number of arguments"));
    }
    answer_command(alloc, entries, command, words)
}

fn answer_command(
    alloc: Global,
    entries: &mut Vec<Entry>,
    command: Command,
    words: &Values,
) -> Result<Value, StubError>
    requires words { are_words words.now ≡ true }
    requires count { takes command (length words.now) ≡ true }
    ensures answer { IfOk result
        (λ answer. tree_of answer ≡
        (outcome_by entries.old.items command (map payload_of words.now)).answer) }
    ensures map { IfOk result
        (λ _. entries.new.items ≡
        (outcome_by entries.old.items command (map payload_of words.now)).map) }
    ensures err { OnErr result (entries.new.items ≡ entries.old.items) }
    ensures memory { IfErr result (λ e. e ≡ StubError.NoMemory) }
{
    match command {
        Command::Get => get(entries, words.word(1)),
        Command::Set => set(entries, words.word(1), words.word(2)),
        Command::Del => delete(entries, keys_of(words)),
        Command::Exists => count_answer(count_keys(entries, keys_of(words))),
        Command::Incr => increment(alloc, entries, words.word(1)),
    }
}

fn get(entries: &[Entry], key: &Payload) -> Result<Value, StubError>
    ensures answer { IfOk result
        (λ answer. tree_of answer ≡ bulk_of (value_at key.now entries.now)) }
    ensures memory { IfErr result (λ e. e ≡ StubError.NoMemory) }
{
    match value_at(entries, key.as_slice()) {
        Some(value) => Ok(Value::Bulk(Payload::new(value.clone()?))),
        None => Ok(Value::NullBulk),
    }
}

fn set(entries: &mut Vec<Entry>, key: &Payload, value: &Payload) -> Result<Value, StubError>
    ensures answer { IfOk result (λ answer. tree_of answer ≡ ok_reply) }
    ensures map { IfOk result
        (λ _. entries.new.items ≡ with_value key.now value.now entries.old.items) }
    ensures err { OnErr result (entries.new.items ≡ entries.old.items) }
    ensures memory { IfErr result (λ e. e ≡ StubError.NoMemory) }
{
    put(entries, key.bytes()?, value.bytes()?)?;
    Ok(Value::Simple(Bytes::from_static(b"OK")))
}

fn delete(entries: &mut Vec<Entry>, keys: &[Value]) -> Result<Value, StubError>
    ensures answer { IfOk result
        (λ answer. tree_of answer ≡ whole
        (pos (count_among (map payload_of (map tree_of keys.now)) entries.old.items))) }
    ensures map { IfOk result
        (λ _. entries.new.items
        ≡ map_without (map payload_of (map tree_of keys.now)) entries.old.items) }
    ensures err { OnErr result (entries.new.items ≡ entries.old.items) }
    ensures memory { IfErr result (λ e. e ≡ StubError.NoMemory) }
{
    let answer = count_answer(count_among(entries, keys))?;
    take_out(entries, keys);
    Ok(answer)
}

fn increment(alloc: Global, entries: &mut Vec<Entry>, key: &Payload) -> Result<Value, StubError>
    ensures answer { IfOk result
        (λ answer. tree_of answer ≡
        (incremented_reply entries.old.items key.now
        (number_at key.now entries.old.items)).answer) }
    ensures map { IfOk result
        (λ _. entries.new.items ≡
        (incremented_reply entries.old.items key.now (number_at key.now entries.old.items)).map) }
    ensures err { OnErr result (entries.new.items ≡ entries.old.items) }
    ensures memory { IfErr result (λ e. e ≡ StubError.NoMemory) }
{
    let Some(number) = number_at(alloc, entries, key.as_slice())? else {
        return Ok(fault(b"ERR value is not an integer or out of range"));
    };
    let Some(next) = number.checked_add(1) else {
        return Ok(fault(b"ERR value is not an integer or out of range"));
    };
    put(entries, key.bytes()?, spelling(alloc, next)?)?;
    Ok(Value::Whole(next))
}

// 0 if the key is missing, or `None` if the value is no number.
fn number_at(alloc: Global, entries: &[Entry], key: &[u8]) -> Result<Option<i64>, StubError>
    ensures number { IfOk result (λ number. number ≡ number_at key.now entries.now) }
    ensures memory { IfErr result (λ e. e ≡ StubError.NoMemory) }
{
    match value_at(entries, key) {
        Some(value) => number_in(alloc, value.as_slice()),
        None => Ok(Some(0)),
    }
}

// Memory has room for fewer entries and words than an integer can count.
fn count_answer(count: usize) -> Result<Value, StubError>
    ensures answer { IfOk result (λ answer. tree_of answer ≡ whole (pos count)) }
    ensures memory { IfErr result (λ e. e ≡ StubError.NoMemory) }
{
    match i64::try_from(count) {
        Ok(count) => Ok(Value::Whole(count)),
        Err(_) => Err(StubError::NoMemory),
    }
}

fn fault(text: &'static [u8]) -> Value
    ensures { tree_of result ≡ fault text.now }
{
    Value::Fault(Bytes::from_static(text))
}
