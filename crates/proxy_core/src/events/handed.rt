ghost use Rattle.std.specs.Prelude.{◌≡◌, length, Some, IfOk, IfErr, IfSome, IsSome, IsTrue, OnErr};
ghost use Rattle.std.specs.Option.{option_map};
ghost use Rattle.resp_core.specs.Text.{text};
ghost use Rattle.resp_core.specs.Tree.{is_plain_tree};
ghost use Rattle.resp_core.specs.Value.{tree_of};
ghost use Rattle.reply_queue.specs.Queue.{front_reply};
ghost use Rattle.proxy_history.specs.declared.answer.Answer.TheVariants as answers;
ghost use Rattle.proxy_history.specs.declared.event.Event.TheVariants as events;
ghost use Rattle.proxy_core.specs.Connections.{connection_without_front, with_connection, connection_at, reply_in};
ghost use Rattle.proxy_core.specs.Core.{IsMade, IsLeft};
ghost use Rattle.proxy_core.specs.Machine.{memory_in, text_in, IsDone, IsSame, IsReady, HasCauseIn, IsKept};

use crate::machine::{Done, Machine, make_room};
use crate::refused::Refused;
use bytes::Bytes;
use proxy_history::{Answer, Event, Refusal};
use reply_queue::Queue;
use resp_core::{Texts, Value};
use std::alloc::AllocError;

impl Machine {
    #[inline(always)]
    pub(crate) fn turn_handed(&mut self, pass: u64, conn: u64) -> Result<Answer, Refused>
        requires { IsKept self.old }
        ensures answered { IfOk result (λ a. IsMade self.old self.new pass (events.Handed conn) a) }
        ensures refused { IfErr result (λ r. IsLeft self.old self.new (events.Handed conn) r) }
    {
        let done = self.hand(conn);
        self.add_step(pass, Event::Handed { conn }, done)
    }

    /// Hands out the reply to the oldest command of the connection.
    pub(crate) fn hand(&mut self, conn: u64) -> Result<Done, Refusal>
        requires plain { IfSome (reply_in (connection_at conn self.old.connections.numbered))
            (λ v. IsTrue (is_plain_tree v)) }
        ensures done { IfOk result
            (λ d. (d.answer ≡ answers.Bytes (text_in (memory_in self.old) (events.Handed conn)))
            × IsDone self.old self.new (events.Handed conn) d (record (memory_in self.old) {
              connections = with_connection connection_without_front conn
                  self.old.connections.numbered;
            })) }
        ensures refused { IfErr result (λ r. IsSame self.old self.new
            × HasCauseIn self.old (events.Handed conn) r) }
    {
        let (text, shared) = self.ready_to_hand(conn)?;
        self.connections.hand(conn);
        let bytes = text.len() as u64;
        Ok(Done {
            answer: Answer::Bytes { text },
            recorded: Answer::Bytes { text: shared },
            bytes,
        })
    }

    // Looks for a cause, gets the reply's text, makes room, and shares the text.
    fn ready_to_hand(&mut self, conn: u64) -> Result<(Bytes, Bytes), Refusal>
        requires plain { IfSome (reply_in (connection_at conn self.old.connections.numbered))
            (λ v. IsTrue (is_plain_tree v)) }
        ensures ready { IfOk result
            (λ texts. (texts.0 ≡ text_in (memory_in self.old) (events.Handed conn))
            × (texts.1 ≡ text_in (memory_in self.old) (events.Handed conn))
            × IsReady self.old self.new (events.Handed conn)) }
        ensures refused { IfErr result (λ r. IsSame self.old self.new
            × HasCauseIn self.old (events.Handed conn) r) }
    {
        let Some(connection) = self.connections.get(conn) else {
            return Err(Refusal::NoSuchConnection);
        };
        let Some(text) = front_text(&mut self.texts, &connection.queue)? else {
            let left = connection.queue.left() as u64;
            return Err(Refusal::NotReady { left });
        };
        if let Err(cause) = make_room(&mut self.journal, text.len() as u64) {
            drop(text);
            return Err(cause);
        }
        match text.clone() {
            Ok(shared) => Ok((text, shared)),
            Err(_) => {
                drop(text);
                Err(Refusal::NoMemory)
            }
        }
    }
}

// The text of the reply to the oldest command, if it has come; it must be plain. A reply of one value isn't copied
// before.
fn front_text(texts: &mut Texts, queue: &Queue) -> Result<Option<Bytes>, AllocError>
    requires plain { IfSome (front_reply queue.now.commands) (λ v. IsTrue (is_plain_tree v)) }
    ensures text { IfOk result (λ o. o ≡ option_map text (front_reply queue.now.commands)) }
    ensures ready { OnErr result (IsSome (front_reply queue.now.commands)) }
{
    if let Some(reply) = queue.same_front() {
        return some_text(texts, reply);
    }
    match queue.front() {
        Ok(Some(reply)) => {
            let text = some_text(texts, &reply);
            drop(reply);
            text
        }
        Ok(None) => Ok(None),
        Err(_) => Err(AllocError),
    }
}

fn some_text(texts: &mut Texts, reply: &Value) -> Result<Option<Bytes>, AllocError>
    requires plain { IsTrue (is_plain_tree (tree_of reply.now)) }
    ensures text { IfOk result (λ o. o ≡ Some (text (tree_of reply.now))) }
{
    match texts.text_of(reply, reply.text_len()) {
        Ok(text) => Ok(Some(text)),
        Err(error) => Err(error),
    }
}
