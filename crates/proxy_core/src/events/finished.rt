//! The input of a connection ends.
ghost use Rattle.std.specs.Prelude.{◌≡◌, IfOk, IfErr};
ghost use Rattle.proxy_history.specs.declared.answer.Answer.TheVariants as answers;
ghost use Rattle.proxy_history.specs.declared.event.Event.TheVariants as events;
ghost use Rattle.proxy_core.specs.Connections.{with_connection, finished_connection};
ghost use Rattle.proxy_core.specs.Core.{IsMade, IsLeft};
ghost use Rattle.proxy_core.specs.Machine.{memory_in, IsDone, IsSame, HasCauseIn, IsKept};

use crate::machine::{Done, Machine, make_room};
use crate::refused::Refused;
use proxy_history::{Answer, Event, Refusal};

impl Machine {
    pub(crate) fn turn_finished(&mut self, pass: u64, conn: u64) -> Result<Answer, Refused>
        requires { IsKept self.old }
        ensures answered { IfOk result
            (λ a. IsMade self.old self.new pass (events.Finished conn) a) }
        ensures refused { IfErr result (λ r. IsLeft self.old self.new (events.Finished conn) r) }
    {
        let done = self.finish(conn);
        self.add_step(pass, Event::Finished { conn }, done)
    }

    /// The connection accepts no further command.
    pub(crate) fn finish(&mut self, conn: u64) -> Result<Done, Refusal>
        ensures done { IfOk result (λ d. (d.answer ≡ answers.Finishing)
            × IsDone self.old self.new (events.Finished conn) d (record (memory_in self.old) {
              connections = with_connection finished_connection conn self.old.connections.numbered;
            })) }
        ensures refused { IfErr result (λ r. IsSame self.old self.new
            × HasCauseIn self.old (events.Finished conn) r) }
    {
        let Some(connection) = self.connections.get(conn) else {
            return Err(Refusal::NoSuchConnection);
        };
        if connection.is_finishing {
            return Err(Refusal::Finishing);
        }
        make_room(&mut self.journal, 0)?;
        self.connections.finish(conn);
        Ok(Done {
            answer: Answer::Finishing,
            recorded: Answer::Finishing,
            bytes: 0,
        })
    }
}
