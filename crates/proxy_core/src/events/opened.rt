ghost use Rattle.std.specs.Prelude.{◌≡◌, ◌++◌, ◌∷◌, [], Some, length, IfOk, IfErr};
ghost use Rattle.proxy_history.specs.declared.answer.Answer.TheVariants as answers;
ghost use Rattle.proxy_history.specs.declared.event.Event.TheVariants as events;
ghost use Rattle.proxy_core.specs.Connections.{fresh_connection};
ghost use Rattle.proxy_core.specs.Core.{IsMade, IsLeft};
ghost use Rattle.proxy_core.specs.Machine.{memory_in, IsDone, IsSame, HasCauseIn, IsKept};

use crate::machine::{Done, Machine, make_room};
use crate::refused::Refused;
use limits::MAX_CONNECTIONS;
use proxy_history::{Answer, Event, Refusal};

impl Machine {
    pub(crate) fn turn_opened(&mut self, pass: u64) -> Result<Answer, Refused>
        requires { IsKept self.old }
        ensures answered { IfOk result (λ a. IsMade self.old self.new pass events.Opened a) }
        ensures refused { IfErr result (λ r. IsLeft self.old self.new events.Opened r) }
    {
        let done = self.open();
        self.add_step(pass, Event::Opened, done)
    }

    /// Opens a connection. Its number is the number of connections opened before.
    pub(crate) fn open(&mut self) -> Result<Done, Refusal>
        ensures done { IfOk result
            (λ d. (d.answer ≡ answers.Opened (length self.old.connections.numbered))
            × IsDone self.old self.new events.Opened d (record (memory_in self.old) {
              connections = self.old.connections.numbered ++ Some fresh_connection ∷ [];
            })) }
        ensures refused { IfErr result (λ r. IsSame self.old self.new
            × HasCauseIn self.old events.Opened r) }
    {
        if self.connections.open_count() >= MAX_CONNECTIONS {
            return Err(Refusal::TooManyConnections);
        }
        make_room(&mut self.journal, 0)?;
        let conn = self.connections.open()?;
        Ok(Done {
            answer: Answer::Opened { conn },
            recorded: Answer::Opened { conn },
            bytes: 0,
        })
    }
}
