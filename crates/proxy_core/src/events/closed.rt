ghost use Rattle.std.specs.Prelude.{ℕ, ◌≡◌, ◌<◌, ◌+◌, ◌^◌, map, IfOk, IfErr};
ghost use Rattle.proxy_history.specs.declared.answer.Answer.TheVariants as answers;
ghost use Rattle.proxy_history.specs.declared.event.Event.TheVariants as events;
ghost use Rattle.proxy_history.specs.Value.{upstream_failure};
ghost use Rattle.proxy_core.specs.Connections.{AreAwaited, connections_without};
ghost use Rattle.proxy_core.specs.Pipelines.{lost_owners, without_connection, pipeline_at};
ghost use Rattle.proxy_core.specs.Core.{IsMade, IsLeft};
ghost use Rattle.proxy_core.specs.Machine.{memory_in, IsDone, IsSame, HasCauseIn, IsKept};

use crate::machine::{Done, Machine, make_room};
use crate::refused::Refused;
use crate::state::connections::Connections;
use crate::state::pipelines::Pipelines;
use proxy_history::{Answer, Event, Refusal};

impl Machine {
    pub(crate) fn turn_closed(&mut self, pass: u64, conn: u64) -> Result<Answer, Refused>
        requires { IsKept self.old }
        ensures answered { IfOk result (λ a. IsMade self.old self.new pass (events.Closed conn) a) }
        ensures refused { IfErr result (λ r. IsLeft self.old self.new (events.Closed conn) r) }
    {
        let done = self.close(conn);
        self.add_step(pass, Event::Closed { conn }, done)
    }

    /// Closes a connection: its waiting parts are dropped, and the replies to its flying ones are discarded.
    pub(crate) fn close(&mut self, conn: u64) -> Result<Done, Refusal>
        requires closed { self.old.connections.closed + 1 < 2 ^ 64 }
        requires awaited { (h : ℕ)
            → AreAwaited (lost_owners (pipeline_at h (memory_in self.old).pipelines))
            upstream_failure
            self.old.connections.numbered }
        ensures done { IfOk result (λ d. (d.answer ≡ answers.Closed)
            × IsDone self.old self.new (events.Closed conn) d (record (memory_in self.old) {
              connections = connections_without conn self.old.connections.numbered;
              closed = self.old.connections.closed + 1;
              pipelines = map (without_connection conn) (memory_in self.old).pipelines;
            })) }
        ensures refused { IfErr result (λ r. IsSame self.old self.new
            × HasCauseIn self.old (events.Closed conn) r) }
    {
        if self.connections.get(conn).is_none() {
            return Err(Refusal::NoSuchConnection);
        }
        make_room(&mut self.journal, 0)?;
        forget_parts(&mut self.pipelines, &self.connections, conn);
        self.connections.close(conn);
        Ok(Done {
            answer: Answer::Closed,
            recorded: Answer::Closed,
            bytes: 0,
        })
    }
}

// Forgets the connection's parts. If all its commands are handed out it has none, and no pipe is looked at.
fn forget_parts(pipelines: &mut Pipelines, connections: &Connections, conn: u64)
    requires awaited { (h : ℕ)
        → AreAwaited (lost_owners (pipeline_at h pipelines.old.states)) upstream_failure
        connections.now.numbered }
    ensures { pipelines.new.states ≡ map (without_connection conn) pipelines.old.states }
{
    if connections.left(conn) > 0 {
        pipelines.forget(conn);
    }
}
