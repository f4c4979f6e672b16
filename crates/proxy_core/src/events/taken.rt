ghost use Rattle.std.specs.Prelude.{◌≡◌, ◌<◌, ◌+◌, ◌^◌, ◌≢◌, [], length, IfOk, IfErr, OnOk};
ghost use Rattle.proxy_history.specs.Setting.{hosts};
ghost use Rattle.proxy_history.specs.declared.answer.Answer.TheVariants as answers;
ghost use Rattle.proxy_history.specs.declared.event.Event.TheVariants as events;
ghost use Rattle.proxy_core.specs.Pipelines.{taken_from, with_pipeline, pipeline_at};
ghost use Rattle.proxy_core.specs.Core.{IsMade, IsLeft};
ghost use Rattle.proxy_core.specs.Machine.{setting_in, memory_in, text_in, IsDone, IsSame, IsReady, HasCauseIn, IsKept};

use crate::machine::{Done, Machine, make_room};
use crate::refused::Refused;
use bytes::Bytes;
use proxy_history::{Answer, Event, Refusal};
use upstream_pipe::Part;

impl Machine {
    #[inline(always)]
    pub(crate) fn turn_taken(&mut self, pass: u64, host: usize) -> Result<Answer, Refused>
        requires { IsKept self.old }
        ensures answered { IfOk result (λ a. IsMade self.old self.new pass (events.Taken host) a) }
        ensures refused { IfErr result (λ r. IsLeft self.old self.new (events.Taken host) r) }
    {
        let done = self.take(host);
        self.add_step(pass, Event::Taken { host }, done)
    }

    /// Takes the oldest part that waits for the host; it flies from now on.
    pub(crate) fn take(&mut self, host: usize) -> Result<Done, Refusal>
        requires hosts { length self.old.pipelines.states ≡ hosts (setting_in self.old) }
        requires taken { (pipeline_at host (memory_in self.old).pipelines).taken + 1 < 2 ^ 64 }
        ensures done { IfOk result
            (λ d. (d.answer ≡ answers.Sent (pipeline_at host (memory_in self.old).pipelines).epoch
            (pipeline_at host (memory_in self.old).pipelines).taken
            (text_in (memory_in self.old) (events.Taken host)))
            × IsDone self.old self.new (events.Taken host) d
            (record (memory_in self.old) {
              pipelines = with_pipeline taken_from host (memory_in self.old).pipelines;
            })) }
        ensures refused { IfErr result (λ r. IsSame self.old self.new
            × HasCauseIn self.old (events.Taken host) r) }
    {
        let shared = self.ready_to_take(host)?;
        let (epoch, place) = (self.pipelines.epoch(host), self.pipelines.taken(host));
        let Some(Part { text, .. }) = self.pipelines.take(host) else {
            unreachable!()
        };
        let bytes = text.len() as u64;
        let recorded = Answer::Sent {
            epoch,
            place,
            text: shared,
        };
        Ok(Done {
            answer: Answer::Sent { epoch, place, text },
            recorded,
            bytes,
        })
    }

    // Looks for a cause, shares the text of the part, and makes room.
    fn ready_to_take(&mut self, host: usize) -> Result<Bytes, Refusal>
        requires hosts { length self.old.pipelines.states ≡ hosts (setting_in self.old) }
        ensures ready { IfOk result
            (λ text. (text ≡ text_in (memory_in self.old) (events.Taken host))
            × IsReady self.old self.new (events.Taken host)) }
        ensures waits { OnOk result
            ((pipeline_at host self.new.pipelines.states).waiting ≢ []) }
        ensures refused { IfErr result (λ r. IsSame self.old self.new
            × HasCauseIn self.old (events.Taken host) r) }
    {
        if host >= self.pipelines.len() {
            return Err(Refusal::NoSuchHost);
        }
        let Some(part) = self.pipelines.oldest(host) else {
            return Err(Refusal::NothingWaiting);
        };
        make_room(&mut self.journal, part.text.len() as u64)?;
        match part.text.clone() {
            Ok(text) => Ok(text),
            Err(_) => Err(Refusal::NoMemory),
        }
    }
}
