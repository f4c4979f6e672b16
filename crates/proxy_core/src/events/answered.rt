ghost use Rattle.std.specs.Prelude.{◌≡◌, ◌<◌, ◌⊎◌, ◌∷◌, Some, List, length, IfOk, IfErr, OnOk};
ghost use Rattle.journal_core.specs.Journal.{IsFull};
ghost use Rattle.resp_core.specs.Value.{tree_of};
ghost use Rattle.ejector.specs.declared.mark.Mark.{Mark};
ghost use Rattle.ejector.specs.declared.mark.Mark.TheVariants as marks';
ghost use Rattle.ejector.specs.State.{State};
ghost use Rattle.ejector.specs.Ejection.{state, trip};
ghost use Rattle.ejector.specs.Ejector.{result_mark};
ghost use Rattle.proxy_history.specs.Setting.{hosts};
ghost use Rattle.proxy_history.specs.declared.answer.Answer.TheVariants as answers;
ghost use Rattle.proxy_history.specs.declared.event.Event.TheVariants as events;
ghost use Rattle.proxy_core.specs.Connections.{AreAwaited, answered_parts};
ghost use Rattle.proxy_core.specs.Pipelines.{answered_by, next_owner, with_pipeline, pipeline_at};
ghost use Rattle.proxy_core.specs.Core.{IsMade, IsLeft};
ghost use Rattle.proxy_core.specs.Machine.{own_cause_in, setting_in, memory_in, IsDone, IsSame, HasCauseIn, IsKept};

use crate::machine::{Done, HostEpoch, Machine, make_room};
use crate::refused::Refused;
use ejector::{Ejector, Trip};
use proxy_history::{Answer, Event, Refusal};
use resp_core::Value;

impl Machine {
    #[inline(always)]
    pub(crate) fn turn_answered(
        &mut self,
        pass: u64,
        origin: HostEpoch,
        value: Value,
        t: u64,
    ) -> Result<Answer, Refused>
        requires { IsKept self.old }
        ensures answered { IfOk result (λ a. IsMade self.old self.new pass
            (events.Answered origin.host origin.epoch value t) a) }
        ensures refused { IfErr result
            (λ r. IsLeft self.old self.new (events.Answered origin.host origin.epoch value t) r) }
    {
        let HostEpoch { host, epoch } = origin;
        let done = self.answer(host, epoch, &value, t);
        self.add_step(
            pass,
            Event::Answered {
                host,
                epoch,
                value,
                t,
            },
            done,
        )
    }

    /// A host answered: its reply belongs to the oldest part that flies.
    pub(crate) fn answer(
        &mut self,
        host: usize,
        epoch: u64,
        value: &Value,
        t: u64,
    ) -> Result<Done, Refusal>
        requires hosts { length self.old.pipelines.states ≡ hosts (setting_in self.old) }
        requires awaited { AreAwaited
            (next_owner (pipeline_at host (memory_in self.old).pipelines).flying)
            (tree_of value.now) self.old.connections.numbered }
        ensures done { IfOk result
            (λ d. IsDone self.old self.new (events.Answered host epoch value.now t) d
            (record (memory_in self.old) {
              connections = answered_parts
                  (next_owner (pipeline_at host (memory_in self.old).pipelines).flying)
                  (tree_of value.now) self.old.connections.numbered;
              pipelines = with_pipeline answered_by host (memory_in self.old).pipelines;
              hosts = self.new.ejector.state;
            })) }
        ensures matched { IfOk result (λ d. (O : State) (marks : List Mark)
            → state self.old.ejector.rules O marks ≡ self.old.ejector.state
            → d.answer ≡ answers.Matched (trip self.old.ejector.rules O
            (marks'.Good host t) marks)) }
        ensures hosts { OnOk result ((O : State) (marks : List Mark)
            → state self.old.ejector.rules O marks ≡ self.old.ejector.state
            → self.new.ejector.state
            ≡ state self.old.ejector.rules O (marks'.Good host t ∷ marks)) }
        ensures refused { IfErr result (λ r. IsSame self.old self.new
            × HasCauseIn self.old (events.Answered host epoch value.now t) r) }
    {
        if let Some(cause) = self.answer_cause(host, epoch, value) {
            return Err(cause);
        }
        let bytes = value.text_len();
        let shared = self.shared_with_room(value, bytes)?;
        let owner = self.pipelines.answer(host, epoch);
        self.connections.answer(owner, shared);
        let trip = counted(&mut self.ejector, host, true, t);
        Ok(Done {
            answer: Answer::Matched { trip },
            recorded: Answer::Matched { trip },
            bytes,
        })
    }

    // A second share of the reply, with room for its step.
    fn shared_with_room(&mut self, value: &Value, bytes: u64) -> Result<Value, Refusal>
        ensures shared { IfOk result (λ shared. tree_of shared ≡ tree_of value.now) }
        ensures room { OnOk result ((self.new.journal.room ≡ Some bytes)
            × (IsFull self.old.journal bytes → ⊥)) }
        ensures refused { IfErr result (λ r. ((r ≡ Refusal.NoMemory)
            × (IsFull self.old.journal bytes → ⊥))
            ⊎ ((r ≡ Refusal.JournalFull) × IsFull self.old.journal bytes)) }
        ensures same { IsSame self.old self.new }
    {
        make_room(&mut self.journal, bytes)?;
        match value.share(self.alloc) {
            Ok(shared) => Ok(shared),
            Err(_) => Err(Refusal::NoMemory),
        }
    }

    // The refusal of the reply for a cause of its own, if there is one.
    fn answer_cause(&self, host: usize, epoch: u64, value: &Value) -> Option<Refusal>
        requires hosts { length self.now.pipelines.states ≡ hosts (setting_in self.now) }
        ensures { result ≡ own_cause_in (setting_in self.now) (memory_in self.now)
            (events.Answered host epoch value.now 0) }
    {
        if host >= self.pipelines.len() {
            return Some(Refusal::NoSuchHost);
        }
        if !value.is_plain() {
            return Some(Refusal::NotPlain);
        }
        let current = self.pipelines.epoch(host);
        if epoch != current {
            return Some(Refusal::Stale { current });
        }
        if self.pipelines.flying(host) == 0 {
            return Some(Refusal::Unasked);
        }
        None
    }
}

/// Gives outlier detection a result of the host, and returns its effect.
pub(crate) fn counted(ejector: &mut Ejector, host: usize, ok: bool, t: u64) -> Trip
    requires { host < ejector.old.rules.hosts }
    ensures state { (O : State) (marks : List Mark)
        → state ejector.old.rules O marks ≡ ejector.old.state
        → ejector.new.state ≡ state ejector.old.rules O (result_mark ok host t ∷ marks) }
    ensures trip { (O : State) (marks : List Mark)
        → state ejector.old.rules O marks ≡ ejector.old.state
        → result ≡ trip ejector.old.rules O (result_mark ok host t) marks }
    ensures rules { ejector.new.rules ≡ ejector.old.rules }
{
    match ejector.result(host, ok, t) {
        Ok(trip) => trip,
        Err(_) => unreachable!(),
    }
}
