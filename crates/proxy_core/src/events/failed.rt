ghost use Rattle.std.specs.Prelude.{◌≡◌, ◌<◌, ◌+◌, ◌-◌, ◌^◌, ◌++◌, length, map, IfOk, IfErr, OnOk, List};
ghost use Rattle.ejector.specs.declared.mark.Mark.{Mark};
ghost use Rattle.ejector.specs.State.{State};
ghost use Rattle.ejector.specs.Ejection.{state};
ghost use Rattle.proxy_history.specs.Setting.{hosts};
ghost use Rattle.proxy_history.specs.Value.{upstream_failure};
ghost use Rattle.proxy_history.specs.Answer.{trip_by};
ghost use Rattle.proxy_history.specs.declared.answer.Answer.TheVariants as answers;
ghost use Rattle.proxy_history.specs.declared.event.Event.TheVariants as events;
ghost use Rattle.proxy_history.specs.declared.event.Kind.TheVariants.{Late};
ghost use Rattle.upstream_pipe.specs.Pipe.{owner_in};
ghost use Rattle.proxy_core.specs.Connections.{AreAwaited, answered_parts};
ghost use Rattle.proxy_core.specs.Pipelines.{PipelineState, failed_pipeline, lost_owners, with_pipeline, pipeline_at};
ghost use Rattle.proxy_core.specs.Core.{IsMade, IsLeft};
ghost use Rattle.proxy_core.specs.Machine.{setting_in, memory_in, fault_mark, IsDone, IsSame, HasCauseIn, HasFailed, IsKept};

use crate::events::answered::counted;
use crate::machine::{Done, HostEpoch, Machine, make_room};
use crate::refused::Refused;
use ejector::{Ejector, Trip};
use proxy_history::{Answer, Event, Kind, Refusal};
use upstream_pipe::Lost;

impl Machine {
    pub(crate) fn turn_failed(
        &mut self,
        pass: u64,
        origin: HostEpoch,
        kind: Kind,
        t: u64,
    ) -> Result<Answer, Refused>
        requires { IsKept self.old }
        ensures answered { IfOk result
            (λ a. IsMade self.old self.new pass (events.Failed origin.host origin.epoch kind t) a) }
        ensures refused { IfErr result
            (λ r. IsLeft self.old self.new (events.Failed origin.host origin.epoch kind t) r) }
    {
        let HostEpoch { host, epoch } = origin;
        let done = self.fail(host, epoch, kind, t);
        self.add_step(
            pass,
            Event::Failed {
                host,
                epoch,
                kind,
                t,
            },
            done,
        )
    }

    /// A host failed: all parts that wait for it or fly are lost, and its epoch ends.
    pub(crate) fn fail(
        &mut self,
        host: usize,
        epoch: u64,
        kind: Kind,
        t: u64,
    ) -> Result<Done, Refusal>
        requires hosts { length self.old.pipelines.states ≡ hosts (setting_in self.old) }
        requires awaited { AreAwaited
            (lost_owners (pipeline_at host (memory_in self.old).pipelines)) upstream_failure
            self.old.connections.numbered }
        requires epochs { (pipeline_at host (memory_in self.old).pipelines).epoch < 2 ^ 64 - 1 }
        ensures done { IfOk result
            (λ d. IsDone self.old self.new (events.Failed host epoch kind t) d
            (record (memory_in self.old) {
              connections = answered_parts
                  (lost_owners (pipeline_at host (memory_in self.old).pipelines))
                  upstream_failure self.old.connections.numbered;
              pipelines = with_pipeline failed_pipeline host (memory_in self.old).pipelines;
              hosts = self.new.ejector.state;
            })) }
        ensures lost { IfOk result (λ d. (O : State) (marks : List Mark)
            → state self.old.ejector.rules O marks ≡ self.old.ejector.state
            → d.answer ≡ answers.Lost
            (length (pipeline_at host (memory_in self.old).pipelines).waiting
            + length (pipeline_at host (memory_in self.old).pipelines).flying)
            (trip_by self.old.ejector.rules O
            (fault_mark (pipeline_at host (memory_in self.old).pipelines) host kind t) marks)) }
        ensures hosts { OnOk result ((O : State) (marks : List Mark)
            → state self.old.ejector.rules O marks ≡ self.old.ejector.state
            → self.new.ejector.state ≡ state self.old.ejector.rules O
            (fault_mark (pipeline_at host (memory_in self.old).pipelines) host kind t ++ marks)) }
        ensures refused { IfErr result (λ r. IsSame self.old self.new
            × HasCauseIn self.old (events.Failed host epoch kind t) r) }
    {
        let lost = self.ready_to_fail(host, epoch)?;
        self.connections.fail(&lost);
        let parts = lost.waiting.len() as u64 + lost.flying.len() as u64;
        drop(lost);
        let trip = faulted(&mut self.ejector, host, kind, parts, t);
        Ok(Done {
            answer: Answer::Lost { parts, trip },
            recorded: Answer::Lost { parts, trip },
            bytes: 0,
        })
    }

    // Looks for a cause, makes room, and takes out the host's parts, which are lost. Kind and moment don't matter here.
    fn ready_to_fail(&mut self, host: usize, epoch: u64) -> Result<Lost, Refusal>
        requires hosts { length self.old.pipelines.states ≡ hosts (setting_in self.old) }
        requires epochs { (pipeline_at host (memory_in self.old).pipelines).epoch < 2 ^ 64 - 1 }
        ensures lost { IfOk result (λ lost.
            (lost.flying.items ≡ (pipeline_at host (memory_in self.old).pipelines).flying)
            × (lost.waiting.items
            ≡ map owner_in (pipeline_at host (memory_in self.old).pipelines).waiting)) }
        ensures ready { OnOk result
            (HasFailed self.old self.new host (events.Failed host epoch Late 0)) }
        ensures refused { IfErr result (λ r. IsSame self.old self.new
            × HasCauseIn self.old (events.Failed host epoch Late 0) r) }
    {
        if host >= self.pipelines.len() {
            return Err(Refusal::NoSuchHost);
        }
        let current = self.pipelines.epoch(host);
        if epoch != current {
            return Err(Refusal::Stale { current });
        }
        make_room(&mut self.journal, 0)?;
        match self.pipelines.fail(host, epoch) {
            Ok(lost) => Ok(lost),
            Err(_) => Err(Refusal::NoMemory),
        }
    }
}

// Gives outlier detection a fault of the host, and returns its effect. A link that was dropped while the host had no
// parts isn't counted.
fn faulted(ejector: &mut Ejector, host: usize, kind: Kind, parts: u64, t: u64) -> Trip
    requires { host < ejector.old.rules.hosts }
    ensures state { (p : PipelineState) (O : State) (marks : List Mark)
        → parts ≡ length p.waiting + length p.flying
        → state ejector.old.rules O marks ≡ ejector.old.state
        → ejector.new.state ≡ state ejector.old.rules O (fault_mark p host kind t ++ marks) }
    ensures trip { (p : PipelineState) (O : State) (marks : List Mark)
        → parts ≡ length p.waiting + length p.flying
        → state ejector.old.rules O marks ≡ ejector.old.state
        → result ≡ trip_by ejector.old.rules O (fault_mark p host kind t) marks }
    ensures rules { ejector.new.rules ≡ ejector.old.rules }
{
    if parts == 0 && kind == Kind::Dropped {
        Trip::None
    } else {
        counted(ejector, host, false, t)
    }
}
