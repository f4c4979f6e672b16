//! Ejected hosts may return, and hosts that answer badly are ejected.
ghost use Rattle.std.specs.Prelude.{◌≡◌, ◌∷◌, List, IfOk, IfErr, OnOk};
ghost use Rattle.ejector.specs.declared.mark.Mark.{Mark};
ghost use Rattle.ejector.specs.declared.mark.Mark.TheVariants as marks';
ghost use Rattle.ejector.specs.State.{State};
ghost use Rattle.ejector.specs.Ejection.{state, sweep_answer};
ghost use Rattle.proxy_history.specs.Answer.{counts_of};
ghost use Rattle.proxy_history.specs.declared.event.Event.TheVariants as events;
ghost use Rattle.proxy_core.specs.Core.{IsMade, IsLeft};
ghost use Rattle.proxy_core.specs.Machine.{memory_in, IsDone, IsSame, HasCauseIn, IsKept};

use crate::machine::{Done, Machine, make_room};
use crate::refused::Refused;
use ejector::{Ejector, Swept};
use proxy_history::{Answer, Event, Refusal};

impl Machine {
    pub(crate) fn turn_swept(&mut self, pass: u64, t: u64) -> Result<Answer, Refused>
        requires { IsKept self.old }
        ensures answered { IfOk result (λ a. IsMade self.old self.new pass (events.Swept t) a) }
        ensures refused { IfErr result (λ r. IsLeft self.old self.new (events.Swept t) r) }
    {
        let done = self.sweep(t);
        self.add_step(pass, Event::Swept { t }, done)
    }

    pub(crate) fn sweep(&mut self, t: u64) -> Result<Done, Refusal>
        ensures done { IfOk result (λ d. IsDone self.old self.new (events.Swept t) d
            (record (memory_in self.old) { hosts = self.new.ejector.state })) }
        ensures swept { IfOk result (λ d. (O : State) (marks : List Mark)
            → state self.old.ejector.rules O marks ≡ self.old.ejector.state
            → d.answer ≡ counts_of (sweep_answer self.old.ejector.rules O (marks'.Sweep t) marks)) }
        ensures hosts { OnOk result ((O : State) (marks : List Mark)
            → state self.old.ejector.rules O marks ≡ self.old.ejector.state
            → self.new.ejector.state ≡ state self.old.ejector.rules O (marks'.Sweep t ∷ marks)) }
        ensures refused { IfErr result (λ r. IsSame self.old self.new
            × HasCauseIn self.old (events.Swept t) r) }
    {
        make_room(&mut self.journal, 0)?;
        let hosts = swept(&mut self.ejector, t);
        Ok(Done {
            answer: counts_of(hosts),
            recorded: counts_of(hosts),
            bytes: 0,
        })
    }
}

fn swept(ejector: &mut Ejector, t: u64) -> Swept
    ensures state { (O : State) (marks : List Mark)
        → state ejector.old.rules O marks ≡ ejector.old.state
        → ejector.new.state ≡ state ejector.old.rules O (marks'.Sweep t ∷ marks) }
    ensures swept { (O : State) (marks : List Mark)
        → state ejector.old.rules O marks ≡ ejector.old.state
        → result ≡ sweep_answer ejector.old.rules O (marks'.Sweep t) marks }
    ensures rules { ejector.new.rules ≡ ejector.old.rules }
{
    match ejector.sweep(t) {
        Ok(swept) => swept,
        Err(_) => unreachable!(),
    }
}

fn counts_of(hosts: Swept) -> Answer
    ensures { result ≡ counts_of hosts }
{
    Answer::Swept {
        returned: hosts.returned,
        ejected: hosts.ejected,
        kept: hosts.kept,
    }
}
