//! Scenes: lists of acts for one rig.

use crate::fake_devices::{Feed, Taken, Text};
use crate::journal::{
    Deed, Loss, begins_sent, count, handed_before_last_arrival, last_loss, last_trip, sent_in,
    sent_len,
};
use crate::rig::{Ends, Link, Rig, StepFailure};
use crate::stage::Stage;
use crate::turns::Ration;
use proxy_core::{Core, Event, Kind, Refusal, Request, Trip};
use proxy_engines::{EngineError, Progress};
use std::sync::Wait;

// An act, or a fact that must hold then.
#[derive(Clone, Copy)]
pub(crate) enum Act {
    // The next of two clients connects and sends this.
    Opens(Feed, Ends),
    CannotOpen(EngineError),
    // The first client sends this from now on.
    Says(Feed),
    IsShut(bool),
    // The next host that asks for a link gets this one.
    Links(Link),
    // Hosts that are no stubs send this from now on.
    HostSays(Feed),
    // All engines are stepped at this moment until nothing moves.
    Runs(u64),
    // The first client makes this many steps: each returns this, and nothing is recorded.
    Steps(Progress, u32),
    HostSteps(u64, Progress),
    // The only host's link of this epoch is refused, with this effect on the host.
    LinkRefused(u64, Trip),
    IsRefused(Deed, Refusal),

    Took(Text),
    SecondTook(Text),
    Asked(Text),
    AskedLater(Text),
    // The first client took the text at the index of the number of handed replies.
    TookHanded(&'static [&'static [u8]]),
    // This many repetitions of the first client's text are unread.
    Unread(u32),

    ClientFailed(Option<StepFailure>),
    HostFailed(Option<StepFailure>),
    // No step returned another error.
    OnlyTold(EngineError),

    Did(Deed, usize),
    DidAtMost(Deed, usize),
    // The only fault, of epoch 0: its kind, its parts and its moment.
    Lost(Kind, u64, u64),
    // The number of parts.
    AnsweredOrLost(usize),
    Recorded(usize),
    RecordedBelow(usize),
    Sent(u64, usize),
    // Parts were written as sent: over the first link those of epoch 0 or a beginning, over the second those of epoch 1.
    WroteSent,
    // This many replies were handed out before the newest command arrived.
    HandedBefore(usize),

    IsNumbered(EngineError, u16),
}

#[derive(Clone, Copy)]
pub(crate) struct Came {
    what: &'static str,
    number: u64,
}

// The index of the act that failed, and its result.
#[derive(Clone, Copy, Debug)]
pub(crate) struct Fault {
    act: usize,
    came: &'static str,
    number: u64,
}

impl Fault {
    // A scene whose journal differs from another one's.
    pub(crate) const OTHERWISE: Fault = Fault {
        act: 0,
        came: "another journal",
        number: 0,
    };
}

fn unless(is_right: bool, what: &'static str, number: u64) -> Result<(), Came> {
    if is_right {
        Ok(())
    } else {
        Err(Came { what, number })
    }
}

fn made(outcome: Result<(), EngineError>) -> Result<(), Came> {
    match outcome {
        Ok(()) => Ok(()),
        Err(error) => Err(Came {
            what: "an error",
            number: u64::from(error.number()),
        }),
    }
}

// A scene's own acts between shared ones.
#[derive(Clone, Copy)]
pub(crate) struct Scene<'a> {
    pub(crate) before: &'static [&'static [Act]],
    pub(crate) acts: &'a [Act],
    pub(crate) after: &'static [Act],
}

impl Scene<'static> {
    pub(crate) fn of(acts: &'static [Act]) -> Scene<'static> {
        Scene {
            before: &[],
            acts,
            after: &[],
        }
    }
}

// A link to a stub for each of three hosts.
pub(crate) const STUBS: &[&[Act]] = &[&[
    Act::Links(Link::STUB),
    Act::Links(Link::STUB),
    Act::Links(Link::STUB),
]];

// Plays a scene before one or three hosts.
pub(crate) fn play<Rt: Wait + AllocGlobal>(
    rt: &Rt,
    hosts: usize,
    scene: Scene<'_>,
) -> Result<(), Fault> {
    match record(rt, hosts, Ration::FREE, scene) {
        Ok(core) => Ok(drop(core)),
        Err(fault) => Err(fault),
    }
}

// The same with turns of this ration. Returns the core at the end.
pub(crate) fn record<Rt: Wait + AllocGlobal>(
    rt: &Rt,
    hosts: usize,
    ration: Ration,
    scene: Scene<'_>,
) -> Result<Core, Fault> {
    let stage = Stage::new(rt.alloc());
    match Rig::new(rt.alloc(), &stage, hosts, ration) {
        Ok(rig) => rig.played(rt, scene),
        Err(_) => Err(Fault {
            act: 0,
            came: "no memory",
            number: 0,
        }),
    }
}

impl<'a> Rig<'a> {
    // The core after all acts, or the first act that fails.
    fn played<Rt: Wait + AllocGlobal>(mut self, rt: &Rt, scene: Scene<'_>) -> Result<Core, Fault> {
        match self.play(rt, scene) {
            Ok(()) => Ok(self.into_core()),
            Err(fault) => Err(fault),
        }
    }

    fn play<Rt: Wait + AllocGlobal>(&mut self, rt: &Rt, scene: Scene<'_>) -> Result<(), Fault> {
        let mut place = 0usize;
        for acts in scene.before {
            place = self.play_acts(rt, acts, place)?;
        }
        place = self.play_acts(rt, scene.acts, place)?;
        self.play_acts(rt, scene.after, place)?;
        Ok(())
    }

    fn play_acts<Rt: Wait + AllocGlobal>(
        &mut self,
        rt: &Rt,
        acts: &[Act],
        from: usize,
    ) -> Result<usize, Fault> {
        let mut place = from;
        for act in acts {
            if let Err(Came { what, number }) = self.act(rt, *act) {
                return Err(Fault {
                    act: place,
                    came: what,
                    number,
                });
            }
            place = place.saturating_add(1);
        }
        Ok(place)
    }

    fn act<Rt: Wait + AllocGlobal>(&mut self, rt: &Rt, act: Act) -> Result<(), Came> {
        match act {
            Act::Opens(says, ends) => made(self.open(rt, says, ends)),
            Act::CannotOpen(error) => see_error(self.open(rt, Feed::Open(b""), Ends::FREE), error),
            Act::Links(link) => made(self.add_link(link)),
            Act::Runs(moment) => see_end(self.run(rt, moment)),
            Act::Steps(progress, times) => self.see_steps(rt, progress, times),
            Act::HostSteps(moment, progress) => see_step(self.step_host(rt, moment), progress),
            Act::LinkRefused(epoch, trip) => self.see_trip(rt, epoch, trip),
            Act::IsRefused(deed, refusal) => {
                see_refusal(self.refusal(rt, event_of(deed)), Some(refusal))
            }
            Act::ClientFailed(told) => see_failure(self.of_client, told),
            Act::HostFailed(told) => see_failure(self.of_host, told),
            Act::OnlyTold(error) => see_only(self.of_client, self.of_host, error),
            Act::Recorded(steps) => self.see_recorded(steps),
            _ => on_stage(self.stage, self.core(), act),
        }
    }

    fn see_steps<Rt: Wait>(&mut self, rt: &Rt, progress: Progress, times: u32) -> Result<(), Came> {
        let steps = self.core().journal().len();
        for _ in 0..times {
            see_step(self.step_client(rt), progress)?;
        }
        see_count(self.core().journal().len(), steps)
    }

    fn see_trip<Rt: Wait>(&mut self, rt: &Rt, epoch: u64, trip: Trip) -> Result<(), Came> {
        let failed = Event::Failed {
            host: 0,
            epoch,
            kind: Kind::Refused,
            t: 4,
        };
        see_refusal(self.refusal(rt, failed), None)?;
        let is_right = last_trip(self.core()) == Some((epoch, trip));
        unless(is_right, "another trip", epoch)
    }

    fn see_recorded(&mut self, steps: usize) -> Result<(), Came> {
        let len = self.core().journal().len();
        let came = len.saturating_sub(self.seen);
        self.seen = len;
        see_count(came, steps)
    }
}

// Acts that change what devices do, or check what was sent and taken.
fn on_stage(stage: &Stage, core: &Core, act: Act) -> Result<(), Came> {
    match act {
        Act::Says(feed) => Ok(stage.first.says.set(feed)),
        Act::HostSays(feed) => Ok(stage.host.set(feed)),
        Act::IsShut(is_shut) => Ok(stage.first.took.is_shut.set(is_shut)),
        Act::Took(text) => see_text(&stage.first.took, text),
        Act::SecondTook(text) => see_text(&stage.second.took, text),
        Act::Asked(text) => see_text(&stage.asked, text),
        Act::AskedLater(text) => see_text(&stage.asked_later, text),
        Act::Unread(times) => see_count(stage.first.says.get().times() as usize, times as usize),
        Act::TookHanded(texts) => see_handed(&stage.first.took, core, texts),
        Act::WroteSent => see_sent(stage, core),
        _ => see_journal(core, act),
    }
}

fn see_journal(core: &Core, act: Act) -> Result<(), Came> {
    match act {
        Act::Did(deed, times) => see_count(count(core, deed), times),
        Act::DidAtMost(deed, times) => see_at_most(count(core, deed), times),
        Act::Lost(kind, parts, t) => see_loss(core, kind, parts, t),
        Act::AnsweredOrLost(parts) => see_ends(core, parts),
        Act::RecordedBelow(steps) => see_at_most(core.journal().len(), steps.saturating_sub(1)),
        Act::Sent(epoch, parts) => see_count(sent_in(core, epoch), parts),
        Act::HandedBefore(replies) => see_count(handed_before_last_arrival(core), replies),
        Act::IsNumbered(error, number) => see_count(error.number().into(), number.into()),
        _ => unless(false, "no such act", 0),
    }
}

fn see_step(came: Option<Result<Progress, EngineError>>, progress: Progress) -> Result<(), Came> {
    let (what, number) = match came {
        None => ("no engine", 0),
        Some(Err(error)) => ("an error", u64::from(error.number())),
        Some(Ok(Progress::Moved)) => ("Moved", 0),
        Some(Ok(Progress::Idle)) => ("Idle", 0),
        Some(Ok(Progress::NeedsLink)) => ("NeedsLink", 0),
        Some(Ok(Progress::Cut)) => ("Cut", 0),
        Some(Ok(Progress::Ended)) => ("Ended", 0),
    };
    unless(came == Some(Ok(progress)), what, number)
}

fn see_end(has_ended: Result<bool, EngineError>) -> Result<(), Came> {
    match has_ended {
        Ok(has_ended) => unless(has_ended, "a run without an end", 0),
        Err(error) => made(Err(error)),
    }
}

fn see_error(came: Result<(), EngineError>, error: EngineError) -> Result<(), Came> {
    if came == Err(error) {
        Ok(())
    } else {
        made(came)?;
        Err(Came {
            what: "no error",
            number: 0,
        })
    }
}

fn see_refusal(came: Option<Refusal>, refusal: Option<Refusal>) -> Result<(), Came> {
    let number = came.map_or(0, |refusal| u64::from(refusal.number()));
    unless(came == refusal, "a refusal", number)
}

fn see_failure(came: Option<StepFailure>, told: Option<StepFailure>) -> Result<(), Came> {
    let number = came.map_or(0, |told| u64::from(told.error.number()));
    unless(
        came == told,
        "an error, or none, or at another step",
        number,
    )
}

fn see_only(
    one: Option<StepFailure>,
    other: Option<StepFailure>,
    error: EngineError,
) -> Result<(), Came> {
    for told in [one, other] {
        let came = told.map_or(error, |told| told.error);
        unless(came == error, "an error", u64::from(came.number()))?;
    }
    Ok(())
}

fn see_count(came: usize, count: usize) -> Result<(), Came> {
    unless(came == count, "so many", came as u64)
}

fn see_at_most(came: usize, count: usize) -> Result<(), Came> {
    unless(came <= count, "so many", came as u64)
}

fn see_text(taken: &Taken, text: Text) -> Result<(), Came> {
    unless(
        taken.is(text),
        "another text, of so many bytes",
        taken.len() as u64,
    )
}

fn see_handed(taken: &Taken, core: &Core, texts: &[&'static [u8]]) -> Result<(), Came> {
    let handed = count(core, Deed::Handed);
    match texts.get(handed) {
        Some(text) => see_text(taken, Text::All(text)),
        None => unless(false, "so many", handed as u64),
    }
}

fn see_loss(core: &Core, kind: Kind, parts: u64, t: u64) -> Result<(), Came> {
    let loss = Some(Loss {
        kind,
        epoch: 0,
        parts,
        t,
    });
    let number = count(core, Deed::Failed);
    let is_right = last_loss(core) == loss && number == 1;
    unless(is_right, "another fault, or so many", number as u64)
}

fn see_ends(core: &Core, parts: usize) -> Result<(), Came> {
    let lost = last_loss(core).map_or(0, |loss| loss.parts as usize);
    see_count(count(core, Deed::Answered).saturating_add(lost), parts)
}

// Each part was written at most once, as sent; over the second link completely.
fn see_sent(stage: &Stage, core: &Core) -> Result<(), Came> {
    let len = stage.asked_later.len();
    let is_right = is_sent(&stage.asked, core, 0)
        && is_sent(&stage.asked_later, core, 1)
        && len == sent_len(core, 1);
    unless(
        is_right,
        "another text, later one of so many bytes",
        len as u64,
    )
}

fn is_sent(taken: &Taken, core: &Core, epoch: u64) -> bool {
    match taken.bytes.try_borrow() {
        Ok(bytes) => begins_sent(core, epoch, bytes.as_slice()),
        Err(_) => false,
    }
}

fn event_of(deed: Deed) -> Event {
    match deed {
        Deed::Arrived => {
            let request = Request::Broken;
            Event::Arrived { conn: 0, request }
        }
        Deed::Finished => Event::Finished { conn: 0 },
        Deed::Handed => Event::Handed { conn: 0 },
        _ => Event::Closed { conn: 0 },
    }
}
