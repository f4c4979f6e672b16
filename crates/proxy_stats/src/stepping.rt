ghost use Rattle.std.specs.Prelude.{◌≡◌, ◌<◌, ◌^◌, ◌==◌, ℕ, if◌then◌else◌, length, slice_index, slice_index_or};
ghost use Rattle.proxy_stats.specs.Amounts.{lost_parts, ejected_hosts, kept_hosts, own_answers, of_host, is_event_of, is_local, local_place};
ghost use Rattle.proxy_stats.specs.Sums.{grown_sum, AreGrown, AreHostsGrownBy, AreHostsGrownByEvent, with_answer, with_event, with_trip};
ghost use Rattle.proxy_stats.specs.declared.tally.HostCounts.{HostCounts};

use crate::tally::{Counts, HostCounts, LOCAL_KINDS};
use limits::MAX_HOSTS;
use proxy_core::{Answer, Event, Local, Step, Trip};

impl Counts {
    pub(crate) fn add(&mut self, step: &Step<Event, Answer>)
        ensures grown { AreGrown self.old step.now self.new }
        ensures ejected { ejected_hosts step.now < 2 ^ 32 }
        ensures kept { kept_hosts step.now < 2 ^ 32 }
        ensures kinds { length self.new.local ≡ length self.old.local }
        ensures hosts { length self.new.hosts ≡ length self.old.hosts }
    {
        self.add_event(&step.event);
        self.add_answer(step);
    }

    // What the event adds, also to its host's counts.
    #[inline(always)]
    fn add_event(&mut self, event: &Event)
        ensures added { self.new
            ≡ record (with_event self.old event.now) { hosts = self.new.hosts } }
        ensures same { length self.new.hosts ≡ length self.old.hosts }
        ensures grown { (h : ℕ) (d : HostCounts) → h < 64 → AreHostsGrownByEvent
            (slice_index_or self.old.hosts h d) h event.now (slice_index_or self.new.hosts h d) }
    {
        match event {
            Event::Arrived { .. } => self.accepted = self.accepted.saturating_add(1),
            Event::Handed { .. } => self.handed = self.handed.saturating_add(1),
            Event::Taken { host } => {
                self.sent = self.sent.saturating_add(1);
                add_to_host(&mut self.hosts, *host, &HostCounts::SENT);
            }
            Event::Answered { host, .. } => {
                self.answered = self.answered.saturating_add(1);
                add_to_host(&mut self.hosts, *host, &HostCounts::ANSWERED);
            }
            Event::Failed { host, .. } => add_to_host(&mut self.hosts, *host, &HostCounts::FAULT),
            _ => {}
        }
    }

    // What the answer adds. Lost parts are counted for the event's host, too.
    #[inline(always)]
    fn add_answer(&mut self, step: &Step<Event, Answer>)
        ensures added { self.new ≡ record (with_answer self.old step.now.answer)
            { local = self.new.local; hosts = self.new.hosts } }
        ensures ejected { ejected_hosts step.now < 2 ^ 32 }
        ensures kept { kept_hosts step.now < 2 ^ 32 }
        ensures local { (place : ℕ) → place < 7 → slice_index self.new.local place
            ≡ grown_sum (slice_index self.old.local place) (own_answers place step.now) }
        ensures kinds { length self.new.local ≡ length self.old.local }
        ensures same { length self.new.hosts ≡ length self.old.hosts }
        ensures lost { (h : ℕ) (d : HostCounts) → h < 64 → AreHostsGrownBy
            (slice_index_or self.old.hosts h d) 0 0 0 (of_host h lost_parts step.now)
            (slice_index_or self.new.hosts h d) }
    {
        match &step.answer {
            Answer::Accepted {
                local,
                no_host,
                busy,
                ..
            } => {
                self.no_host = self.no_host.saturating_add(*no_host);
                self.busy = self.busy.saturating_add(*busy);
                add_local(&mut self.local, *local);
            }
            Answer::Matched { trip } => self.add_trip(*trip),
            Answer::Lost { parts, trip } => {
                self.lost = self.lost.saturating_add(*parts);
                self.add_trip(*trip);
                add_lost(&mut self.hosts, &step.event, *parts);
            }
            Answer::Swept { ejected, kept, .. } => {
                self.ejections = self.ejections.saturating_add(u64::from(*ejected));
                self.kept = self.kept.saturating_add(u64::from(*kept));
            }
            _ => {}
        }
    }

    #[inline(always)]
    fn add_trip(&mut self, trip: Trip)
        ensures { self.new ≡ with_trip self.old trip }
    {
        match trip {
            Trip::Ejected => self.ejections = self.ejections.saturating_add(1),
            Trip::Kept => self.kept = self.kept.saturating_add(1),
            Trip::None => {}
        }
    }
}

fn add_local(local: &mut [u64; LOCAL_KINDS], answer: Option<Local>)
    ensures { (place : ℕ) → place < 7 → slice_index local.new place
        ≡ grown_sum (slice_index local.old place) (if is_local place answer then 1 else 0) }
{
    if let Some(answer) = answer {
        let place = place_of(answer);
        local[place] = local[place].saturating_add(1);
    }
}

fn place_of(answer: Local) -> usize
    ensures value { result ≡ local_place answer }
    ensures few { result < 7 }
{
    match answer {
        Local::Pong => 0,
        Local::Echoed => 1,
        Local::Bye => 2,
        Local::Invalid => 3,
        Local::Unsupported => 4,
        Local::WrongNumber => 5,
        Local::Broken => 6,
    }
}

fn add_lost(hosts: &mut [HostCounts; MAX_HOSTS], event: &Event, parts: u64)
    ensures same { length hosts.new ≡ length hosts.old }
    ensures lost { (h : ℕ) (d : HostCounts) → h < 64 → AreHostsGrownBy
        (slice_index_or hosts.old h d) 0 0 0 (if is_event_of h event.now then parts else 0)
        (slice_index_or hosts.new h d) }
{
    let host = match event {
        Event::Taken { host } => *host,
        Event::Answered { host, .. } => *host,
        Event::Failed { host, .. } => *host,
        _ => return,
    };
    add_to_host(
        hosts,
        host,
        &HostCounts {
            lost: parts,
            ..HostCounts::NONE
        },
    );
}

#[inline(always)]
fn add_to_host(hosts: &mut [HostCounts; MAX_HOSTS], host: usize, more: &HostCounts)
    ensures same { length hosts.new ≡ length hosts.old }
    ensures grown { (h : ℕ) (d : HostCounts) → h < 64 → AreHostsGrownBy
        (slice_index_or hosts.old h d)
        (if host == h then more.now.sent else 0) (if host == h then more.now.answered else 0)
        (if host == h then more.now.faults else 0) (if host == h then more.now.lost else 0)
        (slice_index_or hosts.new h d) }
{
    if host < MAX_HOSTS {
        hosts[host] = hosts[host].and(more);
    }
}

impl HostCounts {
    const SENT: HostCounts = HostCounts {
        sent: 1,
        ..HostCounts::NONE
    };

    const ANSWERED: HostCounts = HostCounts {
        answered: 1,
        ..HostCounts::NONE
    };

    const FAULT: HostCounts = HostCounts {
        faults: 1,
        ..HostCounts::NONE
    };

    #[inline(always)]
    fn and(&self, more: &HostCounts) -> HostCounts
        ensures { AreHostsGrownBy self.now more.now.sent more.now.answered more.now.faults
            more.now.lost result }
    {
        HostCounts {
            sent: self.sent.saturating_add(more.sent),
            answered: self.answered.saturating_add(more.answered),
            faults: self.faults.saturating_add(more.faults),
            lost: self.lost.saturating_add(more.lost),
        }
    }
}
