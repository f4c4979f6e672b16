//! Facts about a run from a core's journal.

use proxy_core::{Answer, Core, Event, Kind, Step, Trip};

#[derive(Clone, Copy, PartialEq)]
pub(crate) enum Deed {
    Opened,
    Arrived,
    Finished,
    Taken,
    Answered,
    Failed,
    Swept,
    Handed,
    Closed,
}

impl Deed {
    fn of(event: &Event) -> Deed {
        match event {
            Event::Opened => Deed::Opened,
            Event::Arrived { .. } => Deed::Arrived,
            Event::Finished { .. } => Deed::Finished,
            Event::Taken { .. } => Deed::Taken,
            Event::Answered { .. } => Deed::Answered,
            Event::Failed { .. } => Deed::Failed,
            Event::Swept { .. } => Deed::Swept,
            Event::Handed { .. } => Deed::Handed,
            Event::Closed { .. } => Deed::Closed,
        }
    }
}

#[derive(Clone, Copy, PartialEq)]
pub(crate) struct Loss {
    pub(crate) kind: Kind,
    pub(crate) epoch: u64,
    pub(crate) parts: u64,
    pub(crate) t: u64,
}

impl Loss {
    fn of(step: &Step<Event, Answer>) -> Option<Loss> {
        match (&step.event, &step.answer) {
            (Event::Failed { kind, epoch, t, .. }, Answer::Lost { parts, .. }) => Some(Loss {
                kind: *kind,
                epoch: *epoch,
                parts: *parts,
                t: *t,
            }),
            _ => None,
        }
    }
}

pub(crate) fn count(core: &Core, deed: Deed) -> usize {
    let journal = core.journal();
    let mut found = 0usize;
    for i in 0..journal.len() {
        if let Some(step) = journal.get(i) {
            if Deed::of(&step.event) == deed {
                found = found.saturating_add(1);
            }
        }
    }
    found
}

pub(crate) fn last_deed(core: &Core) -> Option<Deed> {
    let journal = core.journal();
    match journal.get(journal.len().saturating_sub(1)) {
        Some(step) => Some(Deed::of(&step.event)),
        None => None,
    }
}

pub(crate) fn last_loss(core: &Core) -> Option<Loss> {
    let journal = core.journal();
    let mut found = None;
    for i in 0..journal.len() {
        if let Some(step) = journal.get(i) {
            found = Loss::of(step).or(found);
        }
    }
    found
}

pub(crate) fn last_trip(core: &Core) -> Option<(u64, Trip)> {
    let journal = core.journal();
    match journal.get(journal.len().saturating_sub(1)) {
        Some(
            Step {
                event: Event::Failed { epoch, .. },
                answer: Answer::Lost { trip, .. },
                ..
            },
        ) => Some((*epoch, *trip)),
        _ => None,
    }
}

pub(crate) fn sent_in(core: &Core, epoch: u64) -> usize {
    let journal = core.journal();
    let mut found = 0usize;
    for i in 0..journal.len() {
        if let Some(
            Step {
                answer: Answer::Sent { epoch: sent, .. },
                ..
            },
        ) = journal.get(i)
        {
            found = found.saturating_add(usize::from(*sent == epoch));
        }
    }
    found
}

fn sent_at(core: &Core, place: usize, epoch: u64) -> Option<&[u8]> {
    match &core.journal().get(place)?.answer {
        Answer::Sent {
            epoch: sent,
            text,
            ..
        } if *sent == epoch => Some(text.as_slice()),
        _ => None,
    }
}

pub(crate) fn sent_len(core: &Core, epoch: u64) -> usize {
    let mut len = 0usize;
    for place in 0..core.journal().len() {
        len = len.saturating_add(sent_at(core, place, epoch).unwrap_or(b"").len());
    }
    len
}

pub(crate) fn begins_sent(core: &Core, epoch: u64, bytes: &[u8]) -> bool {
    let mut left = bytes;
    for place in 0..core.journal().len() {
        let text = sent_at(core, place, epoch).unwrap_or(b"");
        let (now, later) = left.split_at(text.len().min(left.len()));
        if !text.starts_with(now) {
            return false;
        }
        left = later;
    }
    left.is_empty()
}

pub(crate) fn handed_before_last_arrival(core: &Core) -> usize {
    let journal = core.journal();
    let mut handed = 0usize;
    let mut before = 0usize;
    for i in 0..journal.len() {
        match journal.get(i) {
            Some(
                Step {
                    event: Event::Handed { .. },
                    ..
                },
            ) => handed = handed.saturating_add(1),
            Some(
                Step {
                    event: Event::Arrived { .. },
                    ..
                },
            ) => before = handed,
            _ => {}
        }
    }
    before
}

// Steps of one kind, and of one host if it is a host's: their order doesn't depend on timing.
#[derive(Clone, Copy)]
struct Kin {
    deed: Deed,
    host: Option<usize>,
}

impl Kin {
    fn is_of(self, event: &Event) -> bool {
        let host = match event {
            Event::Taken { host } | Event::Answered { host, .. } | Event::Failed { host, .. } => {
                Some(*host)
            }
            _ => None,
        };
        Deed::of(event) == self.deed && host == self.host
    }

    // The answer to the first of these from an index on, and the next index.
    fn next(self, core: &Core, from: usize) -> Option<(&Answer, usize)> {
        let journal = core.journal();
        for i in from..journal.len() {
            if let Some(step) = journal.get(i) {
                if self.is_of(&step.event) {
                    return Some((&step.answer, i.saturating_add(1)));
                }
            }
        }
        None
    }

    fn goes_alike(self, one: &Core, other: &Core) -> bool {
        let (mut i, mut j) = (0, 0);
        for _ in 0..=one.journal().len() {
            match (self.next(one, i), self.next(other, j)) {
                (None, None) => return true,
                (Some((answer, behind)), Some((other_answer, other_behind))) => {
                    if answer != other_answer {
                        return false;
                    }
                    i = behind;
                    j = other_behind;
                }
                _ => return false,
            }
        }
        false
    }
}

// Whether one client and three hosts without faults did the same, whatever the timing.
pub(crate) fn go_alike(one: &Core, other: &Core) -> bool {
    let clients = [
        Deed::Opened,
        Deed::Arrived,
        Deed::Finished,
        Deed::Handed,
        Deed::Closed,
    ];
    for deed in clients {
        if !(Kin { deed, host: None }).goes_alike(one, other) {
            return false;
        }
    }
    for host in 0..3 {
        for deed in [Deed::Taken, Deed::Answered] {
            let host = Some(host);
            if !(Kin { deed, host }).goes_alike(one, other) {
                return false;
            }
        }
    }
    one.journal().len() == other.journal().len()
}
