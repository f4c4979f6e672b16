ghost use Rattle.std.specs.Prelude.{◌≡◌, ◌<◌, Some, None, length, map, count_by, IfSome};
ghost use Rattle.std.specs.Option.{option_map};
ghost use Rattle.resp_core.specs.Value.{tree_of};
ghost use Rattle.proxy_core.specs.Places.{is_too_many, is_without_host, next_place, counted_at, value_at};
ghost use Rattle.proxy_core.specs.Arrivals.{answer_of};

use crate::local::{no_upstream_host, proxy_busy};
use crate::state::pipelines::Pipelines;
use bytes::Bytes;
use limits::MAX_WAITING;
use proxy_history::Answer;
use resp_core::Value;
use splitter::Local;

/// The final place of a part.
#[derive(Clone, Copy)]
pub(crate) enum Place {
    /// It waits for the host.
    Waits(usize),
    /// No usable host owns its key.
    NoHost,
    /// As many parts as may wait for its host already do.
    Busy,
}

impl Place {
    /// The value that the part gets at once, unless it waits.
    pub(crate) fn value(self) -> Option<Value>
        ensures { option_map tree_of result ≡ value_at self }
    {
        match self {
            Place::Waits(_) => None,
            Place::NoHost => Some(no_upstream_host()),
            Place::Busy => Some(proxy_busy()),
        }
    }
}

#[derive(Drop)]
pub(crate) struct Placed {
    pub number: u32,
    pub place: Place,
    pub text: Bytes,
}

#[derive(Clone, Copy)]
pub(crate) struct Accepted {
    pub index: u64,
    pub local: Option<Local>,
    pub parts: u64,
    pub no_host: u64,
    pub busy: u64,
}

impl Accepted {
    /// A command that the proxy answers itself.
    pub(crate) fn own(index: u64, name: Local) -> Accepted
        ensures { result ≡ record {
          index = index;
          local = Some name;
          parts = 0;
          no_host = 0;
          busy =
              0;
        } }
    {
        Accepted {
            index,
            local: Some(name),
            parts: 0,
            no_host: 0,
            busy: 0,
        }
    }

    pub(crate) fn counted(index: u64, placed: &[Placed]) -> Accepted
        ensures { result ≡ record {
          index = index;
          local = None;
          parts = length placed.now;
          no_host = count_by (λ (p : Placed). is_without_host p.place) placed.now;
          busy = count_by (λ (p : Placed). is_too_many p.place) placed.now;
        } }
    {
        let (mut no_host, mut busy) = (0, 0);
        for part in placed {
            match part.place {
                Place::NoHost => no_host += 1,
                Place::Busy => busy += 1,
                Place::Waits(_) => {}
            }
        }
        Accepted {
            index,
            local: None,
            parts: placed.len() as u64,
            no_host,
            busy,
        }
    }

    pub(crate) fn answer(self) -> Answer
        ensures { result ≡ answer_of self }
    {
        Answer::Accepted {
            index: self.index,
            local: self.local,
            parts: self.parts,
            no_host: self.no_host,
            busy: self.busy,
        }
    }
}

/// The place of the next part, whose key has this host. `counts` has the number of the command's waiting parts for each
/// host, and is updated.
pub(crate) fn next_place(pipelines: &Pipelines, counts: &mut [u16], host: Option<usize>) -> Place
    requires hosts { length counts.old ≡ length pipelines.now.states }
    requires host { IfSome host (λ h. h < length pipelines.now.states) }
    ensures place { result ≡ next_place pipelines.now.states counts.old host }
    ensures counts { counts.new ≡ counted_at result counts.old }
{
    let Some(host) = host else {
        return Place::NoHost;
    };
    let waiting = pipelines.waiting(host);
    if waiting.saturating_add(usize::from(counts[host])) >= MAX_WAITING {
        return Place::Busy;
    }
    counts[host] += 1;
    Place::Waits(host)
}
