ghost use Rattle.std.specs.Prelude.{◌≡◌, ◌+◌, ◌-◌, ◌<◌, ◌^◌, [], length, replicate, if◌then◌else◌};
ghost use Rattle.proxy_histogram.specs.Values.{IsOf};
ghost use Rattle.proxy_histogram.specs.Unanswered.{NotesParts};

use crate::histogram::Histogram;
use crate::unanswered::Unanswered;
use std::alloc::Global;

/// When the parts that a host has not answered were sent, and how long it took for the others. Parts and replies are
/// counted anew in each round.
#[derive(Drop)]
pub struct Flights {
    moments: Unanswered,
    durations: Histogram,
    // What was noted of the round's counts.
    sent: u64,
    answered: u64,
}

impl Flights {
    /// Nothing was sent.
    pub fn new(alloc: Global) -> Flights
        ensures moments { result.moments ≡ [] }
        ensures durations { IsOf [] result.durations }
        ensures counts { (result.sent ≡ 0) × (result.answered ≡ 0) }
    {
        Flights {
            moments: Unanswered::new(alloc),
            durations: Histogram::new(),
            sent: 0,
            answered: 0,
        }
    }

    /// A round begins, whose counts begin anew.
    pub fn begin_round(&mut self)
        ensures { self.new ≡ record self.old { sent = 0; answered = 0 } }
    {
        self.sent = 0;
        self.answered = 0;
    }

    /// Notes the parts sent and the replies that came in the round so far, at this moment in microseconds. Without memory
    /// parts count as sent with the last ones before them.
    pub fn note(&mut self, now: u64, sent: u64, answered: u64)
        ensures noted { length self.old.moments + (sent - self.old.sent) < 2 ^ 64
            → NotesParts self.old.moments self.new.moments now
            (sent - self.old.sent) (answered - self.old.answered)
            self.old.durations self.new.durations }
        ensures counts { (self.new.sent ≡ sent) × (self.new.answered ≡ answered) }
    {
        self.moments.accepted(now, sent.saturating_sub(self.sent));
        let replies = answered.saturating_sub(self.answered);
        self.moments.answered(now, replies, &mut self.durations);
        self.sent = sent;
        self.answered = answered;
    }

    /// Forgets all parts that have no reply, as their link is lost. `is_asked`: one was sent since, at this moment in
    /// microseconds.
    pub fn forget(&mut self, now: u64, is_asked: bool)
        ensures { self.new ≡ record self.old {
          moments = replicate (if is_asked then 1 else 0) now;
        } }
    {
        self.moments.forget_all();
        self.moments.accepted(now, u64::from(is_asked));
    }

    /// Takes the durations since the last call.
    pub fn take_durations(&mut self) -> Histogram
        ensures taken { result ≡ self.old.durations }
        ensures none { IsOf [] self.new.durations }
        ensures rest { self.new ≡ record self.old { durations = self.new.durations } }
    {
        let taken = self.durations;
        self.durations = Histogram::new();
        taken
    }
}
