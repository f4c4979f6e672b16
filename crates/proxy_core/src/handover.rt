ghost use Rattle.std.specs.Prelude.{◌≡◌, ◌<◌, ◌*◌, min};
ghost use Rattle.ejector.specs.Opening.{IsOpening};
ghost use Rattle.ejector.specs.State.{host_of, is_out};

use ejector::{EjectState, Rules};
use std::marker::Model;

/// What a core hands over to the next: the state of outlier detection with its rules, and the journal's length.
///
/// Only `Core::hand_over` makes one.
pub struct Handover {
    detection: EjectState,
    steps: u64,
    bytes: u64,
}

impl Drop for Handover {
    fn drop(self) {
        let Handover {
            detection: _,
            steps: _,
            bytes: _,
        } = self;
    }
}

impl Model for Handover {
    ghost use Rattle.proxy_core.specs.Handover.{HandoverFacts};

    ghost Value = { HandoverFacts };

    ghost view = { λ h. record { detection = h.detection; steps = h.steps; bytes = h.bytes } };
}

impl Handover {
    pub(crate) fn new(detection: EjectState, steps: u64, bytes: u64) -> Handover
        ensures { result ≡ record { detection = detection; steps = steps; bytes = bytes } }
    {
        Handover {
            detection,
            steps,
            bytes,
        }
    }

    /// The number of the journal's steps.
    pub fn steps(&self) -> u64
        ensures { result ≡ self.now.steps }
    {
        self.steps
    }

    /// The bytes of payload of these steps.
    pub fn bytes(&self) -> u64
        ensures { result ≡ self.now.bytes }
    {
        self.bytes
    }

    /// The number of hosts and the settings, which allow the state handed over.
    pub fn rules(&self) -> &Rules
        ensures rules { result.now ≡ self.now.detection.rules }
        ensures opening { IsOpening self.now.detection.rules self.now.detection.state }
    {
        self.detection.rules()
    }

    /// Whether the host is ejected.
    pub fn is_out(&self, host: usize) -> bool
        requires { host < self.now.detection.rules.hosts }
        ensures { result ≡ is_out self.now.detection.state host }
    {
        self.detection.is_out(host)
    }

    /// The clock at the host's last ejection, 0 without one.
    pub fn ejected_at(&self, host: usize) -> u64
        requires { host < self.now.detection.rules.hosts }
        ensures { result ≡ (host_of self.now.detection.state host).start }
    {
        self.detection.ejected_at(host)
    }

    /// How long the host's ejections last now, in milliseconds.
    pub fn ejection_ms(&self, host: usize) -> u64
        requires { host < self.now.detection.rules.hosts }
        ensures { let rules = self.now.detection.rules in result ≡ min (rules.settings.base_ms
            * (host_of self.now.detection.state host).multiplier) rules.settings.max_ms }
    {
        self.detection.ejection_ms(host)
    }

    pub(crate) fn into_detection(self) -> EjectState
        ensures { result ≡ self.detection }
    {
        let Handover {
            detection,
            steps: _,
            bytes: _,
        } = self;
        detection
    }
}
