ghost use Rattle.std.specs.Prelude.{◌≡◌, ◌≢◌, ◌==◌, length, []};
ghost use Rattle.std.specs.Borrow.{sem};
ghost use Rattle.std.specs.Io.KnownBytes.{Keeps};
ghost use Rattle.proxy_devices.specs.Device.{writer_state};

use bytes::Bytes;
use proxy_devices::{IoOutcome, WriteTally};
use std::io;
use std::io::Write;
use std::marker::Model;

#[derive(Drop)]
pub(crate) struct Outbox<W: WriteTally> {
    writer: W,
    pending: Bytes,
}

impl<W: WriteTally> Model for Outbox<W> {
    ghost use Rattle.proxy_engines.specs.Ends.{OutboxState};

    ghost Value = { OutboxState };

    ghost view = { λ o. record {
      held = W.contents o.writer;
      taken = W.taken o.writer;
      passed = W.passed o.writer;
      counts = W.counts o.writer;
      pending = o.pending;
    } };
}

impl<W: WriteTally> Outbox<W> {
    ghost use Rattle.proxy_engines.specs.Ends.{WritesOnce};
    ghost use Rattle.proxy_engines.specs.Lends.{lends_writer, with_writer};

    pub(crate) fn new(writer: W) -> Outbox<W>
        ensures held { result.held ≡ W.contents writer }
        ensures taken { result.taken ≡ W.taken writer }
        ensures passed { result.passed ≡ W.passed writer }
        ensures counts { result.counts ≡ W.counts writer }
        ensures pending { result.pending ≡ [] }
    {
        Outbox {
            writer,
            pending: Bytes::new(),
        }
    }

    pub(crate) fn is_empty(&self) -> bool
        ensures { result ≡ (length self.now.pending == 0) }
    {
        self.pending.is_empty()
    }

    /// There must be no pending bytes.
    pub(crate) fn put(&mut self, text: Bytes)
        requires { self.old.pending ≡ [] }
        ensures { self.new ≡ record self.old { pending = text } }
    {
        self.pending = text;
    }

    /// There must be pending bytes.
    pub(crate) fn write_once(&mut self) -> IoOutcome
        requires some { self.old.pending ≢ [] }
        ensures writes { WritesOnce self.old self.new result }
    {
        let told = self.writer.write_told(self.pending.as_slice());
        if let IoOutcome::Moved(n) = told {
            self.pending.advance(n);
        }
        told
    }

    pub(crate) fn flush(&mut self) -> io::Result<()>
        ensures held { Keeps self.old.held self.new.held }
        ensures taken { self.new.taken ≡ self.old.taken }
        ensures counts { self.new.counts ≡ self.old.counts }
        ensures pending { self.new.pending ≡ self.old.pending }
    {
        self.writer.flush_told()
    }

    pub(crate) fn writer(&self) -> &W
        ensures { self.now ≡ with_writer self.now
            (writer_state W.contents W.taken W.passed W.counts result.now) }
    {
        &self.writer
    }

    pub(crate) fn writer_mut(&mut self) -> &mut W
        ensures* writes_back { sem 𝓛 (lends_writer W.row
            (record { taken = W.taken; passed = W.passed })
            (record { contents = W.contents }) (record { counts = W.counts }) self.entry result) }
        ensures value { self.old ≡ with_writer self.old
            (writer_state W.contents W.taken W.passed W.counts result.now) }
    {
        &mut self.writer
    }

    /// Pending bytes are dropped.
    pub(crate) fn into_writer(self) -> W
        ensures held { W.contents result ≡ self.held }
        ensures taken { W.taken result ≡ self.taken }
        ensures passed { W.passed result ≡ self.passed }
    {
        let Outbox { writer, pending: _ } = self;
        writer
    }
}
