//! Laws, each the contract of a function that does nothing.
ghost use Rattle.std.specs.Prelude.{◌≡◌};
ghost use Rattle.socket_halves.specs.ReadEnd.{DeliveredIsReceived};
ghost use Rattle.socket_halves.specs.SocketWriter.{PassedIsFirst};
ghost use Rattle.socket_halves.specs.WriteBuffer.{AcceptedGoesOut};

use limits::MAX_BUFFERED;

/// From 65,536 buffered bytes on, some are written before more are buffered.
pub fn buffered_is_limited()
    ensures { MAX_BUFFERED ≡ 65536 }
{}

/// What a writer took and what is buffered for it are all bytes that were accepted, in order, for any writer.
pub fn accepted_goes_out()
    ensures { AcceptedGoesOut }
{}

/// What has passed to a socket is the first of what its engine gave, and all of it exactly where nothing is buffered.
pub fn passed_is_first()
    ensures { PassedIsFirst }
{}

/// The bytes passed on to the caller are the bytes that the reader gave, for any reader.
pub fn delivered_is_received()
    ensures { DeliveredIsReceived }
{}
