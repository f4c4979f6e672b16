//! Why the server ended, and with which ending.
ghost use Rattle.std.specs.Prelude.{◌≡◌, Some, None};
ghost use Rattle.std.specs.Bool.{OnTrue, OnFalse};
ghost use Rattle.proxy_exit_status.specs.Ending.{status_of};
ghost use Rattle.proxy_exit_status.specs.declared.ending.Ending.TheVariants.{Memory, Socket};
ghost use Rattle.proxy_server.specs.Stop.{of_ending, of_failure};

use proxy_admin::OpenError;
use proxy_exit_status::Ending;
use std::alloc::{AllocError, AllocFailed};
use std::fmt::{self, Display, Formatter};
use std::io::Error;
use std::net::SocketAddr;

/// What failed when the server ended with `Ending::Socket`.
#[derive(Clone, Copy, Drop)]
pub struct Failure {
    /// The action that failed, as `cannot listen on`.
    pub what: &'static str,
    /// Its address, if it has one.
    pub address: Option<SocketAddr>,
    /// The system's error.
    pub error: Error,
}

/// Why the server ended before it was done. Its text is as in `socket: cannot listen on 127.0.0.1:6379: Address
/// already in use (os error 98)`.
#[derive(Clone, Copy, Drop)]
pub struct Stop {
    /// The program's ending.
    pub ending: Ending,
    /// What failed, unless the ending says all.
    pub failure: Option<Failure>,
}

impl Stop {
    /// A socket, a poll or a stream failed.
    pub fn socket(what: &'static str, error: Error) -> Stop
        ensures { result
            ≡ of_failure (record { what = what.entry; address = None; error = error }) }
    {
        Stop {
            ending: Ending::Socket,
            failure: Some(Failure {
                what,
                address: None,
                error,
            }),
        }
    }

    /// A socket with this address failed.
    pub fn socket_at(what: &'static str, address: SocketAddr, error: Error) -> Stop
        ensures { result
            ≡ of_failure (record { what = what.entry; address = Some address; error = error }) }
    {
        Stop {
            ending: Ending::Socket,
            failure: Some(Failure {
                what,
                address: Some(address),
                error,
            }),
        }
    }

    /// The program's exit status.
    pub fn status(self) -> u8
        ensures { result ≡ status_of self.ending }
    {
        self.ending.status()
    }

    /// Why the server ended, after it was told to end for this: this, where it still ran, else as it was.
    pub(crate) fn first(before: Option<Stop>, this: Stop, did_run: bool) -> Option<Stop>
        ensures ran { OnTrue did_run (result ≡ Some this) }
        ensures ended { OnFalse did_run (result ≡ before) }
    {
        if did_run { Some(this) } else { before }
    }
}

impl Display for Stop {
    fn fmt<W: fmt::Write>(&self, f: &mut Formatter<W>) -> fmt::Result {
        let ending = self.ending;
        let Some(
            Failure {
                what,
                address,
                error,
            },
        ) = self.failure
        else {
            return write!(f, "{ending}");
        };
        match address {
            None => write!(f, "{ending}: {what}: {error}"),
            Some(address) => write!(f, "{ending}: {what} {address}: {error}"),
        }
    }
}

impl From<Ending> for Stop {
    ghost from_gives = { λ ending s. s ≡ of_ending ending };

    fn from(ending: Ending) -> Stop {
        Stop {
            ending,
            failure: None,
        }
    }
}

impl From<OpenError> for Stop {
    ghost from_gives = { λ error s. s.ending ≡ Socket };

    fn from(error: OpenError) -> Stop {
        match error {
            OpenError::NoPoll(error) => Stop::socket("cannot make a poll", error),
            OpenError::NotPolled(error) => Stop::socket("cannot poll the listener", error),
        }
    }
}

impl From<AllocError> for Stop {
    ghost from_gives = { λ _ s. s ≡ of_ending Memory };

    fn from(_error: AllocError) -> Stop {
        Stop::from(Ending::Memory)
    }
}

impl<T: Drop> From<AllocFailed<T>> for Stop {
    ghost from_gives = { λ _ s. s ≡ of_ending Memory };

    fn from(_error: AllocFailed<T>) -> Stop {
        Stop::from(Ending::Memory)
    }
}
