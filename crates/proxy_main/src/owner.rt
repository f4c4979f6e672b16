//! `owner`: which host owns each key of standard input.

use crate::ended;
use crate::settings::{bytes_of, refused};
use key_owners::{KeyFault, KeyLines, KeyOwners, TellError, tell_owners};
use proxy_exit_status::Ending;
use proxy_serve::Log;
use std::io;
use std::rt::Runtime;

// The status of a line without a key.
const BAD_KEY: u8 = 2;

/// Prints each key of standard input with the host that owns it. Returns the status.
pub(crate) fn run_owner<R: Runtime + AllocGlobal>(rt: &R, config: &str, is_hex: bool) -> u8 {
    let owners = match owners_of(rt, config) {
        Ok(owners) => owners,
        Err(status) => return status,
    };
    let alloc = rt.alloc();
    let mut lines = KeyLines::new(alloc, owners, is_hex);
    match tell_owners(alloc, &mut lines, &mut rt.reader(), &mut io::writer(rt)) {
        Ok(()) => 0,
        Err(TellError::Device) => ended(rt, Ending::Socket),
        Err(TellError::Key(KeyFault::NoMemory)) => ended(rt, Ending::Memory),
        Err(TellError::Key(fault)) => {
            let _ = eprintln!(rt; "error: {fault}");
            BAD_KEY
        }
    }
}

// The owners by the settings in this file. What is wrong with these is logged; `Err` has the status to end with.
fn owners_of<R: Runtime + AllocGlobal>(rt: &R, path: &str) -> Result<KeyOwners, u8> {
    let log = Log::new(false);
    let bytes = bytes_of(rt, log, path)?;
    match KeyOwners::read(rt.alloc(), bytes.as_slice()) {
        Ok(owners) => Ok(owners),
        Err(error) => Err(refused(rt, log, path, bytes.as_slice(), error)),
    }
}
