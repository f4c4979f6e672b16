//! The settings file of `serve` and `check`. What is wrong with it is logged for people, with its place, and in the last
//! line for programs.

use proxy_config::{Config, ConfigError, check_line};
use proxy_exit_status::Ending;
use proxy_serve::{Level, Log};
use settings_fault::{Explanation, explain, warning};
use std::rt::Runtime;
use std::{fs, io};

// The status of bad settings.
const BAD_SETTINGS: u8 = 3;

/// The settings in this file. What is wrong with them is logged; `Err` has the status to end with.
pub(crate) fn settings_of<R: Runtime + AllocGlobal>(
    rt: &R,
    log: Log,
    path: &str,
) -> Result<Config, u8> {
    let bytes = bytes_of(rt, log, path)?;
    settings_in(rt, log, path, bytes.as_slice())
}

/// The line of `check` for the settings that [`settings_of`] returns.
pub(crate) fn checked<R: Runtime + AllocGlobal>(
    rt: &R,
    log: Log,
    path: &str,
) -> Result<String, u8> {
    let bytes = bytes_of(rt, log, path)?;
    let _config = settings_in(rt, log, path, bytes.as_slice())?;
    match check_line(rt.alloc(), bytes.as_slice()) {
        Ok(line) => Ok(line),
        Err(error) => Err(refused(rt, log, path, bytes.as_slice(), error)),
    }
}

/// The bytes of this file. What is wrong with it is logged; `Err` has the status to end with.
pub(crate) fn bytes_of<R: Runtime + AllocGlobal>(
    rt: &R,
    log: Log,
    path: &str,
) -> Result<Vec<u8>, u8> {
    match fs::read(rt, path) {
        Ok(bytes) => Ok(bytes),
        Err(error) if error.kind() == io::ErrorKind::OutOfMemory => Err(spent(rt, log)),
        Err(error) => {
            let tag = log.tag(Level::Error);
            let _ = eprintln!(rt; "{tag}redproxy: {path}: {error}");
            Err(bad_settings(rt, log, ConfigError::Fault("file")))
        }
    }
}

fn settings_in<R: Runtime + AllocGlobal>(
    rt: &R,
    log: Log,
    path: &str,
    bytes: &[u8],
) -> Result<Config, u8> {
    let config = match Config::read(rt.alloc(), bytes) {
        Ok(config) => config,
        Err(error) => return Err(refused(rt, log, path, bytes, error)),
    };
    match warning(rt.alloc(), bytes, &config) {
        Ok(Some(told)) => tell(rt, log.tag(Level::Warning), path, told),
        Ok(None) => {}
        Err(_) => return Err(spent(rt, log)),
    }
    Ok(config)
}

/// Logs why these settings are refused. Returns the status.
pub(crate) fn refused<R: Runtime + AllocGlobal>(
    rt: &R,
    log: Log,
    path: &str,
    bytes: &[u8],
    error: ConfigError,
) -> u8 {
    let ConfigError::Fault(key) = error else {
        return spent(rt, log);
    };
    match explain(rt.alloc(), bytes, key) {
        Ok(told) => tell(rt, log.tag(Level::Error), path, told),
        Err(_) => return spent(rt, log),
    }
    bad_settings(rt, log, error)
}

fn tell<R: Eprint>(rt: &R, tag: &str, path: &str, told: Explanation) {
    let _ = eprintln!(rt; "{tag}redproxy: {path}:{told}");
}

fn bad_settings<R: Eprint>(rt: &R, log: Log, error: ConfigError) -> u8 {
    let tag = log.tag(Level::Error);
    let _ = eprintln!(rt; "{tag}{error}");
    BAD_SETTINGS
}

// Logs that memory was refused. Returns the status.
fn spent<R: Eprint>(rt: &R, log: Log) -> u8 {
    let tag = log.tag(Level::Error);
    let ending = Ending::Memory;
    let _ = eprintln!(rt; "{tag}{ending}");
    ending.status()
}
