//! `redproxy`: a proxy that clients use as one Redis server. It stands on `proxy_serve`, `proxy_local`, `proxy_config`,
//! `settings_fault`, `key_owners`, `proxy_command_line` and `proxy_exit_status`. Begin with `run`; `serve` is in `proxy_serve`,
//! `local` in `proxy_local`, `owner` in `owner.rt`.
#![tactic(auto)]

ghost use Rattle.std.specs.Prelude.{◌≡◌};
ghost use Rattle.proxy_exit_status.specs.Ending.{status_of};

mod owner;
mod settings;

use crate::settings::{checked, settings_of};
use mio::net::TcpListener;
use owner::run_owner;
use proxy_command_line::{
    Action, CommandLineError, KIT, MAX_NAME_BYTES, MAX_NAMES, ServeOptions, VERSION,
};
use proxy_config::Config;
use proxy_exit_status::Ending;
use proxy_local::local_run;
use proxy_serve::{Admin, Level, Log, Marks, Options, ProcessFiles, Stop, serve};
use std::fs::{File, Files};
use std::hash::RandomState;
use std::net::{Net, SocketAddr};
use std::process::ExitCode;
use std::random::RandomSource;
use std::rt::{Clock, Runtime};
use std::sync::Wait;
use std::thread::Threads;
use std::time::{SystemTime, UNIX_EPOCH};
use std::{env, io};

// The status of a bad command line.
const BAD_COMMAND_LINE: u8 = 2;

// Set by who started the program with SIGTERM blocked.
const SIGNALS: &str = "REDPROXY_SIGNALS_BLOCKED";

// Serves one client on standard input and output. Returns the status.
fn run_local<R: Runtime + AllocGlobal + Wait>(rt: &R) -> u8 {
    match local_run(rt, rt.alloc(), rt.reader(), io::writer(rt)) {
        Ok(_writer) => 0,
        Err(ending) => ended(rt, ending),
    }
}

// Prints the settings file's line, or what is wrong with it. Returns the status.
fn run_check<R: Runtime + AllocGlobal>(rt: &R, config: &str) -> u8 {
    match checked(rt, Log::new(false), config) {
        Ok(line) => match print!(rt; "{line}") {
            Ok(()) => 0,
            Err(_) => ended(rt, Ending::Socket),
        },
        Err(status) => status,
    }
}

// Serves clients on the settings' address. Returns the status.
fn run_serve<
    R: Runtime
        + AllocGlobal
        + Threads
        + Wait
        + Net<Listener = std::net::TcpListener, Stream = std::net::TcpStream>
        + RandomSource
        + Files<File = File>
        + Sync,
>(rt: &R, config: &str, options: ServeOptions) -> u8 {
    let log = log(rt);
    let config = match settings_of(rt, log, config) {
        Ok(config) => config,
        Err(status) => return status,
    };
    match serve_by(rt, config, log, options) {
        Ok(()) => 0,
        Err(stop) => stopped(rt, log, stop),
    }
}

fn serve_by<
    R: Runtime
        + AllocGlobal
        + Threads
        + Wait
        + Net<Listener = std::net::TcpListener, Stream = std::net::TcpStream>
        + RandomSource
        + Files<File = File>
        + Sync,
>(rt: &R, config: Config, log: Log, options: ServeOptions) -> Result<(), Stop> {
    let ServeOptions {
        connections,
        lines,
        idle_ms,
        drain_after_ms,
        metrics,
        behind,
    } = options;
    let listener = match TcpListener::bind(rt, config.listen) {
        Ok(listener) => listener,
        Err(error) => {
            return Err(Stop::socket_at("cannot listen on", config.listen, error));
        }
    };
    let options = Options {
        admin: admin(rt, metrics)?,
        status: File::open(rt, "/proc/self/status").ok(),
        is_term_blocked: env::var(rt, SIGNALS).is_ok(),
        lines,
        connections,
        idle_ms,
        drain_after_ms,
        marks: Marks::full(),
        behind,
        log,
    };
    serve(
        rt,
        rt.alloc(),
        listener,
        config,
        options,
        &mut io::writer(rt),
    )
}

// The seconds since 1970; 0 where the clock doesn't tell.
fn seconds<R: Clock>(rt: &R) -> u64 {
    let Ok(now) = SystemTime::now(rt) else {
        return 0;
    };
    match now.duration_since(UNIX_EPOCH) {
        Ok(since) => since.as_secs(),
        Err(_) => 0,
    }
}

// The operator's listener, if one is wanted.
fn admin<R: Runtime + RandomSource + Net + Files<File = File>>(
    rt: &R,
    metrics: Option<SocketAddr>,
) -> Result<Option<Admin>, Stop> {
    let Some(address) = metrics else {
        return Ok(None);
    };
    let listener = match TcpListener::bind(rt, address) {
        Ok(listener) => listener,
        Err(error) => return Err(Stop::socket_at("cannot listen on", address, error)),
    };
    match RandomState::new(rt) {
        Ok(keys) => Ok(Some(Admin {
            listener,
            keys,
            version: VERSION,
            kit: KIT,
            process: ProcessFiles {
                stat: File::open(rt, "/proc/self/stat").ok(),
                files: File::open(rt, "/proc/self/fd").ok(),
                began: seconds(rt),
            },
        })),
        Err(error) => Err(Stop::socket("cannot get random numbers", error)),
    }
}

// Under systemd, lines begin with their level.
fn log<R: Runtime + AllocGlobal>(rt: &R) -> Log {
    Log::new(env::var(rt, "JOURNAL_STREAM").is_ok())
}

// Logs why the program ends. Returns the status.
fn ended<R: Eprint>(rt: &R, ending: Ending) -> u8
    ensures { result ≡ status_of ending }
{
    let _ = eprintln!(rt; "{ending}");
    ending.status()
}

// Logs why the server ended and what failed. Returns the status.
fn stopped<R: Eprint>(rt: &R, log: Log, stop: Stop) -> u8
    ensures { result ≡ status_of stop.ending }
{
    let tag = log.tag(Level::Error);
    let _ = eprintln!(rt; "{tag}{stop}");
    stop.status()
}

fn run<
    R: Runtime
        + AllocGlobal
        + Threads
        + Wait
        + Net<Listener = std::net::TcpListener, Stream = std::net::TcpStream>
        + RandomSource
        + Files<File = File>
        + Sync,
>(rt: &R) -> u8 {
    let words = match env::args(rt) {
        Ok(words) => words,
        Err(error) if error.kind() == io::ErrorKind::OutOfMemory => {
            return ended(rt, Ending::Memory);
        }
        Err(_) => {
            let _ = eprintln!(rt; "error: the arguments are not UTF-8");
            return BAD_COMMAND_LINE;
        }
    };
    let Ok(words) = words.collect::<Vec<String>>(rt.alloc()) else {
        return ended(rt, Ending::Memory);
    };
    match proxy_command_line::read(rt.alloc(), words.as_slice()) {
        Ok(Action::Local) => run_local(rt),
        Ok(Action::Check { config }) => run_check(rt, config.as_str()),
        Ok(Action::Owner { config, is_hex }) => run_owner(rt, config.as_str(), is_hex),
        Ok(Action::Serve { config, options }) => run_serve(rt, config.as_str(), options),
        Err(error) => refused_words(rt, error),
    }
}

// Logs what is wrong with the command line, or prints its help. Returns the status.
fn refused_words<R: Print + Eprint>(rt: &R, error: CommandLineError) -> u8 {
    let _ = match error {
        CommandLineError::Memory => return ended(rt, Ending::Memory),
        CommandLineError::Parser(text) => {
            return match text.print(rt) {
                Ok(()) if text.is_help() => 0,
                Ok(()) => BAD_COMMAND_LINE,
                Err(_) => ended(rt, Ending::Socket),
            };
        }
        CommandLineError::NoAddress => eprintln!(rt;
            "error: what --metrics names is no address with a port, as 127.0.0.1:9121"
        ),
        CommandLineError::EmptyName => eprintln!(rt;
            "error: --close-behind has an empty name; it takes names with commas, as multi,select"
        ),
        CommandLineError::LongName => eprintln!(rt;
            "error: --close-behind has a name of more than {MAX_NAME_BYTES} bytes"
        ),
        CommandLineError::ManyNames => eprintln!(rt;
            "error: --close-behind has more than {MAX_NAMES} names"
        ),
        CommandLineError::Supported { name } => eprintln!(rt;
            "error: --close-behind names {name}, which is supported and isn't refused"
        ),
    };
    BAD_COMMAND_LINE
}

fn main(rt: HostRuntime) -> ExitCode {
    ExitCode::from(run(&rt))
}
