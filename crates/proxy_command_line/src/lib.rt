//! The command line of `redproxy`. It stands on `clap` and `close_behind`; begin with `read`.
#![tactic(auto)]

use clap::error::ErrorKind;
use clap::{Arg, ArgAction, Command, Error, value_parser};
use close_behind::{CloseBehind, NameError, NameList};
use std::alloc::{AllocError, Global};
use std::io;
use std::net::SocketAddr;

/// The program's version.
pub const VERSION: &str = "0.3.0";

/// The kit that proved and built it.
pub const KIT: &str = "rattle-kit-13f logic dac8208d650f15bf";

const VERSION_AND_KIT: &str = "0.3.0 (rattle-kit-13f logic dac8208d650f15bf)";

pub use close_behind::{MAX_NAME_BYTES, MAX_NAMES};

/// The request of the command line.
#[derive(Drop)]
pub enum Action {
    /// Serve one client on standard input and output.
    Local,
    /// Check a settings file.
    Check {
        /// The file's path.
        config: String,
    },
    /// Serve clients on sockets.
    Serve {
        /// The settings file's path.
        config: String,
        /// How it is served.
        options: ServeOptions,
    },
    /// Tell which host owns each key of standard input.
    Owner {
        /// The settings file's path.
        config: String,
        /// Whether keys are hexadecimal.
        is_hex: bool,
    },
}

/// The options of serving beside its settings.
#[derive(Drop)]
pub struct ServeOptions {
    /// The server ends after this many closed connections; 0 is never.
    pub connections: u64,
    /// The number of lines of generations.
    pub lines: u32,
    /// Milliseconds until an idle client is closed; 0: never.
    pub idle_ms: u64,
    /// Milliseconds from an order to its drain.
    pub drain_after_ms: u64,
    /// The operator's address for HTTP.
    pub metrics: Option<SocketAddr>,
    /// Behind which refused commands a connection is closed.
    pub behind: CloseBehind,
}

/// Why the words make no request.
#[derive(Drop)]
pub enum CommandLineError {
    /// Memory was refused.
    Memory,
    /// `--metrics` has no address with a port.
    NoAddress,
    /// `--close-behind` has an empty name.
    EmptyName,
    /// `--close-behind` has a name of more than `MAX_NAME_BYTES` bytes.
    LongName,
    /// `--close-behind` has more than `MAX_NAMES` names.
    ManyNames,
    /// `--close-behind` has the name of a command that is never refused as unsupported.
    Supported {
        /// The name.
        name: String,
    },
    /// The parser's text is to be printed.
    Parser(ParserText),
}

/// The parser's text: an error, or the help.
#[derive(Drop)]
pub struct ParserText {
    error: Error,
}

impl ParserText {
    /// Prints help on standard output, errors on standard error. Returns an error of that stream.
    pub fn print<R: Print + Eprint>(&self, rt: &R) -> io::Result<()> {
        self.error.print(rt)
    }

    /// Whether it is the help.
    pub fn is_help(&self) -> bool {
        self.error.exit_code() == 0
    }
}

impl From<AllocError> for CommandLineError {
    fn from(_error: AllocError) -> CommandLineError {
        CommandLineError::Memory
    }
}

impl From<Error> for CommandLineError {
    fn from(error: Error) -> CommandLineError {
        if error.kind() == ErrorKind::OutOfMemory {
            CommandLineError::Memory
        } else {
            CommandLineError::Parser(ParserText { error })
        }
    }
}

fn config<'a>(alloc: Global) -> Arg<'a> {
    Arg::new(alloc, "config")
        .long("config")
        .value_name("FILE")
        .help("The settings file")
        .required(true)
        .action(ArgAction::Set)
}

fn connections<'a>(alloc: Global) -> Arg<'a> {
    Arg::new(alloc, "connections")
        .long("connections")
        .value_name("N")
        .help("End after so many connections have closed, and tell what happened; 0 is never")
        .value_parser(value_parser!(u32))
        .default_value("0")
        .action(ArgAction::Set)
}

fn lines<'a>(alloc: Global) -> Arg<'a> {
    Arg::new(alloc, "lines")
        .long("lines")
        .value_name("N")
        .help(
            "Run so many lines of generations, 1 to 64, each with the workers of the settings and ejections of its own",
        )
        .value_parser(value_parser!(u32).range(1..=64))
        .default_value("1")
        .action(ArgAction::Set)
}

fn idle<'a>(alloc: Global) -> Arg<'a> {
    Arg::new(alloc, "idle-ms")
        .long("idle-ms")
        .value_name("N")
        .help(
            "Close a client to which nothing is owed, and which sends nothing, for so many milliseconds, 1 to 86400000",
        )
        .value_parser(value_parser!(u32).range(1..=86_400_000))
        .action(ArgAction::Set)
}

fn drain_after<'a>(alloc: Global) -> Arg<'a> {
    Arg::new(alloc, "drain-after")
        .long("drain-after")
        .value_name("MS")
        .help(
            "Begin to drain so many milliseconds after the order, 0 to 86400000; /ready tells of it at once",
        )
        .value_parser(value_parser!(u32).range(0..=86_400_000))
        .default_value("0")
        .action(ArgAction::Set)
}

fn metrics<'a>(alloc: Global) -> Arg<'a> {
    Arg::new(alloc, "metrics")
        .long("metrics")
        .value_name("ADDRESS")
        .help(
            "Tell by HTTP at this address how the serving stands, as 127.0.0.1:9121, and take orders to end",
        )
        .action(ArgAction::Set)
}

fn behind<'a>(alloc: Global) -> Arg<'a> {
    Arg::new(alloc, "close-behind")
        .long("close-behind")
        .value_name("NAMES")
        .help(
            "Close a connection behind the first refused command of these names, as multi,select, or behind any for all",
        )
        .action(ArgAction::Set)
}

fn hex<'a>(alloc: Global) -> Arg<'a> {
    Arg::new(alloc, "hex")
        .long("hex")
        .help("Each line writes its key in hexadecimal digits, of either case")
        .action(ArgAction::SetTrue)
}

fn address(word: Option<&str>) -> Result<Option<SocketAddr>, CommandLineError> {
    let Some(word) = word else {
        return Ok(None);
    };
    match word.parse::<SocketAddr>() {
        Ok(address) => Ok(Some(address)),
        Err(_) => Err(CommandLineError::NoAddress),
    }
}

// `all` among the names stands for each refused command.
fn closing(alloc: Global, word: Option<&str>) -> Result<CloseBehind, CommandLineError> {
    let Some(word) = word else {
        return Ok(CloseBehind::none());
    };
    let (mut names, mut is_all, mut rest) = (NameList::new(alloc), false, word);
    for _ in 0..word.len() {
        let Some((name, behind)) = rest.split_once(',') else {
            break;
        };
        is_all = add_name(alloc, &mut names, name)? || is_all;
        rest = behind;
    }
    is_all = add_name(alloc, &mut names, rest)? || is_all;
    if is_all {
        return Ok(CloseBehind::all());
    }
    Ok(names.finish(alloc)?)
}

// Whether the name is `all`.
fn add_name(alloc: Global, names: &mut NameList, name: &str) -> Result<bool, CommandLineError> {
    match names.add(alloc, name.as_bytes()) {
        Ok(()) => Ok(name.eq_ignore_ascii_case("all")),
        Err(NameError::NoMemory) => Err(CommandLineError::Memory),
        Err(NameError::Empty) => Err(CommandLineError::EmptyName),
        Err(NameError::TooLong) => Err(CommandLineError::LongName),
        Err(NameError::TooMany) => Err(CommandLineError::ManyNames),
        Err(NameError::Supported) => Err(CommandLineError::Supported {
            name: String::from_str(alloc, name)?,
        }),
    }
}

fn check<'a>(alloc: Global) -> Result<Command<'a>, AllocError> {
    Command::new(alloc, "check")
        .about("Reads a settings file, and tells its hosts and digests, or its first fault")
        .arg(config(alloc))
}

fn serve<'a>(alloc: Global) -> Result<Command<'a>, AllocError> {
    Command::new(alloc, "serve")
        .about("Serves clients on the address that the settings name")
        .arg(config(alloc))?
        .arg(connections(alloc))?
        .arg(lines(alloc))?
        .arg(idle(alloc))?
        .arg(drain_after(alloc))?
        .arg(metrics(alloc))?
        .arg(behind(alloc))
}

fn owner<'a>(alloc: Global) -> Result<Command<'a>, AllocError> {
    Command::new(alloc, "owner")
        .about(
            "Reads keys from standard input, one a line, and prints each with the host that owns it while none is ejected",
        )
        .arg(config(alloc))?
        .arg(hex(alloc))
}

fn local<'a>(alloc: Global) -> Result<Command<'a>, AllocError> {
    Command::new(alloc, "redproxy")
        .about("A proxy that clients speak to as to one Redis server")
        .version(VERSION_AND_KIT)
        .subcommand_required(true)
        .subcommand(Command::new(alloc, "local").about(
            "Serves one client on standard input and output, who goes on behind each refused command",
        ))
}

fn command<'a>(alloc: Global) -> Result<Command<'a>, AllocError> {
    local(alloc)?
        .subcommand(check(alloc)?)?
        .subcommand(owner(alloc)?)?
        .subcommand(serve(alloc)?)
}

/// Reads the words, the first of which is the program's name.
pub fn read(alloc: Global, words: &[String]) -> Result<Action, CommandLineError> {
    let matches = command(alloc)?.try_get_matches_from(words)?;
    match matches.subcommand() {
        Some(("check", matches)) => {
            let config = String::from_str(alloc, matches.get_str("config").unwrap_or(""))?;
            Ok(Action::Check { config })
        }
        Some(("owner", matches)) => {
            let config = String::from_str(alloc, matches.get_str("config").unwrap_or(""))?;
            let is_hex = matches.get_flag("hex");
            Ok(Action::Owner { config, is_hex })
        }
        Some(("serve", matches)) => {
            let config = String::from_str(alloc, matches.get_str("config").unwrap_or(""))?;
            let options = ServeOptions {
                connections: u64::from(matches.get_one::<u32>("connections").unwrap_or(0)),
                lines: matches.get_one::<u32>("lines").unwrap_or(1),
                idle_ms: u64::from(matches.get_one::<u32>("idle-ms").unwrap_or(0)),
                drain_after_ms: u64::from(matches.get_one::<u32>("drain-after").unwrap_or(0)),
                metrics: address(matches.get_str("metrics"))?,
                behind: closing(alloc, matches.get_str("close-behind"))?,
            };
            Ok(Action::Serve { config, options })
        }
        _ => Ok(Action::Local),
    }
}
