ghost use Rattle.std.specs.Prelude.{◌≡◌, map};
ghost use Rattle.std.specs.Option.{option_map};
ghost use Rattle.stub_server.specs.Command.{rows, command_in, command_named};
ghost use Rattle.stub_server.specs.Row.{row_of};

/// The operation of a command.
#[derive(Clone, Copy, Debug, PartialEq, Eq)]
pub enum Command {
    /// GET: the value of a key.
    Get,
    /// SET: a key has this value from now on.
    Set,
    /// DEL and UNLINK: the keys are removed.
    Del,
    /// EXISTS and TOUCH: the number of words that are keys.
    Exists,
    /// INCR: the number at a key grows by one.
    Incr,
}

/// A name and its command.
#[derive(Clone, Copy, Debug, PartialEq, Eq)]
pub struct NamedCommand {
    /// The name, in lower case.
    pub name: &'static str,
    /// The operation of this name.
    pub command: Command,
}

const NAMED: [NamedCommand; 7] = [
    NamedCommand {
        name: "get",
        command: Command::Get,
    },
    NamedCommand {
        name: "set",
        command: Command::Set,
    },
    NamedCommand {
        name: "del",
        command: Command::Del,
    },
    NamedCommand {
        name: "unlink",
        command: Command::Del,
    },
    NamedCommand {
        name: "exists",
        command: Command::Exists,
    },
    NamedCommand {
        name: "touch",
        command: Command::Exists,
    },
    NamedCommand {
        name: "incr",
        command: Command::Incr,
    },
];

/// Compared without ASCII case.
pub(crate) fn command_named(name: &[u8]) -> Option<Command>
    ensures { result ≡ command_named name.now }
{
    command_among(all_named(), name)
}

fn all_named() -> &'static [NamedCommand]
    ensures { map row_of result.now ≡ rows }
{
    &NAMED
}

fn command_among(named: &[NamedCommand], name: &[u8]) -> Option<Command>
    ensures { result ≡ command_in (map row_of named.now) name.now }
{
    for known in named {
        if name.eq_ignore_ascii_case(known.name.as_bytes()) {
            return Some(known.command);
        }
    }
    None
}

impl Command {
    ghost use Rattle.stub_server.specs.Command.{takes};

    /// The name counts as a word.
    pub(crate) fn takes(self, words: usize) -> bool
        ensures { result ≡ takes self words }
    {
        match self {
            Command::Get | Command::Incr => words == 2,
            Command::Set => words == 3,
            Command::Del | Command::Exists => words >= 2,
        }
    }
}
