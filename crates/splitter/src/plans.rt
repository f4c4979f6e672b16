use bytes::Bytes;
use resp_core::Value;
use std::marker::Model;

/// An answer of the proxy's own.
#[derive(Clone, Copy, Debug, PartialEq, Eq, Hash, Drop)]
pub enum Local {
    /// PING of one word: simple `PONG`.
    Pong,
    /// ECHO of two words: its second word, as a bulk string.
    Echoed,
    /// QUIT: simple `OK`, and the connection finishes.
    Bye,
    /// A value that is no command: the error `invalid request`.
    Invalid,
    /// An unknown command: the error `unsupported command '<name>'`, with the first 64 bytes of the client's name,
    /// each outside 0x20 to 0x7E shown as `?`.
    Unsupported,
    /// The error `wrong number of arguments for '<name>' command`, with the table's name.
    WrongNumber,
    /// Bytes that are no text of a value: the error `downstream protocol error`, and the connection finishes.
    Broken,
}

/// How the parts' values are joined.
#[derive(Clone, Copy, Debug, PartialEq, Eq, Hash, Drop)]
pub enum Join {
    /// The value of the only part.
    Same,
    /// An array of the values; any but a bulk string, a null bulk string and an error becomes the error `upstream
    /// protocol error`.
    Get,
    /// Simple `OK` if each value is that, else the error `finished with <n> error(s)`, with the number of others.
    Set,
    /// The sum of the values. If n of them aren't integers, the error `finished with <n> error(s)`. Outside the
    /// signed 64-bit range, the error `upstream protocol error`.
    Sum,
}

/// A part of a command.
#[derive(Drop)]
pub struct PartPlan {
    /// The key.
    pub key: Bytes,
    /// The one spelling of its words.
    pub text: Bytes,
}

/// The parts of a command in their order.
#[derive(Drop)]
pub struct PartPlans(pub Vec<PartPlan>);

impl Model for PartPlans {
    ghost use Rattle.std.specs.Prelude.{List};
    ghost use Rattle.splitter.specs.declared.plans.PartPlan.{PartPlan};

    ghost Value = { List PartPlan };

    ghost view = { λ p. p.0.items };
}

/// What the proxy does with a request.
#[derive(Drop)]
pub enum Plan {
    /// The proxy answers this itself.
    Here(Local, Value),
    /// The same, and the connection finishes.
    Leave(Local, Value),
    /// Hosts answer these parts.
    Parts {
        /// How the values are joined.
        how: Join,
        /// The parts, exactly one for `Same`.
        list: PartPlans,
    },
}

/// A plan that lends the key of a whole command.
#[derive(Drop)]
pub enum Planned<'a> {
    /// One host answers the whole command.
    Whole {
        /// The key, a word of the request.
        key: &'a [u8],
        /// The command's one spelling.
        text: Bytes,
    },
    /// Any other plan.
    Other(Plan),
}
