ghost use Rattle.std.specs.Prelude.{IfOk};
ghost use Rattle.settings_fault.specs.Lines.{ArePrintable, Explains};

use crate::place::Place;
use std::alloc::{AllocError, Global};
use std::fmt;

/// What is wrong with a settings file, and where. It is shown as `3:14: hosts[1] is "redis:6379"; wanted: ..`.
#[derive(Debug, Drop)]
pub struct Explanation {
    /// Where it stands.
    pub place: Place,

    /// The key, with what was found and what is wanted.
    pub text: String,
}

impl Explanation {
    /// The key, the rest of its line, and the place of this offset of the file.
    pub(crate) fn of(
        alloc: Global,
        file: &[u8],
        key: &str,
        offset: usize,
        rest: &str,
    ) -> Result<Explanation, AllocError>
        requires { ArePrintable rest.now }
        ensures { IfOk result (Explains file.now key.now) }
    {
        let text = format!(in alloc; "{key}{rest}")?;
        Ok(Explanation {
            place: Place::of(file, offset.min(file.len())),
            text,
        })
    }
}

impl fmt::Display for Explanation {
    fn fmt<W: fmt::Write>(&self, f: &mut fmt::Formatter<W>) -> fmt::Result {
        let (place, text) = (&self.place, &self.text);
        write!(f, "{place}: {text}")
    }
}
