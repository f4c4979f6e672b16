ghost use Rattle.command_table.specs.Table.{is_name};
ghost use Rattle.std.specs.Prelude.{◌≡◌, ◌++◌, ◌∷◌, [], false, IfOk, IfErr, OnOk};

use crate::close_behind::CloseBehind;
use command_table::look;
use std::alloc::{AllocError, Global};
use std::marker::Model;

/// The most names.
pub const MAX_NAMES: usize = 64;

/// The most bytes of a name.
pub const MAX_NAME_BYTES: usize = 64;

/// Why a name isn't added.
#[derive(Clone, Copy, Debug, PartialEq, Eq, Drop)]
pub enum NameError {
    /// Memory was refused.
    NoMemory,
    /// The name is empty.
    Empty,
    /// The name has more than `MAX_NAME_BYTES` bytes.
    TooLong,
    /// There are `MAX_NAMES` names.
    TooMany,
    /// The proxy supports the command.
    Supported,
}

#[derive(Drop)]
struct Name {
    bytes: Vec<u8>,
}

impl Model for Name {
    ghost use Rattle.std.specs.Prelude.{List, ℕ};

    ghost Value = { List ℕ };

    ghost view = { λ n. n.bytes.items };
}

impl Name {
    fn of(alloc: Global, name: &[u8]) -> Result<Name, AllocError>
        ensures { IfOk result (λ n. n ≡ name.now) }
    {
        let mut bytes = Vec::with_capacity(alloc, name.len())?;
        bytes.extend_from_slice(name)?;
        Ok(Name { bytes })
    }

    fn is(&self, name: &[u8]) -> bool
        ensures { result ≡ is_name name.now self.now }
    {
        name.eq_ignore_ascii_case(self.bytes.as_slice())
    }
}

/// The names of commands behind which a connection is closed, as they are added.
#[derive(Drop)]
pub struct NameList {
    names: Vec<Name>,
}

impl Model for NameList {
    ghost use Rattle.std.specs.Prelude.{List, ℕ};

    ghost Value = { List (List ℕ) };

    ghost view = { λ l. l.names.items };
}

impl NameList {
    ghost use Rattle.close_behind.specs.CloseBehind.{MayAdd, NameFault, is_among};

    /// No name.
    pub fn new(alloc: Global) -> NameList
        ensures { result ≡ [] }
    {
        NameList {
            names: Vec::new(alloc),
        }
    }

    /// One name more. Refused with its fault; the names stay as they were.
    pub fn add(&mut self, alloc: Global, name: &[u8]) -> Result<(), NameError>
        ensures ok { OnOk result (self.new ≡ self.old ++ name.now ∷ []) }
        ensures may { OnOk result (MayAdd self.old name.now) }
        ensures err { IfErr result (λ e. (self.new ≡ self.old) × NameFault e self.old name.now) }
    {
        if name.is_empty() {
            return Err(NameError::Empty);
        }
        if name.len() > MAX_NAME_BYTES {
            return Err(NameError::TooLong);
        }
        if self.names.len() >= MAX_NAMES {
            return Err(NameError::TooMany);
        }
        if look(name).is_some() {
            return Err(NameError::Supported);
        }
        let Ok(name) = Name::of(alloc, name) else {
            return Err(NameError::NoMemory);
        };
        match self.names.push(name) {
            Ok(()) => Ok(()),
            Err(_) => Err(NameError::NoMemory),
        }
    }

    /// A connection is closed behind these.
    pub fn finish(self, alloc: Global) -> Result<CloseBehind, AllocError>
        ensures { IfOk result (λ c. c ≡ record { all = false; names = self }) }
    {
        CloseBehind::named(alloc, self)
    }

    pub(crate) fn has(&self, name: &[u8]) -> bool
        ensures { result ≡ is_among self.now name.now }
    {
        for one in &self.names {
            if one.is(name) {
                return true;
            }
        }
        false
    }
}
