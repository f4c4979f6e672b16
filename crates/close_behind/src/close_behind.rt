ghost use Rattle.std.specs.Prelude.{◌≡◌, ◌<◌, ◌||◌, length, IfOk, IfSome, IfNone, false, []};
ghost use Rattle.resp_core.specs.Command.{word};
ghost use Rattle.splitter.specs.Plan.{plan_of};
ghost use Rattle.splitter.specs.Request.{request_of};
ghost use Rattle.close_behind.specs.CloseBehind.{IsCommandNamed, closes_behind, is_among, is_refused};

use crate::name_list::NameList;
use command_table::look;
use resp_core::SpelledCommand;
use splitter::Request;
use std::alloc::{AllocError, Global};
use std::marker::Model;
use std::sync::Arc;

// `None`: the request is no command.
fn command_name(request: &Request) -> Option<&[u8]>
    ensures some { IfSome result (λ name. IsCommandNamed (request_of request.now) name.now) }
    ensures none { IfNone result (is_refused (plan_of (request_of request.now)) ≡ false) }
{
    match request {
        Request::Read(value) => match value.words() {
            Some(words) => Some(words.word(0).as_slice()),
            None => None,
        },
        Request::Spelled(command) => Some(first_word(command)),
        Request::Broken => None,
    }
}

fn first_word(command: &SpelledCommand) -> &[u8]
    ensures some { 0 < length command.now }
    ensures word { result.now ≡ word command.now 0 }
{
    // (it tells that there is one)
    let _ = command.count();
    command.word(0)
}

/// Behind which refused commands a connection is closed: none, those of some names, or all.
pub struct CloseBehind {
    is_all: bool,
    names: Option<Arc<NameList>>,
}

impl Drop for CloseBehind {
    fn drop(self) {
        let CloseBehind {
            is_all: _,
            names: _,
        } = self;
    }
}

impl Model for CloseBehind {
    ghost use Rattle.close_behind.specs.CloseBehind.{Behind};
    ghost use Rattle.std.specs.Arc.{arc_value};
    ghost use Rattle.std.specs.Prelude.{[], Option};
    ghost use Rattle.std.specs.Option.{option_map};
    ghost use Rattle.std.specs.Prelude.{unwrap_or};

    ghost Value = { Behind };

    ghost view = { λ c. record {
      all = c.is_all;
      names = unwrap_or (option_map arc_value c.names) [];
    } };
}

impl CloseBehind {
    ghost use Rattle.std.specs.Prelude.{true};

    /// None.
    pub fn none() -> CloseBehind
        ensures { result ≡ record { all = false; names = [] } }
    {
        CloseBehind {
            is_all: false,
            names: None,
        }
    }

    /// All that the proxy refuses as unsupported.
    pub fn all() -> CloseBehind
        ensures { result ≡ record { all = true; names = [] } }
    {
        CloseBehind {
            is_all: true,
            names: None,
        }
    }

    // Those of these names.
    pub(crate) fn named(alloc: Global, names: NameList) -> Result<CloseBehind, AllocError>
        ensures { IfOk result (λ c. c ≡ record { all = false; names = names }) }
    {
        match Arc::new(alloc, names) {
            Ok(names) => Ok(CloseBehind {
                is_all: false,
                names: Some(names),
            }),
            Err(_) => Err(AllocError),
        }
    }

    /// The same, which takes no memory of its own. Refused only where too many are there.
    pub fn share(&self) -> Result<CloseBehind, AllocError>
        ensures { IfOk result (λ c. c ≡ self.now) }
    {
        let names = match &self.names {
            Some(names) => Some(Arc::try_clone(names)?),
            None => None,
        };
        Ok(CloseBehind {
            is_all: self.is_all,
            names,
        })
    }

    /// Whether the connection is closed behind the request: the proxy refuses it as unsupported, and its name, in any case, is
    /// one of the names, or all are.
    pub fn closes(&self, request: &Request) -> bool
        ensures { result ≡ closes_behind self.now (request_of request.now) }
    {
        if !self.is_all && self.names.is_none() {
            return false;
        }
        let Some(name) = command_name(request) else {
            return false;
        };
        self.has(name) && look(name).is_none()
    }

    fn has(&self, name: &[u8]) -> bool
        ensures { result ≡ (self.now.all || is_among self.now.names name.now) }
    {
        if self.is_all {
            return true;
        }
        match &self.names {
            Some(names) => names.has(name),
            None => false,
        }
    }
}
