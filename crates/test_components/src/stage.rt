use crate::fake_devices::{Feed, Taken};
use std::alloc::Global;
use std::cell::Cell;

#[derive(Drop)]
pub(crate) struct Visitor {
    pub(crate) says: Cell<Feed>,
    pub(crate) took: Taken,
}

impl Visitor {
    fn new(alloc: Global) -> Visitor {
        Visitor {
            says: Cell::new(Feed::Open(b"")),
            took: Taken::new(alloc),
        }
    }
}

// What two clients took, and what was asked over the first link and over later ones.
pub(crate) struct Stage {
    pub(crate) first: Visitor,
    pub(crate) second: Visitor,
    pub(crate) host: Cell<Feed>,
    pub(crate) asked: Taken,
    pub(crate) asked_later: Taken,
}

impl Drop for Stage {
    fn drop(self) {
        let Stage {
            first: _,
            second: _,
            host: _,
            asked: _,
            asked_later: _,
        } = self;
    }
}

impl Stage {
    pub(crate) fn new(alloc: Global) -> Stage {
        Stage {
            first: Visitor::new(alloc),
            second: Visitor::new(alloc),
            host: Cell::new(Feed::Open(b"")),
            asked: Taken::new(alloc),
            asked_later: Taken::new(alloc),
        }
    }
}
