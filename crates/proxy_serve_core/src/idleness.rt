ghost use Rattle.std.specs.Prelude.{◌≡◌, ◌↔◌, ◌∷◌, [], List, IsTrue};
ghost use Rattle.proxy_serve_core.specs.declared.idleness.ClientSight.{ClientSight as Sight};
ghost use Rattle.proxy_serve_core.specs.Idleness.{HasRested, Lasts, Tells};

/// What was seen of a client at a moment.
#[derive(Clone, Copy, Debug, PartialEq, Eq)]
pub struct ClientSight {
    /// The moment, in milliseconds.
    pub now: u64,
    /// How many of its bytes had come.
    pub came: u64,
    /// Whether it owed nothing and was owed nothing: no command was unfinished or unanswered, and no answer unwritten.
    pub is_at_rest: bool,
}

/// Since when a client is idle: at rest, without a byte that came. It goes with the client's socket.
#[derive(Clone, Copy, Debug, PartialEq, Eq, Drop)]
pub struct Idleness {
    // How many of its bytes had come when it was last seen.
    came: u64,
    // `None`: it wasn't at rest then.
    since: Option<u64>,
}

impl Idleness {
    /// That of a client that wasn't seen yet.
    pub fn new() -> Idleness
        ensures { Tells [] result }
    {
        Idleness {
            came: 0,
            since: None,
        }
    }

    /// Takes in what is seen of the client now. It is idle from the first sight on at which it is at rest and no byte has come
    /// since the sight before.
    pub fn note(&mut self, sight: ClientSight)
        ensures { (sights : List Sight) → Tells sights self.old → Tells (sight ∷ sights) self.new }
    {
        let ClientSight {
            now,
            came,
            is_at_rest,
        } = sight;
        if !is_at_rest {
            *self = Idleness { came, since: None };
        } else if self.came != came || self.since.is_none() {
            *self = Idleness {
                came,
                since: Some(now),
            };
        }
    }

    /// Whether the client has been idle for this many milliseconds or more.
    pub fn lasts(&self, now: u64, ms: u64) -> bool
        ensures lasts { IsTrue result ↔ Lasts now ms self.now }
        ensures tells { (sights : List Sight) → Tells sights self.now
            → IsTrue result ↔ HasRested now ms sights }
    {
        self.is_as_old(now, ms)
    }

    fn is_as_old(&self, now: u64, ms: u64) -> bool
        ensures { IsTrue result ↔ Lasts now ms self.now }
    {
        match self.since {
            Some(since) => since <= now && now - since >= ms,
            None => false,
        }
    }
}
