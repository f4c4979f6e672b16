//! In which order a round looks at clients.
ghost use Rattle.std.specs.Prelude.{◌≡◌, Some, slice_get};
ghost use Rattle.proxy_serve_core.specs.KeyRange.{CoverOnce};

/// The keys from `begin` on and below `end`.
#[derive(Clone, Copy, Debug, PartialEq, Eq)]
pub struct KeyRange {
    /// The least one.
    pub begin: usize,
    /// The number behind the greatest one.
    pub end: usize,
}

impl KeyRange {
    /// All keys in the order of a round that begins at this one: those from there on, and then those before. Each key below
    /// `usize::MAX` is in one of them alone.
    pub fn round_from(begin: usize) -> [KeyRange; 2]
        ensures once { CoverOnce result }
        ensures begins { slice_get result 0 ≡ Some (record { begin = begin; end = usize.MAX }) }
    {
        let behind = KeyRange {
            begin,
            end: usize::MAX,
        };
        let before = KeyRange {
            begin: 0,
            end: begin,
        };
        [behind, before]
    }
}
