ghost use Rattle.std.specs.Prelude.{◌≡◌, Bool, true, false};

/// What a core's journal keeps of its steps: all, or the newest alone.
pub trait Keeping: Drop {
    /// Whether it keeps all.
    ghost records: { Bool };

    /// Whether it keeps all.
    fn keeps_all() -> bool
        ensures { result ≡ records };
}

/// All steps are kept.
#[derive(Drop)]
pub struct Recording {}

/// The newest step alone is kept.
#[derive(Drop)]
pub struct Counting {}

impl Keeping for Recording {
    ghost records = { true };

    fn keeps_all() -> bool {
        true
    }
}

impl Keeping for Counting {
    ghost records = { false };

    fn keeps_all() -> bool {
        false
    }
}
