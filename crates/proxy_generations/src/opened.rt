ghost use Rattle.std.specs.Prelude.{◌≡◌, ◌↔◌, Some, IsTrue, IfSome, IsNone};

/// An open generation: its number, and the last sweep that it knows.
#[derive(Clone, Copy, Default)]
pub(crate) struct Open {
    pub(crate) number: u64,
    pub(crate) swept: u64,
}

impl Open {
    ghost use Rattle.proxy_generations.specs.Older.{swept_at};
    ghost use Rattle.proxy_generations.specs.OpenGenerations.{IsNumber};

    pub(crate) fn has_number(kept: Option<Open>, number: u64) -> bool
        ensures { IsTrue result ↔ IsNumber kept number }
    {
        match kept {
            None => false,
            Some(kept) => kept.number == number,
        }
    }

    pub(crate) fn swept_at(self, number: u64, now: u64) -> Open
        ensures { result ≡ swept_at number now self }
    {
        if self.number == number {
            Open { number, swept: now }
        } else {
            self
        }
    }

    pub(crate) fn sweep_of(kept: Option<Open>, number: u64) -> Option<u64>
        ensures some { IfSome result
            (λ t. kept ≡ Some (record { number = number; swept = t })) }
        ensures none { IsNone result ↔ ¬ IsNumber kept number }
    {
        match kept {
            Some(kept) if kept.number == number => Some(kept.swept),
            _ => None,
        }
    }
}
