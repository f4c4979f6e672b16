//! The steps of one journal: a generation accepts no command that it can't finish.
ghost use Rattle.std.specs.Prelude.{◌≡◌, ◌↔◌, ◌≤◌, ◌+◌, ◌-◌, IsTrue};
ghost use Rattle.std.specs.Bool.{OnTrue, OnFalse};

use crate::step_kind::StepKind;
use std::marker::Model;

const JOURNAL_STEPS: u64 = limits::MAX_STEPS as u64;

#[derive(Drop)]
pub(crate) struct Loan {
    lent: u64,
    spent: u64,
    freed: u64,
}

impl Model for Loan {
    ghost use Rattle.journal_budget.specs.Budget.{LoanState};

    ghost Value = { LoanState };

    ghost view = { λ l. record { lent = l.lent; spent = l.spent; freed = l.freed } };
}

impl Loan {
    ghost use Rattle.journal_budget.specs.Budget.{no_loan, free_steps, borrowed, loan_after};

    pub(crate) fn new() -> Loan
        ensures { result ≡ no_loan }
    {
        Loan {
            lent: 0,
            spent: 0,
            freed: 0,
        }
    }

    /// 0 where more was spent.
    #[inline(always)]
    pub(crate) fn free(&self) -> u64
        ensures { result ≡ free_steps self.now }
    {
        self.lent
            .saturating_add(self.freed)
            .saturating_sub(self.spent)
    }

    pub(crate) fn borrow(&mut self, steps: u64)
        ensures { self.new ≡ borrowed steps self.old }
    {
        self.lent = self.lent.saturating_add(steps);
    }

    /// Spending goes on past what is free; steps set free later make up for that first.
    #[inline(always)]
    pub(crate) fn note(&mut self, kind: StepKind)
        ensures { self.new ≡ loan_after kind self.old }
    {
        self.spent = self.spent.saturating_add(kind.cost());
        self.freed = self.freed.saturating_add(kind.freed());
    }
}

#[derive(Drop)]
pub(crate) struct Budget {
    spent: u64,
    lent: u64,
}

impl Model for Budget {
    ghost use Rattle.std.specs.Prelude.{◌+◌, ◌≤◌};
    ghost use Rattle.journal_budget.specs.declared.budget.TheConstants.{JOURNAL_STEPS};
    ghost use Rattle.journal_budget.specs.Budget.{BudgetState};

    ghost Value = { BudgetState };

    ghost view = { λ b. record { spent = b.spent; lent = b.lent } };

    ghost invariant = { λ b. b.spent + b.lent ≤ JOURNAL_STEPS };
}

impl Budget {
    ghost use Rattle.journal_budget.specs.Budget.{no_loan, no_budget, lent_more, settled};

    pub(crate) fn new() -> Budget
        ensures { result ≡ no_budget }
    {
        Budget { spent: 0, lent: 0 }
    }

    pub(crate) fn spent(&self) -> u64
        ensures spent { result ≡ self.now.spent }
        ensures fits { self.now.spent + self.now.lent ≤ JOURNAL_STEPS }
    {
        self.spent
    }

    /// False: they don't fit beside those spent and lent, and nothing changes.
    pub(crate) fn lend(&mut self, steps: u64) -> bool
        ensures fits { IsTrue result ↔ (self.old.spent + self.old.lent + steps ≤ JOURNAL_STEPS) }
        ensures lent { OnTrue result (self.new ≡ lent_more steps self.old) }
        ensures unchanged { OnFalse result (self.new ≡ self.old) }
    {
        if steps > JOURNAL_STEPS - self.spent - self.lent {
            return false;
        }
        self.lent += steps;
        true
    }

    /// Spent steps, less those set free, are spent for good. Lent ones are returned, and the loan is empty.
    pub(crate) fn settle(&mut self, loan: &mut Loan)
        ensures settled { self.new ≡ settled JOURNAL_STEPS loan.old self.old }
        ensures empty { loan.new ≡ no_loan }
    {
        self.lent = self.lent.saturating_sub(loan.lent);
        let spent = self
            .spent
            .saturating_add(loan.spent.saturating_sub(loan.freed))
            .saturating_sub(loan.freed.saturating_sub(loan.spent));
        self.spent = spent.min(JOURNAL_STEPS - self.lent);
        *loan = Loan::new();
    }
}
