ghost use Rattle.journal_budget.specs.ChargeLaws.{AloneHasRoom, ChargedFits, RoomHoldsCharges};
ghost use Rattle.journal_budget.specs.ReplySizes.{LargeIsCharged, LateAreCounted, SmallAgain};
ghost use Rattle.journal_budget.specs.BudgetLaws.{CommandFits, OwedFits, OwedIsPaid, PaysAtFirst, PaysOnceLent, PaysOnceNoted, PaysOnceSettled};
ghost use Rattle.journal_budget.specs.PayloadLaws.{ErrorsFit};

/// A command of at most 1,023 parts costs at most `MAX_COMMAND_STEPS` steps.
///
/// The steps made and those still owed are together the cost of all steps, less the steps set free. So all owed steps
/// fit the journal if no worker makes a step that costs more than it has free.
pub fn owed_steps_fit()
    ensures command { CommandFits }
    ensures paid { OwedIsPaid }
    ensures first { PaysAtFirst }
    ensures lent { PaysOnceLent }
    ensures noted { PaysOnceNoted }
    ensures settled { PaysOnceSettled }
    ensures fits { OwedFits }
{}

/// Errors in the places of all parts that a journal has room for fit the bytes that are kept for errors.
pub fn errors_fit()
    ensures { ErrorsFit }
{}

/// A charge covers its reply. 48 small ones end it. Large ones of late are counted.
pub fn reply_sizes_follow()
    ensures charged { LargeIsCharged }
    ensures small { SmallAgain }
    ensures late { LateAreCounted }
{}

/// Charges hold room for the replies that they are for. One alone keeps its command from nothing.
pub fn charged_replies_fit()
    ensures fits { ChargedFits }
    ensures holds { RoomHoldsCharges }
    ensures alone { AloneHasRoom }
{}
