ghost use Rattle.ejector.specs.Laws.{BackOnceTimeIsOver, FewAreOut, GoodEndsStreak, OpeningComesFirst, OpeningsStay, OthersChangeNothing, OthersMatterByLimitAndRates, OutUntilTimeIsOver, StateDecidesNext, StateGoesOn};

/// Before the first mark the state is the opening state.
pub fn opening_comes_first()
    ensures { OpeningComesFirst }
{}

/// The state after marks can be an opening state.
pub fn openings_stay()
    ensures { OpeningsStay }
{}

/// The state may be handed on at any mark.
pub fn state_goes_on()
    ensures { StateGoesOn }
{}

/// At most `max_percent` of the hosts are out, rounded up, and at least one may be.
pub fn few_are_out()
    ensures { FewAreOut }
{}

/// The state before a mark alone determines the state after it.
pub fn state_decides_next()
    ensures { StateDecidesNext }
{}

/// A host that is out comes back only at a sweep after its time.
pub fn out_until_time_is_over()
    ensures { OutUntilTimeIsOver }
{}

/// A sweep after the time of an ejected host brings it back. The host is out after that sweep
/// exactly if the sweep ejected it again.
pub fn back_once_time_is_over()
    ensures { BackOnceTimeIsOver }
{}

/// One good result sets a host's streak to 0.
pub fn good_ends_streak()
    ensures { GoodEndsStreak }
{}

/// The results of other hosts don't change a host.
pub fn others_change_nothing()
    ensures { OthersChangeNothing }
{}

/// Other hosts affect a host only through the limit and the rates of a sweep.
pub fn others_matter_by_limit_and_rates()
    ensures { OthersMatterByLimitAndRates }
{}
