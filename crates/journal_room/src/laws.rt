//! A law, the contract of a function that does nothing.
ghost use Rattle.std.specs.Prelude.{◌≤◌, length};
ghost use Rattle.resp_core.specs.Text.{text};
ghost use Rattle.proxy_history.specs.Value.{upstream_failure};
ghost use Rattle.proxy_history.specs.Arrival.{no_upstream_host, proxy_busy};
ghost use Rattle.journal_budget.specs.declared.payload.TheConstants.{MAX_PART_ERROR};

/// The errors in the place of a host's reply are no longer than the budget takes them to be.
pub fn part_errors_are_short()
    ensures failure { length (text upstream_failure) ≤ MAX_PART_ERROR }
    ensures no_host { length (text no_upstream_host) ≤ MAX_PART_ERROR }
    ensures busy { length (text proxy_busy) ≤ MAX_PART_ERROR }
{}
