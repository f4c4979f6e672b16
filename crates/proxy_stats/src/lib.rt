//! Counts what a proxy did, by its journal.
//!
//! [`counts`] reads the journal of a core once. [`TalliedCore`] is a core that counts as it goes, with the same result.
//! [`RefusedNames`] are those of its refused commands. [`Counts::plus`] joins the counts of one core and the next. It
//! stands on `proxy_core` and `proxy_notices`. Begin
//! with `tally.rt`, then `tallied_core.rt`.
#![tactic(auto)]

pub use counting::counts;
pub use laws::{names_are_counted, names_are_of_refusals, sums_are_counted};
pub use load::{HostLoad, Load, load_of};
pub use refused_names::{MAX_NAME_SHOWN, MAX_REFUSED_NAMES, RefusedName, RefusedNames};
pub use tallied_core::{Sight, TalliedCore};
pub use tally::{Counts, HostCounts, LOCAL_KINDS};

mod counting;
mod laws;
mod load;
mod refusals;
mod refused_names;
mod stepping;
mod tallied_core;
mod tally;
mod telling;
