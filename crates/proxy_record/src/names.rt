//! The names that stand in lines.
ghost use Rattle.std.specs.Prelude.{◌≡◌};
ghost use Rattle.proxy_record.specs.Names.{kind_name, local_name, trip_name};

use proxy_history::{Kind, Local, Trip};

/// The name of a fault's kind.
pub(crate) fn kind_name(kind: Kind) -> &'static str
    ensures { result.now ≡ kind_name kind }
{
    match kind {
        Kind::Refused => "Refused",
        Kind::Dropped => "Dropped",
        Kind::Late => "Late",
        Kind::Garbled => "Garbled",
    }
}

/// The name of what a result did to its host.
pub(crate) fn trip_name(trip: Trip) -> &'static str
    ensures { result.now ≡ trip_name trip }
{
    match trip {
        Trip::None => "None",
        Trip::Ejected => "Ejected",
        Trip::Kept => "Kept",
    }
}

/// The name of an answer of the proxy's own, in quotes; or `null`.
pub(crate) fn local_name(local: Option<Local>) -> &'static str
    ensures { result.now ≡ local_name local }
{
    match local {
        None => "null",
        Some(Local::Pong) => "\"Pong\"",
        Some(Local::Echoed) => "\"Echoed\"",
        Some(Local::Bye) => "\"Bye\"",
        Some(Local::Invalid) => "\"Invalid\"",
        Some(Local::Unsupported) => "\"Unsupported\"",
        Some(Local::WrongNumber) => "\"WrongNumber\"",
        Some(Local::Broken) => "\"Broken\"",
    }
}
