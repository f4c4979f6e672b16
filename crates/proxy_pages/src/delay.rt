//! The delay that an order to drain asks for.
ghost use Rattle.std.specs.Prelude.{◌≡◌};
ghost use Rattle.std.specs.Option.{option_copied};
ghost use Rattle.proxy_pages.specs.Delays.{delay_in, ms_in};

/// The greatest delay, in milliseconds.
pub const MAX_DRAIN_AFTER_MS: u64 = 86_400_000;

/// What a query says of the delay.
#[derive(Clone, Copy)]
pub(crate) enum Delay {
    /// There is no query.
    Unsaid,

    /// So many milliseconds.
    Ms(u64),

    /// It is none.
    Bad,
}

/// The delay in `after=MS`, where MS is a decimal number up to the greatest.
pub(crate) fn delay_in(query: Option<&str>) -> Delay
    ensures { result ≡ delay_in (option_copied query.entry) }
{
    let Some(query) = query else {
        return Delay::Unsaid;
    };
    match query.strip_prefix("after=") {
        Some(digits) => ms_in(digits),
        None => Delay::Bad,
    }
}

fn ms_in(digits: &str) -> Delay
    ensures { result ≡ ms_in digits.now }
{
    match digits.parse::<u64>() {
        Ok(ms) if ms <= MAX_DRAIN_AFTER_MS => Delay::Ms(ms),
        Ok(_) => Delay::Bad,
        Err(_) => Delay::Bad,
    }
}
