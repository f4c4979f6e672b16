//! Signals that wait for the process, as `/proc/self/status` shows them: in the line `ShdPnd`, and blocked ones in
//! `SigBlk`, as hexadecimal numbers in which signal n is bit n - 1.
//!
//! A signal blocked at the start, as by `env --block-signal=TERM`, waits and doesn't end the process.
ghost use Rattle.std.specs.Prelude.{◌≡◌, ◌≢◌, ◌↔◌, ◌≤◌, ◌⊎◌, true, IfNone, IfSome, IsTrue};
ghost use Rattle.proxy_serve_core.specs.Signals.{IsIn, sigint, sigterm};

const INT: u32 = 2;

const TERM: u32 = 15;

const WAITING: &[u8] = b"\nShdPnd:\t";

const BLOCKED: &[u8] = b"\nSigBlk:\t";

// The line of the process's number.
const PROCESS: &[u8] = b"\nPid:\t";

// The number of a container's first process.
const FIRST: u64 = 1;

/// What SIGTERM and SIGINT ask of the process.
#[derive(Clone, Copy, Debug, PartialEq, Eq)]
pub enum Asked {
    /// Neither waits.
    Nothing,
    /// One of them waits: the process must drain and end.
    Drain,
    /// Both wait: the process must end at once.
    Quit,
}

/// What SIGTERM and SIGINT ask of the process with this status. Without these lines nothing is asked.
pub fn asked_by_signals(status: &[u8]) -> Asked {
    asked_by(number_behind(status, WAITING))
}

// What these signals ask for.
fn asked_by(signals: u64) -> Asked
    ensures nothing { (result ≡ Asked.Nothing)
        ↔ ((¬ IsIn signals sigint) × (¬ IsIn signals sigterm)) }
    ensures drain { (result ≡ Asked.Drain) ↔ ((IsIn signals sigint × (¬ IsIn signals sigterm))
        ⊎ ((¬ IsIn signals sigint) × IsIn signals sigterm)) }
    ensures quit { (result ≡ Asked.Quit) ↔ (IsIn signals sigint × IsIn signals sigterm) }
{
    match (has(signals, INT), has(signals, TERM)) {
        (false, false) => Asked::Nothing,
        (true, true) => Asked::Quit,
        _ => Asked::Drain,
    }
}

fn has(signals: u64, signal: u32) -> bool
    requires { (1 ≤ signal) × (signal ≤ 64) }
    ensures { IsTrue result ↔ IsIn signals signal }
{
    signals >> (signal - 1) & 1 == 1
}

/// What SIGTERM does to the process.
#[derive(Clone, Copy, Debug, PartialEq, Eq)]
pub enum TermEffect {
    /// It was blocked at the start, and waits: the process drains.
    Drains,
    /// It ends the process at once.
    Ends,
    /// Nothing: it isn't blocked, and the process is the first of its container.
    Nothing,
    /// The status can't be read, so that signals aren't looked at: it ends the process at once, or does nothing.
    Unseen,
}

/// What SIGTERM does to the process with this status. One without the line `SigBlk` couldn't be read.
pub fn effect_of_term(status: &[u8]) -> TermEffect {
    effect_by(
        find_number(status, BLOCKED),
        find_number(status, PROCESS) == Some(FIRST),
    )
}

fn effect_by(blocked: Option<u64>, is_first: bool) -> TermEffect
    ensures unseen { IfNone blocked (result ≡ TermEffect.Unseen) }
    ensures seen { IfSome blocked (λ b. result ≢ TermEffect.Unseen) }
    ensures drains { IfSome blocked (λ b. (result ≡ TermEffect.Drains) ↔ IsIn b sigterm) }
    ensures nothing { IfSome blocked (λ b. (result ≡ TermEffect.Nothing)
        ↔ ((is_first ≡ true) × (¬ IsIn b sigterm))) }
{
    let Some(signals) = blocked else {
        return TermEffect::Unseen;
    };
    match (has(signals, TERM), is_first) {
        (true, _) => TermEffect::Drains,
        (false, true) => TermEffect::Nothing,
        (false, false) => TermEffect::Ends,
    }
}

fn number_behind(status: &[u8], name: &[u8]) -> u64 {
    find_number(status, name).unwrap_or(0)
}

fn find_number(status: &[u8], name: &[u8]) -> Option<u64> {
    match behind(status, name) {
        Some(digits) => Some(number(digits)),
        None => None,
    }
}

fn behind<'a>(status: &'a [u8], text: &[u8]) -> Option<&'a [u8]> {
    for start in 0..status.len() {
        if let Some(rest) = status[start..].strip_prefix(text) {
            return Some(rest);
        }
    }
    None
}

// At most 16 digits long.
fn number(digits: &[u8]) -> u64 {
    let mut sum = 0u64;
    for digit in digits.iter().take(16) {
        let value = match *digit {
            b'0'..=b'9' => *digit - b'0',
            b'a'..=b'f' => *digit - b'a' + 10,
            _ => return sum,
        };
        sum = (sum << 4) | u64::from(value);
    }
    sum
}
