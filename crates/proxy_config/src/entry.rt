ghost use Rattle.std.specs.Prelude.{◌≡◌, ℕ, Bool, IfOk, IfErr};
ghost use Rattle.serde_json.specs.Find.{get};
ghost use Rattle.serde_json.specs.View.{view};
ghost use Rattle.proxy_config.specs.Table.{IsAddressOr, IsFlagOr, IsNumberOr};
ghost use Rattle.proxy_config.specs.Refusals.{IsFault};
ghost use Rattle.std.specs.declared.net.socket_addr.SocketAddr.{SocketAddr};

use crate::error::ConfigError;
use serde_json::Value;
use std::net::SocketAddr;

/// The whole number at a key, from `least` to `most`, or the default without the key.
pub(crate) fn number(
    file: &Value,
    key: &'static str,
    least: u32,
    most: u32,
    default: u32,
) -> Result<u32, ConfigError>
    ensures ok { IfOk result (λ n. IsNumberOr default least most (get key.now (view file.now)) n) }
    ensures fault { IfErr result (λ e. IsFault e key.now) }
    ensures none { IfErr result (λ _. (n : ℕ)
        → ¬ IsNumberOr default least most (get key.now (view file.now)) n) }
{
    let Some(value) = file.get(key) else {
        return Ok(default);
    };
    match value.as_u64() {
        Some(n) if least as u64 <= n && n <= most as u64 => Ok(n as u32),
        _ => Err(ConfigError::Fault(key)),
    }
}

pub(crate) fn flag(file: &Value, key: &'static str, default: bool) -> Result<bool, ConfigError>
    ensures ok { IfOk result (λ b. IsFlagOr default (get key.now (view file.now)) b) }
    ensures fault { IfErr result (λ e. IsFault e key.now) }
    ensures none { IfErr result (λ _. (b : Bool)
        → ¬ IsFlagOr default (get key.now (view file.now)) b) }
{
    match file.get(key) {
        Some(value) => value.as_bool().ok_or(ConfigError::Fault(key)),
        None => Ok(default),
    }
}

pub(crate) fn address(
    file: &Value,
    key: &'static str,
    default: &str,
) -> Result<SocketAddr, ConfigError>
    ensures ok { IfOk result (λ a. IsAddressOr default.now (get key.now (view file.now)) a) }
    ensures fault { IfErr result (λ e. IsFault e key.now) }
    ensures none { IfErr result (λ _. (a : SocketAddr)
        → ¬ IsAddressOr default.now (get key.now (view file.now)) a) }
{
    let text = match file.get(key) {
        Some(value) => value.as_str().ok_or(ConfigError::Fault(key))?,
        None => default,
    };
    text.parse::<SocketAddr>()
        .map_err(|_| ConfigError::Fault(key))
}
