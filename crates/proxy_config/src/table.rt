//! The table of the settings file: how each key is read.
ghost use Rattle.std.specs.Prelude.{◌≡◌, ◌⊎◌, ℕ, IfOk, IfErr, codes, max};
ghost use Rattle.serde_json.specs.Errors.{IsMemory};
ghost use Rattle.serde_json.specs.Find.{get};
ghost use Rattle.serde_json.specs.View.{view};
ghost use Rattle.proxy_config.specs.File.{AllFit, IsSettings, IsRefusal, IsFaultOf, MemoryOr};
ghost use Rattle.proxy_config.specs.RingParts.{AreRingParts};
ghost use Rattle.proxy_config.specs.Table.{IsNumberOr, MaxMs, keys, name_of};
ghost use Rattle.proxy_config.specs.Refusals.{IsFault};
ghost use Rattle.proxy_config.specs.Values.{values_of};

use crate::config::Config;
use crate::entry::{address, flag, number};
use crate::error::ConfigError;
use crate::hosts::hosts;
use crate::keys::has_unknown_key;
use crate::weights::weights;
use ejector::Settings;
use serde_json::Value;
use std::alloc::Global;

impl Config {
    /// The settings in the bytes of a file.
    ///
    /// Refused with `Fault` and its words: `json` if the bytes are no JSON object, else `unknown key` if it has a key
    /// that isn't in the table. Else they are the first key of the table, in its order, whose value is out of its range
    /// or of another type. Of a repeated key the last one counts. Refused with `Memory`, in place of any other result,
    /// where memory is refused.
    pub fn read(alloc: Global, bytes: &[u8]) -> Result<Config, ConfigError>
        ensures ok { IfOk result (λ config. IsSettings bytes.now (values_of config)) }
        ensures parts { IfOk result
            (λ config. AreRingParts config.hosts.items config.weights.items) }
        ensures refused { IfErr result (λ e. IsRefusal bytes.now e) }
    {
        let file = match Value::from_slice(alloc, bytes) {
            Ok(file) => file,
            Err(error) => return Err(told_of(&error)),
        };
        let Some(members) = file.as_object() else {
            return Err(ConfigError::Fault("json"));
        };
        if has_unknown_key(members) {
            return Err(ConfigError::Fault("unknown key"));
        }
        Config::from_object(alloc, &file)
    }

    // The settings of a JSON object: this is the table, line by line.
    fn from_object(alloc: Global, file: &Value) -> Result<Config, ConfigError>
        ensures ok { IfOk result (λ config. AllFit keys (view file.now) (values_of config)) }
        ensures refused { IfErr result (λ e. MemoryOr (IsFaultOf (view file.now)) e) }
    {
        let listen = address(file, "listen", "127.0.0.1:6379")?;
        let hosts = hosts(alloc, file)?;
        let weights = weights(alloc, file, &hosts)?;
        let workers = number(file, "workers", 1, 64, 4)?;
        let reply_ms = number(file, "reply_ms", 1, 600_000, 5_000)?;
        let tags = flag(file, "tags", false)?;
        let interval_ms = number(file, "interval_ms", 1, 3_600_000, 10_000)?;
        let base_ms = number(file, "base_ms", 1, 3_600_000, 30_000)?;
        let max_ms = max_ms(file, base_ms)?;
        let max_percent = number(file, "max_percent", 0, 100, 10)?;
        let consecutive = number(file, "consecutive", 0, 1_000_000, 5)?;
        let success_hosts = number(file, "success_hosts", 1, 65, 5)?;
        let request_volume = number(file, "request_volume", 1, 1_000_000, 100)?;
        let factor = number(file, "factor", 0, 100_000, 1_900)?;
        let panic_percent = number(file, "panic_percent", 0, 100, 50)?;
        Ok(Config {
            listen,
            hosts,
            weights,
            workers,
            reply_ms,
            core: Settings {
                tags,
                interval_ms,
                base_ms,
                max_ms,
                max_percent,
                consecutive,
                success_hosts,
                request_volume,
                factor,
                panic_percent,
            },
        })
    }
}

// The error for bytes that aren't JSON.
fn told_of(error: &serde_json::Error) -> ConfigError
    ensures { (IsMemory error.now × (result ≡ ConfigError.Memory))
        ⊎ ((¬ IsMemory error.now) × IsFault result (codes "json")) }
{
    if error.is_memory() {
        return ConfigError::Memory;
    }
    ConfigError::Fault("json")
}

// The number at `max_ms`, which is at least `base_ms`.
fn max_ms(file: &Value, base_ms: u32) -> Result<u32, ConfigError>
    ensures ok { IfOk result (λ n. IsNumberOr (max base_ms 300000) base_ms 86400000
        (get (name_of MaxMs) (view file.now)) n) }
    ensures fault { IfErr result (λ e. IsFault e (name_of MaxMs)) }
    ensures none { IfErr result (λ _. (n : ℕ) → ¬ IsNumberOr (max base_ms 300000) base_ms 86400000
        (get (name_of MaxMs) (view file.now)) n) }
{
    number(file, "max_ms", base_ms, 86_400_000, base_ms.max(300_000))
}
