ghost use Rattle.std.specs.Prelude.{◌≡◌, ◌≤◌, ◌⊎◌, None, Some, ℕ, List, length, replicate, IfOk, IfErr, All, codes};
ghost use Rattle.serde_json.specs.Data.{array};
ghost use Rattle.serde_json.specs.Find.{get};
ghost use Rattle.serde_json.specs.View.{view, items_view};
ghost use Rattle.proxy_config.specs.Table.{AreWeightsOr, IsWeight, items_of, weight_data};
ghost use Rattle.proxy_config.specs.Refusals.{FirstAre, IsFault};

use crate::config::Host;
use crate::error::ConfigError;
use limits::MAX_WEIGHT;
use serde_json::Value;
use std::alloc::Global;

pub(crate) fn weights(alloc: Global, file: &Value, hosts: &[Host]) -> Result<Vec<u32>, ConfigError>
    ensures ok { IfOk result
        (λ weights. AreWeightsOr (length hosts.now)
        (get (codes "weights") (view file.now)) weights.items) }
    ensures fault { IfErr result (λ e. ¬ (e ≡ ConfigError.Memory) → IsFault e (codes "weights")) }
    ensures none { IfErr result (λ e. ¬ (e ≡ ConfigError.Memory) → (weights : List ℕ)
        → ¬ AreWeightsOr (length hosts.now) (get (codes "weights") (view file.now)) weights) }
    ensures memory { IfErr result (λ e. e ≡ ConfigError.Memory
        → (get (codes "weights") (view file.now) ≡ None) ⊎ ((entries : List Value)
        × (get (codes "weights") (view file.now) ≡ Some (array (items_view entries)))
        × (length entries ≡ length hosts.now) × FirstAre weight_data IsWeight entries)) }
{
    let Some(value) = file.get("weights") else {
        return Ok(vec![in alloc; 1; hosts.len()]?);
    };
    match value.as_array() {
        Some(entries) => weights_in(alloc, entries, hosts.len()),
        None => Err(ConfigError::Fault("weights")),
    }
}

// They must be as many as the hosts.
fn weights_in(alloc: Global, entries: &[Value], hosts: usize) -> Result<Vec<u32>, ConfigError>
    ensures ok { IfOk result
        (λ weights. AreWeightsOr hosts (Some (array (items_view entries.now))) weights.items) }
    ensures fault { IfErr result (λ e. ¬ (e ≡ ConfigError.Memory) → IsFault e (codes "weights")) }
    ensures none { IfErr result (λ e. ¬ (e ≡ ConfigError.Memory) → (weights : List ℕ)
        → ¬ AreWeightsOr hosts (Some (array (items_view entries.now))) weights) }
    ensures memory { IfErr result (λ e. e ≡ ConfigError.Memory
        → (length entries.now ≡ hosts) × FirstAre weight_data IsWeight entries.now) }
{
    if entries.len() != hosts {
        return Err(ConfigError::Fault("weights"));
    }
    let mut weights = Vec::new(alloc);
    for entry in entries {
        weights.push(weight(entry)?)?;
    }
    Ok(weights)
}

fn weight(entry: &Value) -> Result<u32, ConfigError>
    ensures ok { IfOk result (λ w. (view entry.now ≡ weight_data w) × IsWeight w) }
    ensures fault { IfErr result (λ e. IsFault e (codes "weights")) }
    ensures none { IfErr result (λ _. (w : ℕ) → ¬ ((view entry.now ≡ weight_data w) × IsWeight w)) }
{
    match entry.as_u64() {
        Some(w) if (1..=u64::from(MAX_WEIGHT)).contains(&w) => Ok(w as u32),
        _ => Err(ConfigError::Fault("weights")),
    }
}
