ghost use Rattle.std.specs.Prelude.{◌↔◌, IsTrue, Any, string_bytes};
ghost use Rattle.std.specs.BTreeMap.{keys};
ghost use Rattle.proxy_config.specs.File.{IsUnknown};

use serde_json::{Map, Value};

pub(crate) fn has_unknown_key(members: &Map<String, Value>) -> bool
    ensures { IsTrue result ↔ Any (λ name. IsUnknown (string_bytes name)) (keys members.now) }
{
    members.keys().any(|name| is_unknown(name.as_str()))
}

fn is_unknown(name: &str) -> bool
    ensures { IsTrue result ↔ IsUnknown name.now }
{
    !matches!(
        name,
        "listen"
            | "hosts"
            | "weights"
            | "workers"
            | "reply_ms"
            | "tags"
            | "interval_ms"
            | "base_ms"
            | "max_ms"
            | "max_percent"
            | "consecutive"
            | "success_hosts"
            | "request_volume"
            | "factor"
            | "panic_percent"
    )
}
