ghost use Rattle.std.specs.Prelude.{◌≡◌};
ghost use Rattle.resp_core.specs.Value.{tree_of};
ghost use Rattle.proxy_history.specs.Value.{upstream_failure};
ghost use Rattle.proxy_history.specs.Arrival.{no_upstream_host, proxy_busy};

use bytes::Bytes;
use resp_core::Value;

/// The value of a part whose host failed before its reply came.
pub(crate) fn upstream_failure() -> Value
    ensures { tree_of result ≡ upstream_failure }
{
    Value::Fault(Bytes::from_static(b"upstream failure"))
}

/// The value of a part whose key has no usable host.
pub(crate) fn no_upstream_host() -> Value
    ensures { tree_of result ≡ no_upstream_host }
{
    Value::Fault(Bytes::from_static(b"no upstream host"))
}

/// The value of a part for whose host too many already wait.
pub(crate) fn proxy_busy() -> Value
    ensures { tree_of result ≡ proxy_busy }
{
    Value::Fault(Bytes::from_static(b"proxy busy"))
}
