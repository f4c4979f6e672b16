ghost use Rattle.std.specs.Prelude.{string_bytes, IfOk, IfErr};
ghost use Rattle.proxy_config.specs.File.{IsRefusal};
ghost use Rattle.proxy_config.specs.Line.{IsLine};

use crate::config::Config;
use crate::error::ConfigError;
use std::alloc::Global;

/// The line that `check` prints for the settings in these bytes: `ok 3 hosts 120 digests`.
///
/// Refused as `Config::read` is, and with `Memory` where memory for the ring or the line is refused.
pub fn check_line(alloc: Global, bytes: &[u8]) -> Result<String, ConfigError>
    ensures ok { IfOk result (λ line. IsLine bytes.now (string_bytes line)) }
    ensures refused { IfErr result (λ e. IsRefusal bytes.now e) }
{
    let config = Config::read(alloc, bytes)?;
    let ring = config.ring(alloc)?;
    let hosts = ring.hosts();
    let digests = ring.digests();
    Ok(format!(in alloc; "ok {hosts} hosts {digests} digests\n")?)
}
