#![tactic(auto, using(crate::proofs::PrintableLemmas::printable_append, crate::proofs::PrintableLemmas::printable_decimal))]

ghost use Rattle.std.specs.Prelude.{◌≡◌, ◌↔◌, Any, IfOk, IfSome, IsSome, codes};
ghost use Rattle.settings_fault.specs.Lines.{Explains};

use crate::explanation::Explanation;
use crate::file::File;
use crate::token::Refusal;
use proxy_config::Config;
use std::alloc::{AllocError, Global};

/// What is wrong with settings that are read: that `listen` is the address of a host. Its place is that of `listen`, or of
/// the first such host where the file doesn't give `listen`. Refused where memory is.
pub fn warning(
    alloc: Global,
    file: &[u8],
    config: &Config,
) -> Result<Option<Explanation>, AllocError>
    ensures when { IfOk result (λ told. IsSome told
        ↔ Any (λ host. host.address ≡ config.now.listen) config.now.hosts.items) }
    ensures told { IfOk result (λ told. IfSome told (Explains file.now (codes "listen"))) }
{
    let Some(index) = own_host(config) else {
        return Ok(None);
    };
    let start = start(alloc, file, index)?;
    let rest = format!(in alloc;
        " is also hosts[{index}]: the proxy would send commands to itself"
    )?;
    let told = Explanation::of(alloc, file, "listen", start, rest.as_str())?;
    Ok(Some(told))
}

// The first host that has the address for clients.
fn own_host(config: &Config) -> Option<usize>
    ensures { IsSome result
        ↔ Any (λ host. host.address ≡ config.now.listen) config.now.hosts.items }
{
    config
        .hosts
        .iter()
        .position(|host| host.address == config.listen)
}

// Where the value of `listen` begins, or that host.
fn start(alloc: Global, file: &[u8], index: usize) -> Result<usize, AllocError> {
    let read = match File::read(alloc, file) {
        Ok(read) => read,
        Err(Refusal::Memory) => return Err(AllocError),
        Err(_) => return Ok(0),
    };
    if let Some(part) = read.last("listen") {
        return Ok(part.start);
    }
    let hosts = read.entries(alloc, "hosts")?;
    Ok(hosts.get(index).map_or(0, |entry| entry.value.start))
}
