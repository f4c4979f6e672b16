ghost use Rattle.std.specs.Prelude.{◌≡◌, ◌↔◌, ◌≤◌, List, length, All, IsTrue, IfOk, OnOk, IsOkUnless, IsErrOf};
ghost use Rattle.ketama.specs.HostName.{IsHostName};

use crate::error::RingError;
use limits::MAX_NAME_LEN;
use std::alloc::Global;
use std::marker::Model;

/// A host's name: 1 to 255 visible ASCII characters, such as `127.0.0.1:6379`.
#[derive(Debug, Drop)]
pub struct HostName {
    bytes: Vec<u8>,
}

impl Model for HostName {
    ghost use Rattle.std.specs.Prelude.{List, ℕ};
    ghost use Rattle.ketama.specs.HostName.{IsHostName};

    ghost Value = { List ℕ };

    ghost view = { λ name. name.bytes.items };

    ghost invariant = { λ name. IsHostName name.bytes.items };
}

impl HostName {
    /// The name with these bytes.
    ///
    /// Refused `BadName` (305) unless these are 1 to 255 bytes from 0x21 to 0x7E. Refused `NoMemory` (301) without
    /// memory for a copy.
    pub fn read(alloc: Global, bytes: &[u8]) -> Result<HostName, RingError>
        ensures ok { IfOk result (λ name. name ≡ bytes.now) }
        ensures named { OnOk result (IsHostName bytes.now) }
        ensures bad_name { IsErrOf result RingError.BadName ↔ ¬ IsHostName bytes.now }
        ensures good { IsHostName bytes.now → IsOkUnless result RingError.NoMemory }
    {
        if !is_host_name(bytes) {
            return Err(RingError::BadName);
        }
        let bytes = Vec::from_slice(alloc, bytes)?;
        Ok(HostName { bytes })
    }

    /// The name's bytes.
    pub fn as_bytes(&self) -> &[u8]
        ensures value { result.now ≡ self.now }
        ensures name { IsHostName self.now }
    {
        self.bytes.as_slice()
    }
}

fn is_host_name(bytes: &[u8]) -> bool
    ensures { IsTrue result ↔ IsHostName bytes.now }
{
    (1..=MAX_NAME_LEN).contains(&bytes.len()) && bytes.iter().all(|b| (0x21..=0x7E).contains(b))
}
