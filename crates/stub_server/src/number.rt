ghost use Rattle.std.specs.Prelude.{◌≡◌, IfOk, IfErr};
ghost use Rattle.std.specs.Fmt.{signed_decimal};
ghost use Rattle.stub_server.specs.Number.{number_in};

use crate::error::StubError;
use bytes::Bytes;
use std::alloc::Global;

/// `None`: the bytes aren't a signed 64-bit number in its one decimal spelling, which has no plus sign and no leading
/// zeros.
pub(crate) fn number_in(alloc: Global, bytes: &[u8]) -> Result<Option<i64>, StubError>
    ensures number { IfOk result (λ number. number ≡ number_in bytes.now) }
    ensures memory { IfErr result (λ e. e ≡ StubError.NoMemory) }
{
    let Ok(text) = str::from_utf8(bytes) else {
        return Ok(None);
    };
    let Ok(number) = text.parse::<i64>() else {
        return Ok(None);
    };
    if number.to_string(alloc)?.as_bytes() == bytes {
        Ok(Some(number))
    } else {
        Ok(None)
    }
}

pub(crate) fn spelling(alloc: Global, number: i64) -> Result<Bytes, StubError>
    ensures bytes { IfOk result (λ bytes. bytes ≡ signed_decimal number) }
    ensures memory { IfErr result (λ e. e ≡ StubError.NoMemory) }
{
    Ok(Bytes::from_string(number.to_string(alloc)?)?)
}
