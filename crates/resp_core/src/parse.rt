ghost use Rattle.std.specs.Prelude.{[], Some};
ghost use Rattle.resp_core.specs.ReadingAnswers.{Gives};
ghost use Rattle.resp_core.specs.SeenBytes.{IsSeen};
ghost use Rattle.resp_core.specs.Tree.{bulk};
ghost use Rattle.resp_core.specs.Reading.{byte_at, end_at, text_at, payload_at};

use crate::error::Refusal;
use limits::MAX_LINE;

#[derive(Drop)]
pub(crate) enum Stop<'a> {
    Unfinished,
    // The bytes from the refused one on.
    Refused(Refusal, &'a [u8]),
}

#[tactic(auto, unfolding(crate::specs::Reading::byte_at))]
fn take_byte<'a>(bytes: &'a [u8], byte: u8, refusal: Refusal) -> Result<&'a [u8], Stop<'a>>
    ensures { Gives (λ x. tt) (λ x. x.now) result (byte_at byte (λ _. refusal) bytes.now) }
{
    let Some((first, rest)) = bytes.split_first() else {
        return Err(Stop::Unfinished);
    };
    if *first == byte {
        Ok(rest)
    } else {
        Err(Stop::Refused(refusal, bytes))
    }
}

#[tactic(auto, unfolding(crate::specs::Reading::end_at))]
fn take_end(bytes: &[u8]) -> Result<&[u8], Stop<'_>>
    ensures { Gives (λ x. tt) (λ x. x.now) result (end_at bytes.now) }
{
    let rest = take_byte(bytes, b'\r', Refusal::BadLineEnd)?;
    take_byte(rest, b'\n', Refusal::BadLineEnd)
}

// Takes the bytes of a line, of which `seen` were looked at.
#[tactic(auto, unfolding(crate::specs::Reading::text_at))]
pub(crate) fn take_text(bytes: &[u8], seen: usize) -> Result<(&[u8], &[u8]), Stop<'_>>
    requires seen { IsSeen seen bytes.now }
    ensures { Gives (λ x. x.0.now) (λ x. x.1.now) result (text_at [] bytes.now) }
{
    for i in seen..bytes.len() {
        let byte = bytes[i];
        if byte == b'\r' {
            let rest = take_byte(&bytes[i + 1..], b'\n', Refusal::BadLineEnd)?;
            return Ok((&bytes[..i], rest));
        }
        if byte == b'\n' {
            return Err(Stop::Refused(Refusal::BadLineEnd, &bytes[i..]));
        }
        if i == MAX_LINE {
            return Err(Stop::Refused(Refusal::TooLong, &bytes[i..]));
        }
    }
    Err(Stop::Unfinished)
}

#[tactic(auto, unfolding(crate::specs::Reading::payload_at, crate::specs::Reading::bytes_at))]
pub(crate) fn take_payload(bytes: &[u8], n: u64) -> Result<(&[u8], &[u8]), Stop<'_>>
    ensures { Gives (λ x. bulk x.0.now) (λ x. x.1.now) result (payload_at (Some n) bytes.now) }
{
    if (bytes.len() as u64) < n {
        return Err(Stop::Unfinished);
    }
    let (payload, rest) = bytes.split_at(n as usize);
    let rest = take_end(rest)?;
    Ok((payload, rest))
}
