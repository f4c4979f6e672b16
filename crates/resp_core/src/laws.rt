//! Laws of texts and streams.
ghost use Rattle.std.specs.Prelude.{◌≡◌};
ghost use Rattle.resp_core.specs.Laws.{NoTextBeginsAnother, TextIsRead, SpellingIsShortest, ShortestTextIsSpelling, ReadValuesArePlain, CommandsArePlain, OneReading, EachStreamHolds, OneHolding, RefusalStays, OneRefusedByte, OneNumber, OneRefusal, ValuesStay, TextIsReadBack, TextIsReadNext, ValuesGoOn};

use crate::partial_value::MAX_IDLE;
use crate::pending::{MAX_COPY_BLOCK, MAX_KEPT};
use crate::reader::Limits;
use crate::texts::MAX_TEXT_BLOCK;
use limits::{MAX_CLIENT_MEMBERS, MAX_HOST_MEMBERS};

/// No text begins another, so reading needs no look ahead.
pub fn no_text_begins_another()
    ensures { NoTextBeginsAnother }
{}

/// The one spelling of a plain value within the limits is read as it.
pub fn text_is_read()
    ensures { TextIsRead }
{}

/// No text of a value is shorter than its one spelling.
pub fn spelling_is_shortest()
    ensures { SpellingIsShortest }
{}

/// A text that is as long as the one spelling is that spelling, so the value can be sent on as it came.
pub fn shortest_text_is_spelling()
    ensures { ShortestTextIsSpelling }
{}

/// A value that was read is plain and within the limits.
pub fn read_values_are_plain()
    ensures { ReadValuesArePlain }
{}

/// A command is plain, so it can be written.
pub fn commands_are_plain()
    ensures { CommandsArePlain }
{}

/// The one spelling of a plain value within the limits is read back as it, whatever stands before and behind.
pub fn text_is_read_back()
    ensures front { TextIsReadBack }
    ensures next { TextIsReadNext }
{}

/// A stream has one list of values; any other split gives a beginning of it.
pub fn one_reading()
    ensures { OneReading }
{}

/// Each stream has its values, followed by a refused byte or none.
pub fn each_stream_holds()
    ensures { EachStreamHolds }
{}

/// A stream has one list of values, and either a refused byte or none.
pub fn one_holding()
    ensures { OneHolding }
{}

/// A stream is refused at one offset at most, with one number.
pub fn one_refusal()
    ensures byte { OneRefusedByte }
    ensures number { OneNumber }
    ensures refusal { OneRefusal }
{}

/// A refusal stays at its offset, whatever follows.
pub fn refusal_stays()
    ensures { RefusalStays }
{}

/// A stream that goes on keeps its values.
pub fn values_stay()
    ensures { ValuesStay }
{}

/// A stream cut behind some of its values goes on as the rest.
pub fn values_go_on()
    ensures { ValuesGoOn }
{}

/// The most members of an array: 1,024 from a client, 65,536 from a host.
pub fn members_are_limited()
    ensures client { (MAX_CLIENT_MEMBERS ≡ 1024) × (Limits.CLIENT.array ≡ MAX_CLIENT_MEMBERS) }
    ensures host { (MAX_HOST_MEMBERS ≡ 65536) × (Limits.HOST.array ≡ MAX_HOST_MEMBERS) }
{}

/// A payload that shares its buffer keeps at most eight times its bytes. An idle reader's buffer has at most
/// 32,768. Short texts share blocks of at most 512 bytes where they were read, and of 16,384 where written.
pub fn kept_memory_is_limited()
    ensures payload { MAX_KEPT ≡ 8 }
    ensures idle { MAX_IDLE ≡ 32768 }
    ensures read { MAX_COPY_BLOCK ≡ 512 }
    ensures written { MAX_TEXT_BLOCK ≡ 16384 }
{}
