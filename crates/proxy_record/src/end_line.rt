ghost use Rattle.std.specs.Prelude.{◌≡◌, ◌++◌, OnOk, OnErr};
ghost use Rattle.proxy_record.specs.Lines.{end_text};

use crate::pieces::push_all;
use itoa::Buffer;
use std::alloc::{AllocError, Global};

/// Appends the last line of a record. Refused only for want of memory: nothing is appended.
pub fn put_end(alloc: Global, steps: u64, bytes: u64, out: &mut Vec<u8>) -> Result<(), AllocError>
    ensures ok { OnOk result (out.new.items ≡ out.old.items ++ end_text steps bytes) }
    ensures err { OnErr result (out.new.items ≡ out.old.items) }
{
    let mut line = Vec::new(alloc);
    push_end(&mut line, steps, bytes)?;
    out.extend_from_slice(line.as_slice())
}

fn push_end(line: &mut Vec<u8>, steps: u64, bytes: u64) -> Result<(), AllocError>
    ensures { OnOk result (line.new.items ≡ line.old.items ++ end_text steps bytes) }
{
    let (mut counts, mut lengths) = (Buffer::new(), Buffer::new());
    push_all(
        line,
        &[
            "{\"end\": {\"steps\": ",
            counts.format(steps),
            ", \"bytes\": ",
            lengths.format(bytes),
            "}}\n",
        ],
    )
}
