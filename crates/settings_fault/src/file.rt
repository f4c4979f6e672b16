ghost use Rattle.std.specs.Prelude.{◌≡◌, IfOk};

use crate::scan::{Entry, Wants, entries};
use crate::token::{Refusal, Span, refused, text_of};
use crate::wanted::Wanted;
use std::alloc::{AllocError, Global};
use std::str::from_utf8;

/// A member of a settings file.
#[derive(Drop)]
pub(crate) struct Member {
    /// Its key, without escapes.
    pub(crate) name: String,
    pub(crate) entry: Entry,
}

/// A settings file that is a JSON object.
#[derive(Drop)]
pub(crate) struct File<'a> {
    pub(crate) text: &'a [u8],
    pub(crate) members: Vec<Member>,
}

impl<'a> File<'a> {
    /// The file of this text, or the first place where it is no JSON object.
    pub(crate) fn read(alloc: Global, text: &'a [u8]) -> Result<File<'a>, Refusal>
        ensures { IfOk result (λ read. read.text.now ≡ text.now) }
    {
        if let Err(error) = from_utf8(text) {
            let start = error.valid_up_to();
            return Err(refused(start, start + 1, Wanted::Utf8));
        }
        let whole = Span {
            start: 0,
            end: text.len(),
        };
        let entries = entries(alloc, text, whole, Wants::Object)?;
        let members = members(alloc, text, &entries)?;
        Ok(File { text, members })
    }

    /// The value that counts: of a repeated key the last one.
    pub(crate) fn last(&self, key: &str) -> Option<Span> {
        self.members
            .iter()
            .rev()
            .find(|member| member.name.as_str() == key)
            .map(|member| member.entry.value)
    }

    /// How often the key is given.
    pub(crate) fn times(&self, key: &str) -> usize {
        self.members
            .iter()
            .filter(|member| member.name.as_str() == key)
            .count()
    }

    /// Where its last sign stands, the closing brace.
    pub(crate) fn closing(&self) -> usize {
        self.text.trim_ascii_end().len().saturating_sub(1)
    }
}

fn members(alloc: Global, text: &[u8], entries: &[Entry]) -> Result<Vec<Member>, AllocError> {
    let mut members = Vec::with_capacity(alloc, entries.len())?;
    for entry in entries {
        let name = match text_of(alloc, entry.key.of(text))? {
            Some(name) => name,
            None => String::new(alloc),
        };
        members.push(Member {
            name,
            entry: *entry,
        })?;
    }
    Ok(members)
}
