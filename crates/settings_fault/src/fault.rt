#![tactic(auto, using(crate::proofs::PrintableLemmas::printable_append, crate::proofs::PrintableLemmas::printable_decimal))]

ghost use Rattle.std.specs.Prelude.{IfOk, string_bytes};
ghost use Rattle.settings_fault.specs.Lines.{ArePrintable, Explains};

use crate::explanation::Explanation;
use crate::file::File;
use crate::shown::shown;
use crate::token::{Refusal, Span};
use crate::wanted::{KEYS, Wanted, allowed, allowed_at};
use std::alloc::{AllocError, Global};

/// What stands where a settings file has the fault that `Config::read` named by this key, `json` or `unknown key`, and
/// what is wanted there.
///
/// Of several such faults it is the first. A key that is missing has the place of the object's closing brace, and of a
/// repeated key the last one is shown. Refused where memory is.
pub fn explain(alloc: Global, file: &[u8], key: &str) -> Result<Explanation, AllocError>
    ensures { IfOk result (Explains file.now key.now) }
{
    match File::read(alloc, file) {
        Ok(read) => read.explain(alloc, key),
        Err(Refusal::Memory) => Err(AllocError),
        Err(Refusal::Syntax { found, wanted }) => syntax(alloc, file, key, found, wanted),
    }
}

// What stands in the file where JSON wants something else.
fn syntax(
    alloc: Global,
    file: &[u8],
    key: &str,
    found: Span,
    wanted: Wanted,
) -> Result<Explanation, AllocError>
    ensures { IfOk result (Explains file.now key.now) }
{
    let part = found.of(file);
    let what = what(alloc, file, part)?;
    let (wanted, hint) = (wanted.words(), hint(part));
    let rest = format!(in alloc; ": found {what}; wanted: {wanted}{hint}")?;
    Explanation::of(alloc, file, key, found.start, rest.as_str())
}

// The part of the file, or why it is empty.
fn what(alloc: Global, file: &[u8], part: &[u8]) -> Result<String, AllocError>
    ensures { IfOk result (λ line. ArePrintable (string_bytes line)) }
{
    if file.is_empty() {
        return String::from_str(alloc, "an empty file");
    }
    if part.is_empty() {
        return String::from_str(alloc, "the end of the file");
    }
    shown(alloc, part)
}

// What a person may not know of JSON.
fn hint(part: &[u8]) -> &'static str
    ensures { ArePrintable result.now }
{
    match part {
        [b'/', ..] | [b'#', ..] => " (JSON has no comments)",
        [0xef, 0xbb, 0xbf, ..] => " (the file begins with a byte order mark)",
        [b'\'', ..] => " (JSON has no single quotes)",
        _ => "",
    }
}

impl File<'_> {
    fn explain(&self, alloc: Global, key: &str) -> Result<Explanation, AllocError>
        ensures { IfOk result (Explains self.now.text.now key.now) }
    {
        match key {
            "unknown key" => self.unknown(alloc, key),
            "hosts" => self.hosts(alloc, key),
            "weights" => self.weights(alloc, key),
            "max_ms" => self.max_ms(alloc, key),
            _ => self.value(alloc, key, allowed_at(key)),
        }
    }

    // The first key that the table hasn't.
    fn unknown(&self, alloc: Global, key: &str) -> Result<Explanation, AllocError>
        ensures { IfOk result (Explains self.now.text.now key.now) }
    {
        let unknown = self
            .members
            .iter()
            .find(|member| allowed(member.name.as_str()).is_none());
        let part = match unknown {
            Some(member) => member.entry.key,
            None => Span { start: 0, end: 0 },
        };
        let name = shown(alloc, part.of(self.text))?;
        let rest = format!(in alloc; " {name}; wanted: {KEYS}")?;
        self.told(alloc, key, part.start, rest.as_str())
    }

    /// The value that counts, or that there is none.
    pub(crate) fn value(
        &self,
        alloc: Global,
        key: &str,
        wanted: &str,
    ) -> Result<Explanation, AllocError>
        requires { ArePrintable wanted.now }
        ensures { IfOk result (Explains self.now.text.now key.now) }
    {
        let Some(part) = self.last(key) else {
            let rest = format!(in alloc; " is missing; wanted: {wanted}")?;
            return self.told(alloc, key, self.closing(), rest.as_str());
        };
        let found = shown(alloc, part.of(self.text))?;
        let times = self.times(key);
        if times > 1 {
            let rest = format!(in alloc; " (the last of {times}) is {found}; wanted: {wanted}")?;
            return self.told(alloc, key, part.start, rest.as_str());
        }
        let rest = format!(in alloc; " is {found}; wanted: {wanted}")?;
        self.told(alloc, key, part.start, rest.as_str())
    }

    /// The rest of a line about the key, for what stands at this offset.
    pub(crate) fn told(
        &self,
        alloc: Global,
        key: &str,
        offset: usize,
        rest: &str,
    ) -> Result<Explanation, AllocError>
        requires { ArePrintable rest.now }
        ensures { IfOk result (Explains self.now.text.now key.now) }
    {
        Explanation::of(alloc, self.text, key, offset, rest)
    }

    // Its least value is that of another key.
    fn max_ms(&self, alloc: Global, key: &str) -> Result<Explanation, AllocError>
        ensures { IfOk result (Explains self.now.text.now key.now) }
    {
        let base = match self.last("base_ms") {
            Some(part) => shown(alloc, part.of(self.text))?,
            None => String::from_str(alloc, "30000 by default")?,
        };
        let words = allowed_at(key);
        let wanted = format!(in alloc; "{words}; base_ms is {base}")?;
        self.value(alloc, key, wanted.as_str())
    }
}
