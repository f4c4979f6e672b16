//! What is wrong with an entry of `hosts` or of `weights`.
#![tactic(auto, using(crate::proofs::PrintableLemmas::printable_append, crate::proofs::PrintableLemmas::printable_decimal))]

ghost use Rattle.std.specs.Prelude.{IfOk};
ghost use Rattle.settings_fault.specs.Lines.{Explains};

use crate::explanation::Explanation;
use crate::file::File;
use crate::scan::{Entry, Wants, entries};
use crate::shown::shown;
use crate::token::{Refusal, text_of, value_of};
use crate::wanted::{ADDRESS, WEIGHT, allowed_at};
use limits::{MAX_HOSTS, MAX_NAME_LEN, MAX_WEIGHT};
use std::alloc::{AllocError, Global};
use std::net::SocketAddr;

impl File<'_> {
    /// The value of `hosts`, its number of entries, or the first of them that is no host or is one again.
    pub(crate) fn hosts(&self, alloc: Global, key: &str) -> Result<Explanation, AllocError>
        ensures { IfOk result (Explains self.now.text.now key.now) }
    {
        let wanted = allowed_at(key);
        let entries = self.entries(alloc, key)?;
        if entries.is_empty() {
            return self.value(alloc, key, wanted);
        }
        if entries.len() > MAX_HOSTS {
            let count = entries.len();
            let rest = format!(in alloc; " has {count} entries; wanted: {wanted}")?;
            return self.told(alloc, key, self.start(key), rest.as_str());
        }
        let mut names = Vec::new(alloc);
        for (index, entry) in entries.iter().enumerate() {
            let text = entry.value.of(self.text);
            let Some(name) = host(alloc, text)? else {
                let found = shown(alloc, text)?;
                let rest = format!(in alloc; "[{index}] is {found}; wanted: {ADDRESS}")?;
                return self.told(alloc, key, entry.value.start, rest.as_str());
            };
            if let Some(first) = place_of(&names, name.as_str()) {
                let found = shown(alloc, text)?;
                let rest = format!(in alloc;
                    "[{index}] is {found}, as hosts[{first}] is; wanted: no two the same"
                )?;
                return self.told(alloc, key, entry.value.start, rest.as_str());
            }
            names.push(name)?;
        }
        self.value(alloc, key, wanted)
    }

    /// The value of `weights`, its number of entries, or the first of them that is no weight.
    pub(crate) fn weights(&self, alloc: Global, key: &str) -> Result<Explanation, AllocError>
        ensures { IfOk result (Explains self.now.text.now key.now) }
    {
        let wanted = allowed_at(key);
        if !self.is_array(key) {
            return self.value(alloc, key, wanted);
        }
        let entries = self.entries(alloc, key)?;
        let (count, hosts) = (entries.len(), self.entries(alloc, "hosts")?.len());
        if count != hosts {
            let rest = format!(in alloc;
                " has {count} entries, hosts has {hosts}; wanted: {wanted}"
            )?;
            return self.told(alloc, key, self.start(key), rest.as_str());
        }
        for (index, entry) in entries.iter().enumerate() {
            let text = entry.value.of(self.text);
            if !is_weight(alloc, text)? {
                let found = shown(alloc, text)?;
                let rest = format!(in alloc; "[{index}] is {found}; wanted: {WEIGHT}")?;
                return self.told(alloc, key, entry.value.start, rest.as_str());
            }
        }
        self.value(alloc, key, wanted)
    }

    // Where the key's value begins.
    fn start(&self, key: &str) -> usize {
        self.last(key).map_or(0, |part| part.start)
    }

    fn is_array(&self, key: &str) -> bool {
        self.last(key)
            .is_some_and(|part| part.of(self.text).first() == Some(&b'['))
    }

    /// The entries of the key's array; none where it is no array.
    pub(crate) fn entries(&self, alloc: Global, key: &str) -> Result<Vec<Entry>, AllocError> {
        let Some(part) = self.last(key) else {
            return Ok(Vec::new(alloc));
        };
        match entries(alloc, self.text, part, Wants::Array) {
            Ok(entries) => Ok(entries),
            Err(Refusal::Memory) => Err(AllocError),
            Err(_) => Ok(Vec::new(alloc)),
        }
    }
}

// The name of the host that the bytes write, if they write one.
fn host(alloc: Global, bytes: &[u8]) -> Result<Option<String>, AllocError> {
    let Some(name) = text_of(alloc, bytes)? else {
        return Ok(None);
    };
    if name.len() <= MAX_NAME_LEN && name.as_str().parse::<SocketAddr>().is_ok() {
        Ok(Some(name))
    } else {
        Ok(None)
    }
}

fn place_of(names: &[String], name: &str) -> Option<usize> {
    names.iter().position(|other| other.as_str() == name)
}

fn is_weight(alloc: Global, bytes: &[u8]) -> Result<bool, AllocError> {
    let Some(value) = value_of(alloc, bytes)? else {
        return Ok(false);
    };
    Ok(
        value
            .as_u64()
            .is_some_and(|weight| (1..=u64::from(MAX_WEIGHT)).contains(&weight)),
    )
}
