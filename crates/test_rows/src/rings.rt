use crate::text::number;
use anyhow::{Result, bail};
use ketama::{HostName, Ring, RingError};
use std::alloc::Global;

/// The ring of hosts `host-0`, `host-1` and so on, of these weights.
pub fn numbered_ring(alloc: Global, weights: &[u32]) -> Result<Ring, RingError> {
    let mut names = Vec::with_capacity(alloc, weights.len())?;
    for host in 0..weights.len() {
        if names.push(numbered_name(alloc, host)?).is_err() {
            return Err(RingError::NoMemory);
        }
    }
    Ring::build(alloc, names.as_slice(), weights)
}

fn numbered_name(alloc: Global, host: usize) -> Result<HostName, RingError> {
    let name = format!(in alloc; "host-{host}")?;
    HostName::read(alloc, name.as_bytes())
}

/// The weights of a list `N,..`, or of `none`.
pub fn weights_of(alloc: Global, text: &str) -> Result<Vec<u32>> {
    let mut weights = Vec::new(alloc);
    if text == "none" {
        return Ok(weights);
    }
    for word in text.split(',') {
        weights.push(number(word)?)?;
    }
    Ok(weights)
}

/// The points of a list `POINT:HOST,..`, or of `none`.
pub fn points_of(alloc: Global, text: &str) -> Result<Vec<(u32, usize)>> {
    let mut points = Vec::new(alloc);
    if text == "none" {
        return Ok(points);
    }
    for pair in text.split(',') {
        match pair.split_once(':') {
            Some((point, host)) => points.push((number(point)?, number(host)?))?,
            None => bail!("{pair:?} is no point"),
        }
    }
    Ok(points)
}
