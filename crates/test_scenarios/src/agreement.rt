use anyhow::Result;
use std::alloc::Global;
use test_rows::shown::shown;

/// The answer of those proxies that gave one, or both answers if they differ.
pub(crate) fn agreement(
    alloc: Global,
    core: Result<Option<String>>,
    plain: Result<Option<String>>,
) -> Result<String> {
    match (core?, plain?) {
        (Some(core), Some(plain)) => agreed(alloc, core, plain),
        (Some(core), None) => Ok(core),
        (None, Some(plain)) => Ok(plain),
        (None, None) => Ok(String::new(alloc)),
    }
}

pub(crate) fn agreed(alloc: Global, core: String, plain: String) -> Result<String> {
    if core.as_str() == plain.as_str() {
        Ok(core)
    } else {
        shown(alloc, format_args!("DIFFER: core {core}, plain {plain}"))
    }
}
