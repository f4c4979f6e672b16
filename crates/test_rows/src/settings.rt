use crate::shown::shown;
use crate::text::unknown;
use anyhow::Result;
use ejector::{Field, Settings};
use std::alloc::Global;

/// Sets the field of this key of the settings.
pub fn set_field(settings: &mut Settings, key: &str, n: u32) -> Result<()> {
    match key {
        "interval_ms" => settings.interval_ms = n,
        "base_ms" => settings.base_ms = n,
        "max_ms" => settings.max_ms = n,
        "max_percent" => settings.max_percent = n,
        "consecutive" => settings.consecutive = n,
        "success_hosts" => settings.success_hosts = n,
        "request_volume" => settings.request_volume = n,
        "factor" => settings.factor = n,
        "panic_percent" => settings.panic_percent = n,
        _ => return unknown("setting", key),
    }
    Ok(())
}

/// Sets `tags`, the one setting that is a word.
pub fn set_tags(settings: &mut Settings, word: &str) -> Result<()> {
    if word != "tags" {
        return unknown("setting", word);
    }
    settings.tags = true;
    Ok(())
}

/// The refusal of settings, with the field by its key.
pub fn bad_settings(alloc: Global, number: u16, field: Field) -> Result<String> {
    shown(alloc, format_args!("{number} BadSettings {field}"))
}
