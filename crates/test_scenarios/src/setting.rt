use anyhow::Result;
use ketama::Ring;
use proxy_core::{Core, Handover, Refusal, Settings};
use std::alloc::Global;
use std::mem;
use test_reference::Reference;
use test_rows::rings::{numbered_ring, points_of, weights_of};
use test_rows::settings::{set_field, set_tags};
use test_rows::text::number;

// On this ring the key `abc` belongs to host 0, `a` to host 1 and the empty key to host 2.
const POINTS: &[(u32, usize)] = &[(2_555_380_112, 0), (3_111_502_092, 1), (3_649_838_548, 2)];

/// The ring's source, and the settings. A proxy that finds no memory is made again.
#[derive(Drop)]
pub struct Setting {
    hosts: usize,
    points: Vec<(u32, usize)>,
    weights: Option<Vec<u32>>,
    settings: Settings,
}

impl Setting {
    /// Three hosts with one point each, and these settings.
    pub(crate) fn of(alloc: Global, settings: Settings) -> Result<Setting> {
        Ok(Setting {
            hosts: 3,
            points: POINTS.to_vec(alloc)?,
            weights: None,
            settings,
        })
    }

    /// The setting of a row's arguments. Each is `tags`, `hosts=N`, `points=POINT:HOST,..` (`points=none` for none),
    /// `weights=N,..` (hosts `host-0`, `host-1` and so on of these weights, in place of points), or `KEY=N` with a key
    /// of the settings. Missing ones are as in `of` and in the default settings.
    pub(crate) fn read(alloc: Global, arguments: &str) -> Result<Setting> {
        let mut setting = Setting::of(alloc, Settings::default())?;
        for argument in arguments.split_whitespace() {
            setting.set(alloc, argument)?;
        }
        Ok(setting)
    }

    fn set(&mut self, alloc: Global, argument: &str) -> Result<()> {
        match argument.split_once('=') {
            Some((key, text)) => self.set_key(alloc, key, text),
            None => set_tags(&mut self.settings, argument),
        }
    }

    fn set_key(&mut self, alloc: Global, key: &str, text: &str) -> Result<()> {
        match key {
            "hosts" => self.hosts = number(text)?,
            "points" => drop(mem::replace(&mut self.points, points_of(alloc, text)?)),
            "weights" => drop(self.weights.replace(weights_of(alloc, text)?)),
            _ => set_field(&mut self.settings, key, number(text)?)?,
        }
        Ok(())
    }

    /// A core on this setting.
    pub(crate) fn core(&self, alloc: Global) -> Result<Core, Refusal> {
        match self.one_core(alloc) {
            Err(Refusal::NoMemory) => self.one_core(alloc),
            made => made,
        }
    }

    fn one_core(&self, alloc: Global) -> Result<Core, Refusal> {
        Core::new(alloc, self.ring(alloc)?, self.settings)
    }

    /// A core on this setting that starts from another's state.
    pub(crate) fn core_from(&self, alloc: Global, core: &Core) -> Result<Core, Refusal> {
        match self.one_core_from(alloc, core.hand_over()) {
            Err(Refusal::NoMemory) => self.one_core_from(alloc, core.hand_over()),
            made => made,
        }
    }

    fn one_core_from(&self, alloc: Global, from: Handover) -> Result<Core, Refusal> {
        Core::new_from(alloc, self.ring(alloc)?, self.settings, from)
    }

    /// A plain program on this setting.
    pub(crate) fn plain(&self, alloc: Global) -> Result<Reference, Refusal> {
        match self.one_plain(alloc) {
            Err(Refusal::NoMemory) => self.one_plain(alloc),
            made => made,
        }
    }

    fn one_plain(&self, alloc: Global) -> Result<Reference, Refusal> {
        Reference::new(alloc, self.ring(alloc)?, self.settings)
    }

    // The script's rings fit their hosts, so only memory can be missing.
    fn ring(&self, alloc: Global) -> Result<Ring, Refusal> {
        let ring = match &self.weights {
            Some(weights) => numbered_ring(alloc, weights.as_slice()),
            None => Ring::of_points(alloc, self.hosts, self.points.as_slice()),
        };
        match ring {
            Ok(ring) => Ok(ring),
            Err(_) => Err(Refusal::NoMemory),
        }
    }
}
