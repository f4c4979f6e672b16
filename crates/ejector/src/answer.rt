/// The effect of a result on its host.
#[derive(Clone, Copy, Debug, PartialEq, Eq)]
pub enum Trip {
    /// It didn't trip.
    None,
    /// It tripped and was ejected.
    Ejected,
    /// It tripped and stayed, since the limit allows no further host out.
    Kept,
}

/// The numbers of hosts that came back, were ejected, and tripped and stayed.
#[derive(Clone, Copy, Debug, PartialEq, Eq)]
pub struct Swept {
    pub returned: u32,
    pub ejected: u32,
    pub kept: u32,
}
