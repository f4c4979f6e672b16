ghost use Rattle.std.specs.Prelude.{◌≡◌, ◌↔◌, ◌<◌, IsTrue};
ghost use Rattle.proxy_notices.specs.Places.{IsOf, worker_of};

/// The worker of this host: the host's number modulo the workers.
#[inline(always)]
pub fn worker_of_host(host: usize, workers: usize) -> usize
    requires { 0 < workers }
    ensures { result ≡ worker_of host workers }
{
    host % workers
}

/// A worker's place in its generation.
#[derive(Clone, Copy, Debug, PartialEq, Eq, Drop)]
pub struct Place {
    /// The worker's index, from 0.
    pub index: usize,
    /// The number of the generation's workers.
    pub workers: usize,
}

impl Place {
    /// Whether the worker here has this host.
    pub fn has(self, host: usize) -> bool
        requires { 0 < self.workers }
        ensures { IsTrue result ↔ IsOf self host }
    {
        worker_of_host(host, self.workers) == self.index
    }
}
