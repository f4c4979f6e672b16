//! The server and its lines, with the sockets that go over between generations.

use close_behind::CloseBehind;
use proxy_config::Config;
use proxy_connections::CarriedSocket;
use proxy_generations::Marks;

/// What all threads share.
pub type Server = proxy_server::Server<CarriedSocket>;

/// What all generations of a line share.
pub type Line = proxy_server::Line<CarriedSocket>;

/// What a generation is made from.
#[derive(Clone, Copy, Drop)]
pub struct LineContext<'a> {
    /// Its line.
    pub line: &'a Line,
    /// The settings.
    pub config: &'a Config,
    /// Behind which refused commands a connection is closed.
    pub behind: &'a CloseBehind,
    /// The length of a journal at which the next one opens.
    pub marks: Marks,
}
