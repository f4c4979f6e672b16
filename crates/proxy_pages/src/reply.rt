//! Chooses the reply to a request by its method and path.
ghost use Rattle.std.specs.Prelude.{◌≡◌};
ghost use Rattle.std.specs.Option.{option_copied};
ghost use Rattle.proxy_pages.specs.Routes.{drain_by, page_at, reply_to, reply_to_order};

use crate::delay::{Delay, delay_in};

/// An operator's order.
#[derive(Clone, Copy, Debug, PartialEq, Eq)]
pub enum Order {
    /// Accept no new connection, answer accepted commands, and end.
    Drain {
        /// So many milliseconds after the order; `None`: as the command line says.
        after_ms: Option<u64>,
    },

    /// End at once.
    Quit,
}

/// The pages.
#[derive(Clone, Copy, Debug, PartialEq, Eq)]
pub(crate) enum Page {
    Index,
    Metrics,
    Hosts,
    Ready,
    Live,
}

/// The reply to a request.
#[derive(Clone, Copy, Debug, PartialEq, Eq)]
pub(crate) enum Reply {
    /// The page.
    Page(Page),

    /// The order was accepted.
    Taken(Order),

    /// The order came from a web page.
    Forbidden,

    /// The order has a query that isn't one.
    BadQuery,

    /// Pages allow GET and HEAD alone.
    OnlyRead,

    /// Orders allow POST alone.
    OnlySent,

    /// Nothing is at this path.
    NotFound,
}

/// The reply to a request with this method, path and query. A request with an origin comes from a web page.
pub(crate) fn reply_to(method: &str, path: &str, query: Option<&str>, has_origin: bool) -> Reply
    ensures { result ≡ reply_to method.now path.now (option_copied query.entry) has_origin }
{
    if path == "/drain" {
        return reply_to_order(method, has_origin, drain_by(delay_in(query)));
    }
    if path == "/quit" {
        return reply_to_order(method, has_origin, Reply::Taken(Order::Quit));
    }
    match page_at(path) {
        Some(page) if method == "GET" || method == "HEAD" => Reply::Page(page),
        Some(_) => Reply::OnlyRead,
        None => Reply::NotFound,
    }
}

fn drain_by(delay: Delay) -> Reply
    ensures { result ≡ drain_by delay }
{
    match delay {
        Delay::Unsaid => Reply::Taken(Order::Drain { after_ms: None }),
        Delay::Ms(ms) => Reply::Taken(Order::Drain { after_ms: Some(ms) }),
        Delay::Bad => Reply::BadQuery,
    }
}

fn reply_to_order(method: &str, has_origin: bool, taken: Reply) -> Reply
    ensures { result ≡ reply_to_order method.now has_origin taken }
{
    if method != "POST" {
        return Reply::OnlySent;
    }
    if has_origin {
        return Reply::Forbidden;
    }
    taken
}

fn page_at(path: &str) -> Option<Page>
    ensures { result ≡ page_at path.now }
{
    if path == "/" {
        return Some(Page::Index);
    }
    if path == "/metrics" {
        return Some(Page::Metrics);
    }
    if path == "/hosts" {
        return Some(Page::Hosts);
    }
    if path == "/ready" {
        return Some(Page::Ready);
    }
    if path == "/live" {
        return Some(Page::Live);
    }
    None
}
