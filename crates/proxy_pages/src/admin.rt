//! Answers an operator's requests.
ghost use Rattle.std.specs.Prelude.{◌≡◌, ◌++◌, None, OnOk};
ghost use Rattle.http_server.specs.Response.{IsBlank};
ghost use Rattle.proxy_pages.specs.Replies.{IsReply, body_of, field_of, field_text, page_text, status_of};

use crate::index::INDEX;
use crate::reply::{Order, Page, Reply, reply_to};
use crate::snapshot::{About, Snapshot};
use crate::{hosts, metrics};
use bytes::{BufMut, Bytes};
use http::{HeaderName, HeaderValue, Request, StatusCode, header};
use http_server::{Response, Service};
use std::alloc::{AllocError, Global};

/// Answers requests by a snapshot, and keeps the latest order.
#[derive(Drop)]
pub struct Admin<'a> {
    alloc: Global,
    about: &'a About<'a>,
    snapshot: &'a Snapshot,
    order: Option<Order>,
}

impl<'a> Admin<'a> {
    /// Nothing was ordered yet.
    pub fn new(alloc: Global, about: &'a About<'a>, snapshot: &'a Snapshot) -> Admin<'a>
        ensures about { result.about.now ≡ about.now }
        ensures snapshot { result.snapshot.now ≡ snapshot.now }
        ensures order { result.order ≡ None }
    {
        Admin {
            alloc,
            about,
            snapshot,
            order: None,
        }
    }

    /// The latest order, if there was one.
    pub fn order(&self) -> Option<Order>
        ensures { result ≡ self.now.order }
    {
        self.order
    }

    // Writes a reply. Refused for want of memory alone.
    fn write(&self, reply: Reply, response: &mut Response) -> Result<(), AllocError>
        requires { IsBlank response.old }
        ensures { OnOk result
            (IsReply self.now.about.now self.now.snapshot.now reply response.new) }
    {
        response.status = status(reply, self.snapshot.is_ready);
        let (name, value) = field(reply);
        response.add_header(name, value)?;
        self.write_body(reply, response)
    }

    fn write_body(&self, reply: Reply, response: &mut Response) -> Result<(), AllocError>
        ensures body { OnOk result (response.new.body.items ≡ response.old.body.items
            ++ body_of self.now.about.now self.now.snapshot.now reply) }
        ensures status { response.new.status ≡ response.old.status }
        ensures headers { response.new.headers ≡ response.old.headers }
    {
        match reply {
            Reply::Page(page) => self.write_page(page, response),
            Reply::Taken(Order::Drain { .. }) => response.body.put_slice(b"it drains\n"),
            Reply::Taken(Order::Quit) => response.body.put_slice(b"it ends\n"),
            Reply::Forbidden => response.body.put_slice(b"no order from a browser's page\n"),
            Reply::BadQuery => response
                .body
                .put_slice(b"/drain takes ?after=MS, 0 to 86400000\n"),
            Reply::OnlyRead | Reply::OnlySent | Reply::NotFound => Ok(()),
        }
    }

    fn write_page(&self, page: Page, response: &mut Response) -> Result<(), AllocError>
        ensures body { OnOk result (response.new.body.items ≡ response.old.body.items
            ++ page_text self.now.about.now self.now.snapshot.now page) }
        ensures status { response.new.status ≡ response.old.status }
        ensures headers { response.new.headers ≡ response.old.headers }
    {
        match page {
            Page::Index => response.body.put_slice(INDEX.as_bytes()),
            Page::Metrics => {
                let text = metrics::page(self.alloc, self.about, self.snapshot)?;
                response.body.put_slice(text.as_slice())
            }
            Page::Hosts => {
                let text = hosts::page(self.alloc, self.about, self.snapshot)?;
                response.body.put_slice(text.as_slice())
            }
            Page::Ready if self.snapshot.is_ready => response.body.put_slice(b"ready\n"),
            Page::Ready => response.body.put_slice(b"not ready\n"),
            Page::Live => response.body.put_slice(b"live\n"),
        }
    }
}

fn status(reply: Reply, is_ready: bool) -> StatusCode
    ensures { result ≡ status_of is_ready reply }
{
    match reply {
        Reply::Page(Page::Ready) if !is_ready => StatusCode::SERVICE_UNAVAILABLE,
        Reply::Page(_) | Reply::Taken(_) => StatusCode::OK,
        Reply::Forbidden => StatusCode::FORBIDDEN,
        Reply::BadQuery => StatusCode::BAD_REQUEST,
        Reply::OnlyRead | Reply::OnlySent => StatusCode::METHOD_NOT_ALLOWED,
        Reply::NotFound => StatusCode::NOT_FOUND,
    }
}

// The one field of a reply.
fn field(reply: Reply) -> (HeaderName, HeaderValue)
    ensures { field_text result ≡ field_of reply }
{
    match reply {
        Reply::OnlyRead => (header::ALLOW, HeaderValue::from_static("GET, HEAD")),
        Reply::OnlySent => (header::ALLOW, HeaderValue::from_static("POST")),
        Reply::Page(Page::Index) => (
            header::CONTENT_TYPE,
            HeaderValue::from_static("text/html; charset=utf-8"),
        ),
        Reply::Page(Page::Metrics) => (
            header::CONTENT_TYPE,
            HeaderValue::from_static("text/plain; version=0.0.4; charset=utf-8"),
        ),
        _ => (
            header::CONTENT_TYPE,
            HeaderValue::from_static("text/plain; charset=utf-8"),
        ),
    }
}

impl<'a> Service for Admin<'a> {
    ghost use Rattle.proxy_pages.specs.Answers.{IsAnswered};

    ghost answers = { IsAnswered };

    fn call(
        &mut self,
        request: &Request<Bytes>,
        response: &mut Response,
    ) -> Result<(), AllocError> {
        let has_origin = request.headers().get(header::ORIGIN).is_some();
        let uri = request.uri();
        let reply = reply_to(
            request.method().as_str(),
            uri.path(),
            uri.query(),
            has_origin,
        );
        self.write(reply, response)?;
        if let Reply::Taken(order) = reply {
            self.order = Some(order);
        }
        Ok(())
    }
}
