//! The page of hosts, one line each.
ghost use Rattle.std.specs.Prelude.{◌≡◌, ◌++◌, ◌<◌, IfOk, OnOk};
ghost use Rattle.proxy_pages.specs.Pages.{host_count, host_in_line, host_in_lines, host_line, host_lines, hosts_text, state_word};

use crate::lines::push_all;
use crate::metric::HostNumber;
use crate::snapshot::{About, Snapshot};
use itoa::Buffer;
use limits::MAX_HOSTS;
use std::alloc::{AllocError, Global};

/// The page.
pub(crate) fn page(
    alloc: Global,
    about: &About<'_>,
    snapshot: &Snapshot,
) -> Result<Vec<u8>, AllocError>
    ensures { IfOk result (λ page. page.items ≡ hosts_text about.now snapshot.now) }
{
    let mut page = Vec::new(alloc);
    for i in 0..about.host_count() {
        push_host(&mut page, about, snapshot, i)?;
    }
    Ok(page)
}

fn push_host(
    page: &mut Vec<u8>,
    about: &About<'_>,
    snapshot: &Snapshot,
    host: usize,
) -> Result<(), AllocError>
    requires { host < host_count about.now }
    ensures { OnOk result (page.new.items ≡ page.old.items
        ++ host_lines about.now snapshot.now host) }
{
    push_line(page, about, snapshot, host)?;
    push_in_lines(page, about.host_name(host), snapshot, host)
}

fn push_in_lines(
    page: &mut Vec<u8>,
    name: &[u8],
    snapshot: &Snapshot,
    host: usize,
) -> Result<(), AllocError>
    requires { host < MAX_HOSTS }
    ensures { OnOk result (page.new.items ≡ page.old.items
        ++ host_in_lines name.now snapshot.now host) }
{
    for line in 0..snapshot.lines_shown() {
        push_in_line(page, name, line, snapshot.is_out_in(line, host))?;
    }
    Ok(())
}

fn push_in_line(
    page: &mut Vec<u8>,
    name: &[u8],
    line: usize,
    is_out: bool,
) -> Result<(), AllocError>
    ensures { OnOk result (page.new.items ≡ page.old.items
        ++ host_in_line name.now line is_out) }
{
    let mut digits = Buffer::new();
    page.extend_from_slice(name)?;
    push_all(
        page,
        &[" line ", digits.format(line), " ", state_word(is_out), "\n"],
    )
}

fn state_word(is_out: bool) -> &'static str
    ensures { result.now ≡ state_word is_out }
{
    if is_out { "out" } else { "in" }
}

fn push_line(
    page: &mut Vec<u8>,
    about: &About<'_>,
    snapshot: &Snapshot,
    host: usize,
) -> Result<(), AllocError>
    requires { host < host_count about.now }
    ensures { OnOk result (page.new.items ≡ page.old.items
        ++ host_line about.now snapshot.now host) }
{
    let (mut waiting, mut flying) = (Buffer::new(), Buffer::new());
    let (mut sent, mut answered) = (Buffer::new(), Buffer::new());
    let (mut faults, mut lost) = (Buffer::new(), Buffer::new());
    let is_out = snapshot.serving.load.hosts[host].is_out;
    page.extend_from_slice(about.host_name(host))?;
    push_all(
        page,
        &[
            " ",
            if is_out { "out" } else { "in" },
            " waiting ",
            waiting.format(HostNumber::Waiting.of(snapshot, host)),
            " flying ",
            flying.format(HostNumber::Flying.of(snapshot, host)),
            " sent ",
            sent.format(HostNumber::Sent.of(snapshot, host)),
            " answered ",
            answered.format(HostNumber::Answered.of(snapshot, host)),
            " faults ",
            faults.format(HostNumber::Faults.of(snapshot, host)),
            " lost ",
            lost.format(HostNumber::Lost.of(snapshot, host)),
            "\n",
        ],
    )
}
