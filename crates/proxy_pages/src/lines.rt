//! Lines of Prometheus's text format.
ghost use Rattle.std.specs.Prelude.{◌≡◌, ◌++◌, OnOk, map};
ghost use Rattle.std.specs.List.{concat};
ghost use Rattle.proxy_pages.specs.Lines.{plain_text, labelled_text, command_text, host_text, fault_text, line_text, build_text, bound_text, end_text, host_bound_text, host_count_text, host_label, host_sum_text, last_bound_text, last_host_bound_text, last_three, seconds_text, escaped};

use itoa::Buffer;
use std::alloc::AllocError;

/// Appends these parts.
pub(crate) fn push_all(page: &mut Vec<u8>, parts: &[&str]) -> Result<(), AllocError>
    ensures { OnOk result (page.new.items
        ≡ page.old.items ++ concat (map (λ part. part.now) parts.now)) }
{
    for part in parts {
        page.extend_from_slice(part.as_bytes())?;
    }
    Ok(())
}

/// Appends a number without a label.
pub(crate) fn push_plain(
    page: &mut Vec<u8>,
    name: &str,
    suffix: &str,
    number: u64,
) -> Result<(), AllocError>
    ensures { OnOk result (page.new.items
        ≡ page.old.items ++ plain_text name.now suffix.now number) }
{
    let mut digits = Buffer::new();
    push_all(page, &[name, suffix, " ", digits.format(number), "\n"])
}

/// Appends a number with one label, whose value needs no escape.
pub(crate) fn push_labelled<'a>(
    page: &mut Vec<u8>,
    name: &'a str,
    key: &'a str,
    value: &'a str,
    number: u64,
) -> Result<(), AllocError>
    ensures { OnOk result (page.new.items
        ≡ page.old.items ++ labelled_text name.now key.now value.now number) }
{
    let mut digits = Buffer::new();
    push_all(
        page,
        &[
            name,
            "{",
            key,
            "=\"",
            value,
            "\"} ",
            digits.format(number),
            "\n",
        ],
    )
}

/// Appends a number of a command's name.
pub(crate) fn push_of_command(
    page: &mut Vec<u8>,
    name: &str,
    command: &[u8],
    number: u64,
) -> Result<(), AllocError>
    ensures { OnOk result (page.new.items
        ≡ page.old.items ++ command_text name.now command.now number) }
{
    let mut digits = Buffer::new();
    push_all(page, &[name, "{command=\""])?;
    push_escaped(page, command)?;
    push_all(page, &["\"} ", digits.format(number), "\n"])
}

/// Appends a number of a host.
pub(crate) fn push_of_host(
    page: &mut Vec<u8>,
    name: &str,
    host: &[u8],
    number: u64,
) -> Result<(), AllocError>
    ensures { OnOk result (page.new.items
        ≡ page.old.items ++ host_text name.now host.now number) }
{
    let mut digits = Buffer::new();
    push_all(page, &[name, "{host=\""])?;
    push_escaped(page, host)?;
    push_all(page, &["\"} ", digits.format(number), "\n"])
}

/// Appends a number of a host's faults of a cause.
pub(crate) fn push_fault<'a>(
    page: &mut Vec<u8>,
    name: &'a str,
    host: &[u8],
    cause: &'a str,
    number: u64,
) -> Result<(), AllocError>
    ensures { OnOk result (page.new.items
        ≡ page.old.items ++ fault_text name.now host.now cause.now number) }
{
    let mut digits = Buffer::new();
    push_all(page, &[name, "{host=\""])?;
    push_escaped(page, host)?;
    push_all(
        page,
        &["\",cause=\"", cause, "\"} ", digits.format(number), "\n"],
    )
}

/// Appends a number of a host in a line of generations.
pub(crate) fn push_of_line(
    page: &mut Vec<u8>,
    name: &str,
    host: &[u8],
    line: usize,
    number: u64,
) -> Result<(), AllocError>
    ensures { OnOk result (page.new.items
        ≡ page.old.items ++ line_text name.now host.now line number) }
{
    let (mut lines, mut digits) = (Buffer::new(), Buffer::new());
    push_all(page, &[name, "{host=\""])?;
    push_escaped(page, host)?;
    push_all(
        page,
        &[
            "\",line=\"",
            lines.format(line),
            "\"} ",
            digits.format(number),
            "\n",
        ],
    )
}

/// Appends the version and the kit.
pub(crate) fn push_build(
    page: &mut Vec<u8>,
    name: &str,
    version: &str,
    kit: &str,
) -> Result<(), AllocError>
    ensures { OnOk result (page.new.items
        ≡ page.old.items ++ build_text name.now version.now kit.now) }
{
    push_all(page, &[name, "{version=\""])?;
    push_escaped(page, version.as_bytes())?;
    push_all(page, &["\",kit=\""])?;
    push_escaped(page, kit.as_bytes())?;
    push_all(page, &["\"} 1\n"])
}

/// Appends the number of values of at most this many microseconds.
pub(crate) fn push_bound(
    page: &mut Vec<u8>,
    name: &str,
    us: u64,
    number: u64,
) -> Result<(), AllocError>
    ensures { OnOk result (page.new.items
        ≡ page.old.items ++ bound_text name.now us number) }
{
    let mut digits = Buffer::new();
    push_all(page, &[name, "_bucket{le=\""])?;
    push_seconds(page, us)?;
    push_all(page, &["\"} ", digits.format(number), "\n"])
}

/// Appends the number of all values, as that of the last bound.
pub(crate) fn push_last_bound(page: &mut Vec<u8>, name: &str, number: u64) -> Result<(), AllocError>
    ensures { OnOk result (page.new.items
        ≡ page.old.items ++ last_bound_text name.now number) }
{
    let mut digits = Buffer::new();
    push_all(
        page,
        &[name, "_bucket{le=\"+Inf\"} ", digits.format(number), "\n"],
    )
}

/// Appends the number of a host's values of at most this many microseconds.
pub(crate) fn push_host_bound(
    page: &mut Vec<u8>,
    name: &str,
    host: &[u8],
    us: u64,
    number: u64,
) -> Result<(), AllocError>
    ensures { OnOk result (page.new.items
        ≡ page.old.items ++ host_bound_text name.now host.now us number) }
{
    push_host_label(page, name, "_bucket", host, "\",le=\"")?;
    push_seconds(page, us)?;
    push_end(page, "\"} ", number)
}

/// Appends the number of all values of a host, as that of the last bound.
pub(crate) fn push_last_host_bound(
    page: &mut Vec<u8>,
    name: &str,
    host: &[u8],
    number: u64,
) -> Result<(), AllocError>
    ensures { OnOk result (page.new.items
        ≡ page.old.items ++ last_host_bound_text name.now host.now number) }
{
    push_host_label(page, name, "_bucket", host, "\",le=\"+Inf")?;
    push_end(page, "\"} ", number)
}

/// Appends the sum of a host's values.
pub(crate) fn push_host_sum(
    page: &mut Vec<u8>,
    name: &str,
    host: &[u8],
    us: u64,
) -> Result<(), AllocError>
    ensures { OnOk result (page.new.items
        ≡ page.old.items ++ host_sum_text name.now host.now us) }
{
    push_host_label(page, name, "_sum", host, "\"} ")?;
    push_seconds(page, us)?;
    push_all(page, &["\n"])
}

/// Appends the number of a host's values.
pub(crate) fn push_host_count(
    page: &mut Vec<u8>,
    name: &str,
    host: &[u8],
    number: u64,
) -> Result<(), AllocError>
    ensures { OnOk result (page.new.items
        ≡ page.old.items ++ host_count_text name.now host.now number) }
{
    push_host_label(page, name, "_count", host, "")?;
    push_end(page, "\"} ", number)
}

// Appends a name, its suffix, a host, and what stands behind the host.
fn push_host_label<'a>(
    page: &mut Vec<u8>,
    name: &'a str,
    suffix: &'a str,
    host: &[u8],
    behind: &'a str,
) -> Result<(), AllocError>
    ensures { OnOk result (page.new.items
        ≡ page.old.items ++ host_label name.now suffix.now host.now behind.now) }
{
    push_all(page, &[name, suffix, "{host=\""])?;
    push_escaped(page, host)?;
    push_all(page, &[behind])
}

// Appends the end of labels, and a number.
fn push_end(page: &mut Vec<u8>, end: &str, number: u64) -> Result<(), AllocError>
    ensures { OnOk result (page.new.items ≡ page.old.items ++ end_text end.now number) }
{
    let mut digits = Buffer::new();
    push_all(page, &[end, digits.format(number), "\n"])
}

/// Appends microseconds as seconds with six decimals.
pub(crate) fn push_seconds(page: &mut Vec<u8>, us: u64) -> Result<(), AllocError>
    ensures { OnOk result (page.new.items ≡ page.old.items ++ seconds_text us) }
{
    let mut whole = Buffer::new();
    push_all(page, &[whole.format(us / 1_000_000), "."])?;
    push_three(page, us / 1000)?;
    push_three(page, us)
}

// Appends the last three digits of a number.
fn push_three(page: &mut Vec<u8>, number: u64) -> Result<(), AllocError>
    ensures { OnOk result (page.new.items ≡ page.old.items ++ last_three number) }
{
    let (mut hundreds, mut tens, mut ones) = (Buffer::new(), Buffer::new(), Buffer::new());
    push_all(
        page,
        &[
            hundreds.format(number / 100 % 10),
            tens.format(number / 10 % 10),
            ones.format(number % 10),
        ],
    )
}

// Appends a label's value: a backslash stands before each quote and each backslash.
fn push_escaped(page: &mut Vec<u8>, value: &[u8]) -> Result<(), AllocError>
    ensures { OnOk result (page.new.items ≡ page.old.items ++ escaped value.now) }
{
    for byte in value {
        if *byte == b'\\' || *byte == b'"' {
            page.push(b'\\')?;
        }
        page.push(*byte)?;
    }
    Ok(())
}
