use crate::proxy::Proxy;
use anyhow::{Result, bail};
use proxy_core::Core;
use proxy_stats::{Counts, HostCounts, counts};
use std::alloc::Global;
use test_reference::Reference;
use test_rows::shown::shown;
use test_rows::text::{first_word, number, unknown};

const QUESTIONS: [&str; 9] = [
    "hosts",
    "epoch",
    "is_out",
    "in_panic",
    "journal",
    "pass_of",
    "counts",
    "twice",
    "counts_of",
];

pub(crate) fn is_question(name: &str) -> bool {
    QUESTIONS.contains(&name)
}

/// The core's answer, if there is a core, to `hosts`, `epoch HOST`, `is_out HOST`, `in_panic`, `journal`, `pass_of
/// STEP`, `counts`, `twice` (the counts joined with themselves) or `counts_of HOST`.
pub(crate) fn core_answer(
    alloc: Global,
    core: &Option<Core>,
    question: &str,
) -> Result<Option<String>> {
    match core {
        Some(core) => Ok(Some(answer(alloc, core, question)?)),
        None => Ok(None),
    }
}

fn answer(alloc: Global, core: &Core, question: &str) -> Result<String> {
    let (name, rest) = first_word(question);
    match name {
        "hosts" => shown(alloc, core.hosts()),
        "in_panic" => yes_or_no(alloc, core.in_panic()),
        "journal" => journal_text(alloc, core),
        "counts" => counts_text(alloc, &counts(core)),
        "twice" => twice(alloc, &counts(core)),
        "pass_of" => pass_of(alloc, core, number(rest)?),
        _ => host_answer(alloc, core, name, number(rest)?),
    }
}

fn journal_text(alloc: Global, core: &Core) -> Result<String> {
    let (steps, bytes) = (core.journal().len(), core.journal().bytes());
    shown(alloc, format_args!("{steps} steps, {bytes} bytes"))
}

fn twice(alloc: Global, counts: &Counts) -> Result<String> {
    counts_text(alloc, &counts.plus(counts))
}

fn host_answer(alloc: Global, core: &Core, name: &str, host: usize) -> Result<String> {
    if host >= core.hosts() {
        bail!("there is no host {host}");
    }
    match name {
        "epoch" => shown(alloc, core.epoch(host)),
        "is_out" => yes_or_no(alloc, core.is_out(host)),
        "counts_of" => host_text(alloc, counts(core).hosts.get(host)),
        _ => unknown("question", name),
    }
}

fn counts_text(alloc: Global, counts: &Counts) -> Result<String> {
    let Counts {
        accepted,
        handed,
        sent,
        answered,
        lost,
        ejections,
        kept,
        no_host,
        busy,
        local,
        ..
    } = *counts;
    let [
        pong,
        echoed,
        bye,
        invalid,
        unsupported,
        wrong_number,
        broken,
    ] = local;
    shown(
        alloc,
        format_args!(
            "accepted {accepted} handed {handed} sent {sent} answered {answered} lost {lost} ejections {ejections} kept {kept} no_host {no_host} busy {busy} local {pong} {echoed} {bye} {invalid} {unsupported} {wrong_number} {broken}"
        ),
    )
}

fn host_text(alloc: Global, counts: Option<&HostCounts>) -> Result<String> {
    let Some(counts) = counts else {
        bail!("there is no such host");
    };
    let HostCounts {
        sent,
        answered,
        faults,
        lost,
    } = *counts;
    shown(
        alloc,
        format_args!("sent {sent} answered {answered} faults {faults} lost {lost}"),
    )
}

/// The plain program's answer, if there is one, to `pass_of STEP`. It answers no other question.
pub(crate) fn plain_answer(
    alloc: Global,
    plain: &Option<Reference>,
    question: &str,
) -> Result<Option<String>> {
    match (plain, question.strip_prefix("pass_of ")) {
        (Some(plain), Some(step)) => Ok(Some(pass_of(alloc, plain, number(step)?)?)),
        _ => Ok(None),
    }
}

fn pass_of<P: Proxy>(alloc: Global, proxy: &P, step: usize) -> Result<String> {
    match proxy.step(step) {
        Some(step) => shown(alloc, step.pass),
        None => bail!("there is no step {step}"),
    }
}

fn yes_or_no(alloc: Global, answer: bool) -> Result<String> {
    shown(alloc, if answer { "yes" } else { "no" })
}
