//! The page of numbers, in Prometheus's text format.
ghost use Rattle.std.specs.Prelude.{◌≡◌, ◌++◌, ◌<◌, IfOk, OnOk, map, length};
ghost use Rattle.std.specs.List.{concat};
ghost use Rattle.proxy_pages.specs.Pages.{head_text, metric_text, metrics_text, numbers_text, answers_text, refused_name_text, refused_names_text, causes_text, host_numbers_text, host_faults_text, fault_word, faults_text, lines_out_text, host_outs_text, outs_text, durations_text, bounds_text, sum_text, cpu_text, refusals_text, peers_text, return_text, returns_text, host_bounds_text, host_durations_text, host_histogram_text};
ghost use Rattle.proxy_pages.specs.Numbers.{bit};
ghost use Rattle.proxy_pages.specs.Table.{row_of};
ghost use Rattle.proxy_pages.specs.Lines.{fault_text};
ghost use Rattle.proxy_serve_core.specs.FaultLog.{of_cause};

use crate::lines::{
    push_all, push_bound, push_build, push_fault, push_host_bound, push_host_count, push_host_sum,
    push_labelled, push_last_bound, push_last_host_bound, push_of_command, push_of_host,
    push_of_line, push_plain, push_seconds,
};
use crate::metric::{
    HostNumber, METRICS, Metric, Numbers, Way, answer_word, fault_word, reason_word,
};
use crate::snapshot::{About, Snapshot};
use limits::MAX_HOSTS;
use proxy_histogram::{BOUNDS, BOUNDS_US, Histogram};
use proxy_serve_core::{EjectedHost, FaultCause, HostFaults, RefusedSockets};
use proxy_stats::{Counts, LOCAL_KINDS, RefusedName, RefusedNames};
use std::alloc::{AllocError, Global};

// What the page calls the names without a place. No name that has one has a bracket.
const OTHERS: &str = "(others)";

/// The page: each metric of the table, with its numbers in the snapshot.
pub(crate) fn page(
    alloc: Global,
    about: &About<'_>,
    snapshot: &Snapshot,
) -> Result<Vec<u8>, AllocError>
    ensures { IfOk result (λ page. page.items ≡ metrics_text about.now snapshot.now) }
{
    let mut page = Vec::new(alloc);
    push_metrics(&mut page, &METRICS, about, snapshot)?;
    Ok(page)
}

fn push_metrics(
    page: &mut Vec<u8>,
    metrics: &[Metric],
    about: &About<'_>,
    snapshot: &Snapshot,
) -> Result<(), AllocError>
    ensures { OnOk result (page.new.items ≡ page.old.items
        ++ concat (map (λ m. metric_text about.now snapshot.now (row_of m)) metrics.now)) }
{
    for metric in metrics {
        metric.push(page, about, snapshot)?;
    }
    Ok(())
}

impl Metric {
    fn push(
        &self,
        page: &mut Vec<u8>,
        about: &About<'_>,
        snapshot: &Snapshot,
    ) -> Result<(), AllocError>
        ensures { OnOk result (page.new.items ≡ page.old.items
            ++ metric_text about.now snapshot.now (row_of self.now)) }
    {
        self.push_head(page)?;
        self.push_numbers(page, about, snapshot)
    }

    fn push_head(&self, page: &mut Vec<u8>) -> Result<(), AllocError>
        ensures { OnOk result (page.new.items ≡ page.old.items ++ head_text (row_of self.now)) }
    {
        let (name, kind) = (self.name, self.kind.word());
        push_all(
            page,
            &[
                "# HELP ",
                name,
                " ",
                self.help,
                "\n# TYPE ",
                name,
                " ",
                kind,
                "\n",
            ],
        )
    }

    fn push_numbers(
        &self,
        page: &mut Vec<u8>,
        about: &About<'_>,
        snapshot: &Snapshot,
    ) -> Result<(), AllocError>
        ensures { OnOk result (page.new.items ≡ page.old.items
            ++ numbers_text about.now snapshot.now (row_of self.now)) }
    {
        match self.numbers {
            Numbers::Build => push_build(page, self.name, about.version, about.kit),
            Numbers::One(number) => push_plain(page, self.name, "", number.of(snapshot)),
            Numbers::ByAnswer => push_answers(page, self.name, &snapshot.counts),
            Numbers::ByName => push_names(page, self.name, &snapshot.refused_names),
            Numbers::ByCause => push_causes(page, self.name, &snapshot.counts),
            Numbers::ByRefusal => push_refusals(page, self.name, &snapshot.refused),
            Numbers::ByHost(number) => push_hosts(page, self.name, number, about, snapshot),
            Numbers::ByHostFault => push_faults(page, self.name, about, snapshot),
            Numbers::Out => push_outs(page, self.name, about, snapshot),
            Numbers::Returns => push_returns(page, self.name, about, snapshot),
            Numbers::ByPeer(way) => push_peers(page, self.name, snapshot, way),
            Numbers::ByJournal(number) => {
                let (serving, draining) = (
                    number.of(&snapshot.serving),
                    number.of(&snapshot.draining),
                );
                push_labelled(page, self.name, "journal", "serving", serving)?;
                push_labelled(page, self.name, "journal", "draining", draining)
            }
            Numbers::Durations => push_durations(page, self.name, &snapshot.durations),
            Numbers::Cpu => push_cpu(page, self.name, snapshot.process.cpu_us),
            Numbers::HostDurations => push_host_durations(page, self.name, about, snapshot),
        }
    }
}

fn push_answers(page: &mut Vec<u8>, name: &str, counts: &Counts) -> Result<(), AllocError>
    ensures { OnOk result (page.new.items ≡ page.old.items ++ answers_text name.now counts.now) }
{
    for i in 0..LOCAL_KINDS {
        push_labelled(page, name, "kind", answer_word(i), counts.local[i])?;
    }
    Ok(())
}

fn push_names(page: &mut Vec<u8>, name: &str, names: &RefusedNames) -> Result<(), AllocError>
    ensures { OnOk result (page.new.items ≡ page.old.items
        ++ refused_names_text name.now names.now) }
{
    push_places(page, name, &names.places)?;
    push_of_command(page, name, OTHERS.as_bytes(), names.others)
}

fn push_places(page: &mut Vec<u8>, name: &str, places: &[RefusedName]) -> Result<(), AllocError>
    ensures { OnOk result (page.new.items ≡ page.old.items
        ++ concat (map (refused_name_text name.now) places.now)) }
{
    for place in places {
        push_place(page, name, place)?;
    }
    Ok(())
}

fn push_place(page: &mut Vec<u8>, name: &str, place: &RefusedName) -> Result<(), AllocError>
    ensures { OnOk result (page.new.items ≡ page.old.items
        ++ refused_name_text name.now place.now) }
{
    if place.is_free() {
        return Ok(());
    }
    push_of_command(page, name, place.name(), place.count)
}

fn push_causes(page: &mut Vec<u8>, name: &str, counts: &Counts) -> Result<(), AllocError>
    ensures { OnOk result (page.new.items ≡ page.old.items ++ causes_text name.now counts.now) }
{
    push_labelled(page, name, "cause", "upstream_failure", counts.lost)?;
    push_labelled(page, name, "cause", "no_upstream_host", counts.no_host)?;
    push_labelled(page, name, "cause", "proxy_busy", counts.busy)
}

fn push_refusals(page: &mut Vec<u8>, name: &str, refused: &RefusedSockets) -> Result<(), AllocError>
    ensures { OnOk result (page.new.items ≡ page.old.items
        ++ refusals_text name.now refused.now) }
{
    push_labelled(page, name, "cause", "full", refused.full.count)?;
    push_labelled(page, name, "cause", "no_file_number", refused.no_file.count)?;
    push_labelled(page, name, "cause", "no_memory", refused.no_memory.count)
}

fn push_hosts(
    page: &mut Vec<u8>,
    name: &str,
    number: HostNumber,
    about: &About<'_>,
    snapshot: &Snapshot,
) -> Result<(), AllocError>
    ensures { OnOk result (page.new.items ≡ page.old.items
        ++ host_numbers_text about.now snapshot.now name.now number) }
{
    for i in 0..about.host_count() {
        push_of_host(page, name, about.host_name(i), number.of(snapshot, i))?;
    }
    Ok(())
}

fn push_faults(
    page: &mut Vec<u8>,
    name: &str,
    about: &About<'_>,
    snapshot: &Snapshot,
) -> Result<(), AllocError>
    ensures { OnOk result (page.new.items ≡ page.old.items
        ++ faults_text about.now snapshot.now name.now) }
{
    for i in 0..about.host_count() {
        push_host_faults(page, name, about.host_name(i), &snapshot.faults[i])?;
    }
    Ok(())
}

fn push_host_faults(
    page: &mut Vec<u8>,
    name: &str,
    host: &[u8],
    faults: &HostFaults,
) -> Result<(), AllocError>
    ensures { OnOk result (page.new.items ≡ page.old.items
        ++ host_faults_text name.now host.now faults.now) }
{
    for cause in &FaultCause::ALL {
        push_fault(
            page,
            name,
            host,
            fault_word(*cause),
            faults.of(*cause).count,
        )?;
    }
    Ok(())
}

fn push_outs(
    page: &mut Vec<u8>,
    name: &str,
    about: &About<'_>,
    snapshot: &Snapshot,
) -> Result<(), AllocError>
    ensures { OnOk result (page.new.items ≡ page.old.items
        ++ outs_text about.now snapshot.now name.now) }
{
    for i in 0..about.host_count() {
        push_host_outs(page, name, about.host_name(i), snapshot, i)?;
    }
    Ok(())
}

fn push_returns(
    page: &mut Vec<u8>,
    name: &str,
    about: &About<'_>,
    snapshot: &Snapshot,
) -> Result<(), AllocError>
    ensures { OnOk result (page.new.items ≡ page.old.items
        ++ returns_text about.now snapshot.now name.now) }
{
    let ejected = &snapshot.ejected;
    for i in 0..about.host_count() {
        push_return(
            page,
            name,
            about.host_name(i),
            ejected.moment,
            ejected.hosts[i],
        )?;
    }
    Ok(())
}

fn push_return(
    page: &mut Vec<u8>,
    name: &str,
    host: &[u8],
    now: u64,
    ejected: Option<EjectedHost>,
) -> Result<(), AllocError>
    ensures { OnOk result (page.new.items ≡ page.old.items
        ++ return_text name.now host.now now ejected) }
{
    let Some(ejected) = ejected else {
        return Ok(());
    };
    let reason = reason_word(ejected.reason);
    push_fault(page, name, host, reason, ejected.seconds_left(now))
}

fn push_peers(
    page: &mut Vec<u8>,
    name: &str,
    snapshot: &Snapshot,
    way: Way,
) -> Result<(), AllocError>
    ensures { OnOk result (page.new.items ≡ page.old.items
        ++ peers_text name.now snapshot.now way) }
{
    let clients = way.of(&snapshot.moved.clients);
    let hosts = way.of(&snapshot.moved.hosts);
    push_labelled(page, name, "peer", "clients", clients)?;
    push_labelled(page, name, "peer", "hosts", hosts)
}

fn push_host_outs(
    page: &mut Vec<u8>,
    name: &str,
    host: &[u8],
    snapshot: &Snapshot,
    number: usize,
) -> Result<(), AllocError>
    requires { number < MAX_HOSTS }
    ensures { OnOk result (page.new.items ≡ page.old.items
        ++ host_outs_text name.now host.now snapshot.now number) }
{
    push_of_host(page, name, host, HostNumber::Out.of(snapshot, number))?;
    push_lines_out(page, name, host, snapshot, number)
}

fn push_lines_out(
    page: &mut Vec<u8>,
    name: &str,
    host: &[u8],
    snapshot: &Snapshot,
    index: usize,
) -> Result<(), AllocError>
    requires { index < MAX_HOSTS }
    ensures { OnOk result (page.new.items ≡ page.old.items
        ++ lines_out_text name.now host.now snapshot.now index) }
{
    for line in 0..snapshot.lines_shown() {
        let number = bit(snapshot.is_out_in(line, index));
        push_of_line(page, name, host, line, number)?;
    }
    Ok(())
}

fn bit(is_out: bool) -> u64
    ensures { result ≡ bit is_out }
{
    u64::from(is_out)
}

fn push_durations(page: &mut Vec<u8>, name: &str, durations: &Histogram) -> Result<(), AllocError>
    ensures { OnOk result (page.new.items ≡ page.old.items
        ++ durations_text name.now durations.now) }
{
    push_bounds(page, name, durations)?;
    push_last_bound(page, name, durations.total)?;
    push_sum(page, name, durations)?;
    push_plain(page, name, "_count", durations.total)
}

fn push_cpu(page: &mut Vec<u8>, name: &str, us: u64) -> Result<(), AllocError>
    ensures { OnOk result (page.new.items ≡ page.old.items ++ cpu_text name.now us) }
{
    push_all(page, &[name, " "])?;
    push_seconds(page, us)?;
    push_all(page, &["\n"])
}

fn push_sum(page: &mut Vec<u8>, name: &str, durations: &Histogram) -> Result<(), AllocError>
    ensures { OnOk result (page.new.items ≡ page.old.items ++ sum_text name.now durations.now) }
{
    push_all(page, &[name, "_sum "])?;
    push_seconds(page, durations.sum_us)?;
    push_all(page, &["\n"])
}

fn push_bounds(page: &mut Vec<u8>, name: &str, durations: &Histogram) -> Result<(), AllocError>
    ensures { OnOk result (page.new.items ≡ page.old.items
        ++ bounds_text name.now durations.now) }
{
    for i in 0..BOUNDS {
        push_bound(page, name, BOUNDS_US[i], durations.at_most[i])?;
    }
    Ok(())
}

fn push_host_durations(
    page: &mut Vec<u8>,
    name: &str,
    about: &About<'_>,
    snapshot: &Snapshot,
) -> Result<(), AllocError>
    ensures { OnOk result (page.new.items ≡ page.old.items
        ++ host_durations_text about.now snapshot.now name.now) }
{
    for i in 0..about.host_count() {
        push_histogram_of(page, name, about.host_name(i), &snapshot.host_durations[i])?;
    }
    Ok(())
}

fn push_histogram_of(
    page: &mut Vec<u8>,
    name: &str,
    host: &[u8],
    durations: &Histogram,
) -> Result<(), AllocError>
    ensures { OnOk result (page.new.items ≡ page.old.items
        ++ host_histogram_text name.now host.now durations.now) }
{
    push_host_bounds(page, name, host, durations)?;
    push_last_host_bound(page, name, host, durations.total)?;
    push_host_sum(page, name, host, durations.sum_us)?;
    push_host_count(page, name, host, durations.total)
}

fn push_host_bounds(
    page: &mut Vec<u8>,
    name: &str,
    host: &[u8],
    durations: &Histogram,
) -> Result<(), AllocError>
    ensures { OnOk result (page.new.items ≡ page.old.items
        ++ host_bounds_text name.now host.now durations.now) }
{
    for i in 0..BOUNDS {
        push_host_bound(page, name, host, BOUNDS_US[i], durations.at_most[i])?;
    }
    Ok(())
}
