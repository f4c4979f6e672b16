//! The page of numbers for values that no run produces: a histogram of known values, and labels with escapes.
ghost use Rattle.http_server.specs.Response.{IsBlank};

use bytes::{Buf, Bytes};
use http::Request;
use http_server::{Response, Service};
use limits::MAX_HOSTS;
use proxy_histogram::Histogram;
use proxy_pages::{
    About, Admin, EjectedHosts, LineHosts, Look, MAX_LINES_SHOWN, MovedBytes, ProcessUse, Snapshot,
};
use proxy_serve_core::{HostFaults, RefusedSockets};
use proxy_stats::{Counts, RefusedNames};
use std::alloc::Global;
use std::str;
use std::test::Fail;

// Their sum is 33,333,336 us; one is above the greatest bound.
const DURATIONS_US: [u64; 8] = [0, 25, 26, 285, 3_000, 330_000, 3_000_000, 30_000_000];

const LINES: [&str; 2] = [
    "redproxy_build_info{version=\"1.2.3\",kit=\"a \\\"kit\\\" of C:\\\\\"} 1\n",
    "redproxy_command_duration_seconds_bucket{le=\"0.000025\"} 2
redproxy_command_duration_seconds_bucket{le=\"0.000050\"} 3
redproxy_command_duration_seconds_bucket{le=\"0.000100\"} 3
redproxy_command_duration_seconds_bucket{le=\"0.000250\"} 3
redproxy_command_duration_seconds_bucket{le=\"0.000500\"} 4
redproxy_command_duration_seconds_bucket{le=\"0.001000\"} 4
redproxy_command_duration_seconds_bucket{le=\"0.002000\"} 4
redproxy_command_duration_seconds_bucket{le=\"0.005000\"} 5
redproxy_command_duration_seconds_bucket{le=\"0.010000\"} 5
redproxy_command_duration_seconds_bucket{le=\"0.025000\"} 5
redproxy_command_duration_seconds_bucket{le=\"0.050000\"} 5
redproxy_command_duration_seconds_bucket{le=\"0.100000\"} 5
redproxy_command_duration_seconds_bucket{le=\"0.250000\"} 5
redproxy_command_duration_seconds_bucket{le=\"0.500000\"} 6
redproxy_command_duration_seconds_bucket{le=\"1.000000\"} 6
redproxy_command_duration_seconds_bucket{le=\"2.500000\"} 6
redproxy_command_duration_seconds_bucket{le=\"5.000000\"} 7
redproxy_command_duration_seconds_bucket{le=\"10.000000\"} 7
redproxy_command_duration_seconds_bucket{le=\"+Inf\"} 8
redproxy_command_duration_seconds_sum 33.333336
redproxy_command_duration_seconds_count 8\n",
];

fn snapshot() -> Snapshot {
    let mut durations = Histogram::new();
    for us in DURATIONS_US {
        durations.record(us);
    }
    Snapshot {
        counts: Counts::NONE,
        refused_names: RefusedNames::NONE,
        generations: 1,
        past_steps: 0,
        serving: Look::NONE,
        draining: Look::NONE,
        draining_count: 0,
        connections: 0,
        closed: 0,
        idle_closed: 0,
        moved: MovedBytes::NONE,
        ejected: EjectedHosts::none(0),
        refused: RefusedSockets::NONE,
        faults: [HostFaults::NONE; MAX_HOSTS],
        host_durations: [Histogram::new(); MAX_HOSTS],
        lines: 1,
        line_hosts: [LineHosts::NONE; MAX_LINES_SHOWN],
        durations,
        is_ready: true,
        is_ending: false,
        process: ProcessUse::UNKNOWN,
    }
}

fn request(alloc: Global) -> Result<Request<Bytes>, Fail> {
    Ok(Request::get(alloc, "/metrics").body(Bytes::new())?)
}

fn tells_lines(alloc: Global, request: &Request<Bytes>, response: &mut Response) -> bool
    requires { IsBlank response.old }
{
    let about = About {
        version: "1.2.3",
        kit: "a \"kit\" of C:\\",
        hosts: &[],
    };
    let snapshot = snapshot();
    let mut admin = Admin::new(alloc, &about, &snapshot);
    if admin.call(request, response).is_err() {
        return false;
    }
    match str::from_utf8(response.body.chunk()) {
        Ok(text) => text.contains(LINES[0]) && text.contains(LINES[1]),
        Err(_) => false,
    }
}

#[test]
fn known_values_are_told(rt: HostRuntime) -> Result<(), Fail> {
    let request = request(rt.alloc())?;
    let mut response = Response::new(rt.alloc());
    let are_told = tells_lines(rt.alloc(), &request, &mut response);
    drop(request);
    drop(response);
    assert!(rt; are_told);
    Ok(())
}
