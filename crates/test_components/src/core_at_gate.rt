//! The gate round the core: two passes in two threads.
ghost use Rattle.std.specs.Prelude.{◌≡◌, [], IfOk};
ghost use Rattle.ticket_gate.specs.Gate.{IsPassOf};

use crate::gate::pair;
use ketama::Ring;
use proxy_core::{Core, Event, Settings};
use std::alloc::Global;
use std::sync::Wait;
use std::test::Fail;
use std::thread;
use ticket_gate::{Gate, Pass};

const SWEEPS: u64 = 200;

pub(crate) fn core(alloc: Global) -> Result<Core, Fail>
    ensures { IfOk result (λ core. core.steps ≡ []) }
{
    let ring = Ring::of_points(alloc, 1, &[(1000, 0)])?;
    Ok(Core::new(alloc, ring, Settings::default())?)
}

// Sweeps at 0, 1, 2 and so on milliseconds. Returns the number of answered turns.
fn sweep<R: Wait>(rt: &R, gate: &Gate<Core>, pass: Pass<Core>) -> (Pass<Core>, u64)
    requires { IsPassOf gate.now pass }
    ensures { IsPassOf gate.now result.0 }
{
    let mut pass = pass;
    let mut answered = 0u64;
    for t in 0..SWEEPS {
        let turned = gate.take_turn(rt, &mut pass, Event::Swept { t });
        answered = answered.saturating_add(u64::from(turned.is_ok()));
        drop(turned);
    }
    (pass, answered)
}

fn looked<R: Wait>(rt: &R, gate: &Gate<Core>, pass: &mut Pass<Core>) -> Option<(u64, u64)>
    requires { IsPassOf gate.now pass.old }
    ensures { IsPassOf gate.now pass.new }
{
    match gate.sight(rt, pass) {
        Ok(handover) => Some((handover.steps(), handover.bytes())),
        Err(_) => None,
    }
}

pub(crate) fn swept_at(event: &Event) -> Option<u64> {
    match event {
        Event::Swept { t } => Some(*t),
        _ => None,
    }
}

// `None`: the pass's sweeps don't stand in the order in which it made them.
fn sweeps_in_order(core: &Core, pass: u64) -> Option<u64> {
    let journal = core.journal();
    let mut next = 0u64;
    for i in 0..journal.len() {
        let step = journal.get(i)?;
        if step.pass == pass {
            if swept_at(&step.event) != Some(next) {
                return None;
            }
            next = next.saturating_add(1);
        }
    }
    Some(next)
}

// The number of steps, and each pass's `sweeps_in_order`.
fn told(core: Option<Core>) -> Option<(usize, [Option<u64>; 2])> {
    let core = core?;
    let sweeps = [sweeps_in_order(&core, 0), sweeps_in_order(&core, 1)];
    let len = core.journal().len();
    drop(core);
    Some((len, sweeps))
}

#[test]
fn two_passes_sweep(rt: HostRuntime) -> Result<(), Fail> {
    let (gate, one, other) = pair(&rt, rt.alloc(), core(rt.alloc())?)?;
    let shared = &gate;
    let ((one, by_one), (other, by_other)) = thread::join(
        &rt,
        || -> (Pass<Core>, u64)
            requires { IsPassOf shared.now one }
            ensures { IsPassOf shared.entry.now result.0 }
        { sweep(&rt, shared, one) },
        || -> (Pass<Core>, u64)
            requires { IsPassOf shared.now other }
            ensures { IsPassOf shared.entry.now result.0 }
        { sweep(&rt, shared, other) },
    );
    let (mut one, other) = gate.meet(one, other);
    let numbers = [one.number(), other.number()];
    drop(other);
    let look = looked(&rt, &gate, &mut one);
    let told = told(gate.close(one));
    assert!(rt; ([by_one, by_other], numbers) == ([SWEEPS; 2], [0, 1]));
    assert!(rt; look == Some((400, 0)));
    assert!(rt; told == Some((400, [Some(200); 2])));
    Ok(())
}
