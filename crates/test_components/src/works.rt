//! Works in several threads: two clients that meet.
use crate::core_at_gate::core;
use close_behind::CloseBehind;
use proxy_core::Core;
use proxy_engines::{ClientEnds, ClientEngine, ClientWork, EngineError, Tallied, run_all};
use std::alloc::Global;
use std::io::{ErrorKind, Read, Write};
use std::sync::Wait;
use std::sync::atomic::Ordering::SeqCst;
use std::sync::atomic::{AtomicBool, AtomicU64};
use std::test::Fail;
use std::{io, thread};
use ticket_gate::Alone;

const MAX_LOOKS: u32 = 1_000_000;

#[derive(Clone, Copy, Debug, PartialEq, Eq)]
enum Then {
    Ends,
    Fails,
}

#[derive(Drop)]
struct MeetingPoint {
    first_is_here: AtomicBool,
    second_is_here: AtomicBool,
    taken: AtomicU64,
}

impl MeetingPoint {
    fn new() -> MeetingPoint {
        MeetingPoint {
            first_is_here: AtomicBool::new(false),
            second_is_here: AtomicBool::new(false),
            taken: AtomicU64::new(0),
        }
    }
}

// It yields after each look. False: the flag never was up.
fn rises(flag: &AtomicBool) -> bool {
    for _ in 0..MAX_LOOKS {
        if flag.load(SeqCst) {
            return true;
        }
        thread::yield_now();
    }
    false
}

// It returns its text only once the other reader is here, and fails if that never comes.
#[derive(Drop)]
struct Meeting<'a> {
    point: &'a MeetingPoint,
    is_first: bool,
    text: &'static [u8],
    then: Then,
}

impl Meeting<'_> {
    fn meets(&self) -> bool {
        if self.is_first {
            self.point.first_is_here.store(true, SeqCst);
            rises(&self.point.second_is_here)
        } else {
            self.point.second_is_here.store(true, SeqCst);
            rises(&self.point.first_is_here)
        }
    }
}

impl Read for Meeting<'_> {
    fn read(&mut self, buffer: &mut [u8]) -> io::Result<usize> {
        if !self.meets() {
            return Err(io::Error::from(ErrorKind::TimedOut));
        }
        if self.text.is_empty() && self.then == Then::Fails {
            return Err(io::Error::from(ErrorKind::ConnectionReset));
        }
        let most = buffer.len().min(self.text.len());
        let (now, later) = self.text.split_at(most);
        buffer[..most].copy_from_slice(now);
        self.text = later;
        Ok(most)
    }
}

#[derive(Drop)]
struct Counter<'a> {
    point: &'a MeetingPoint,
}

impl Write for Counter<'_> {
    fn write(&mut self, bytes: &[u8]) -> io::Result<usize> {
        self.point.taken.fetch_add(bytes.len() as u64, SeqCst);
        Ok(bytes.len())
    }

    fn flush(&mut self) -> io::Result<()> {
        Ok(())
    }
}

type Client<'a> = ClientWork<Alone<Core>, Tallied<Meeting<'a>>, Tallied<Counter<'a>>>;

fn client<'a, R: Wait>(
    rt: &R,
    alloc: Global,
    point: &'a MeetingPoint,
    is_first: bool,
    then: Then,
) -> Result<Client<'a>, Fail> {
    let mut turns = Alone::new(core(alloc)?, 0);
    let reader = Tallied::new(Meeting {
        point,
        is_first,
        text: b"*1\r\n$4\r\nPING\r\n",
        then,
    });
    let writer = Tallied::new(Counter { point });
    let ends = ClientEnds {
        reader,
        writer,
        behind: CloseBehind::none(),
    };
    match ClientEngine::open(rt, alloc, &mut turns, ends) {
        Ok(engine) => Ok(ClientWork { engine, turns }),
        Err(_) => Err(Fail::from("no memory for a client")),
    }
}

fn clients<'a, R: Wait>(
    rt: &R,
    alloc: Global,
    point: &'a MeetingPoint,
) -> Result<Vec<Client<'a>>, Fail> {
    let mut works = Vec::new(alloc);
    works.push(client(rt, alloc, point, true, Then::Ends)?)?;
    works.push(client(rt, alloc, point, false, Then::Fails)?)?;
    Ok(works)
}

// Works that ran one after another would not meet, and the first would report a failed reader.
#[test]
fn two_workers_meet(rt: HostRuntime) -> Result<(), Fail> {
    let point = MeetingPoint::new();
    let works = clients(&rt, rt.alloc(), &point)?;
    let answers = run_all(&rt, rt.alloc(), works)?;
    assert!(rt; answers.len() == 2);
    assert!(rt; answers[0] == Ok(()));
    assert!(rt; answers[1] == Err(EngineError::ReadFailed));
    assert!(rt; point.taken.load(SeqCst) == 14);
    Ok(())
}
