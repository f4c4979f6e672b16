use crate::play::{Played, record_of};
use std::test::Fail;

// The lines of `tools/audit/RECORD.md`'s example, without those of links and the first one. No socket is told.
const EXAMPLE: &str =
    r#"{"n": 0, "at": 1000, "pass": 0, "event": "Opened", "socket": null, "answer": {"conn": 0}}
{"n": 1, "at": 1002, "pass": 0, "event": "Arrived", "conn": 0, "words": ["474554", "636f6c6f7572"], "answer": {"index": 0, "local": null, "parts": 1, "no_host": 0, "busy": 0}}
{"n": 2, "at": 1002, "pass": 0, "event": "Arrived", "conn": 0, "words": ["474554", "687565"], "answer": {"index": 1, "local": null, "parts": 1, "no_host": 0, "busy": 0}}
{"n": 3, "at": 1002, "pass": 0, "event": "Taken", "host": 0, "answer": {"epoch": 0, "place": 0, "words": ["474554", "636f6c6f7572"]}}
{"n": 4, "at": 1002, "pass": 0, "event": "Taken", "host": 1, "answer": {"epoch": 0, "place": 0, "words": ["474554", "687565"]}}
{"n": 5, "at": 1003, "pass": 0, "event": "Answered", "host": 1, "epoch": 0, "t": 1003, "value": ["$", "37"], "answer": {"trip": "None"}}
{"n": 6, "at": 1004, "pass": 0, "event": "Answered", "host": 0, "epoch": 0, "t": 1004, "value": ["$", "677265656e"], "answer": {"trip": "None"}}
{"n": 7, "at": 1004, "pass": 0, "event": "Handed", "conn": 0, "answer": {"value": ["$", "677265656e"]}}
{"n": 8, "at": 1004, "pass": 0, "event": "Handed", "conn": 0, "answer": {"value": ["$", "37"]}}
{"n": 9, "at": 1004, "pass": 0, "event": "Finished", "conn": 0, "answer": {}}
{"n": 10, "at": 1004, "pass": 0, "event": "Closed", "conn": 0, "answer": {}}
{"end": {"steps": 11, "bytes": 130}}
"#;

const SCRIPT: &str =
    "clear 0 10000 30000 300000 10 5 5 100 1900 50 127.0.0.1:7001=1 127.0.0.1:7002=1
0 1000 0 Opened
0 1002 0 Arrived 0 2a320d0a24330d0a4745540d0a24360d0a636f6c6f75720d0a
0 1002 0 Arrived 0 2a320d0a24330d0a4745540d0a24330d0a6875650d0a
0 1002 0 Taken 0
0 1002 0 Taken 1
0 1003 0 Answered 1 0 1003 24310d0a370d0a
0 1004 0 Answered 0 0 1004 24350d0a677265656e0d0a
0 1004 0 Handed 0
0 1004 0 Handed 0
0 1004 0 Finished 0
0 1004 0 Closed 0";

const LEAST: &str = "clear 0 10000 30000 300000 10 5 5 100 1900 50 127.0.0.1:7001=1
0 1 0 Opened
0 1 0 Arrived 0 2a320d0a24330d0a4745540d0a24310d0a610d0a
0 1 0 Arrived 0 2a320d0a24330d0a4745540d0a24310d0a610d0a
0 1 0 Taken 0
0 1 0 Taken 0
0 2 0 Answered 0 0 2 3a2d393232333337323033363835343737353830380d0a
0 2 0 Answered 0 0 2 2a330d0a2a300d0a242d310d0a2a2d310d0a
0 2 0 Handed 0
0 2 0 Handed 0";

#[test]
fn the_example_has_these_lines(rt: HostRuntime) -> Result<(), Fail> {
    let record = record_of(rt.alloc(), SCRIPT)?;
    assert_eq!(rt; record.as_str(), EXAMPLE);
    Ok(())
}

// With `rt try --test --fail-alloc N` one of these allocations is refused.
#[test]
fn a_refused_line_leaves_the_buffer(rt: HostRuntime) -> Result<(), Fail> {
    let played = Played::of(rt.alloc(), SCRIPT)?;
    let mut out = Vec::new(rt.alloc());
    for i in 0..=played.steps() {
        let before = out.len();
        if played.put_line(rt.alloc(), i, &mut out).is_err() {
            assert_eq!(rt; out.len(), before);
            assert!(rt; EXAMPLE.as_bytes().starts_with(out.as_slice()));
            played.put_line(rt.alloc(), i, &mut out)?;
        }
    }
    assert_eq!(rt; out.as_slice(), EXAMPLE.as_bytes());
    Ok(())
}

// An integer of 64 bits, and arrays within arrays.
#[test]
fn replies_are_read_back(rt: HostRuntime) -> Result<(), Fail> {
    let record = record_of(rt.alloc(), LEAST)?;
    assert!(rt;
        record
            .as_str()
            .contains(r#""value": [":", "-9223372036854775808"]}}"#)
    );
    assert!(rt;
        record
            .as_str()
            .contains(r#"{"value": ["*", [["*", []], ["$"], ["*"]]]}}"#)
    );
    Ok(())
}
