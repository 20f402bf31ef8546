//! The beginning of a report, which is written.

use vx_io::{MemorySink, SinkFault, SteadySink, put_all};

const TEXT: &[u8] = b"varexj report 1\noptions 1\n";

#[test]
fn a_memory_sink_takes_ten_bytes_a_call_and_fails_at_the_third(rt: HostRuntime) {
    let fails = Vec::from_slice(rt.alloc(), &[3]).expect(&rt, "memory");
    let mut sink = MemorySink::new(rt.alloc(), 10, fails).expect(&rt, "memory");
    assert!(rt; matches!(put_all(&mut sink, TEXT), Err(SinkFault::Failed)));
    assert!(rt; sink.written() == b"varexj report 1\nopti".as_slice());
}

#[test]
fn a_steady_sink_takes_all(rt: HostRuntime) {
    let mut sink = SteadySink::new(rt.alloc()).expect(&rt, "memory");
    assert!(rt; put_all(&mut sink, TEXT).is_ok() && sink.written() == TEXT);
}
