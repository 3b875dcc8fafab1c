use dv_jobs::gate::PlainGate;
use dv_journal::io_sink::IoSink;
use dv_journal::memory_sink::{MemorySink, Trouble};
use dv_journal::sink::Sink;
use dv_run::{RunFault, run};
use dv_source::io_source::IoSource;
use dv_source::memory_source::MemorySource;
use dv_source::source::Source;
use std::alloc::AllocGlobal;
use std::io::{self, Read};
use std::random::RandomSource;
use std::sync::Wait;
use std::test::Fail;
use std::thread::Threads;

/// A script of 77 bytes, whose text has 54 bytes in five lines.
const SCRIPT: &[u8] =
    br#"{"version":1,"events":[["deferred","a"],["deferred","b"],["callback","a",1]]}"#;

const TEXT: &[u8] = b"new #0 a\nnew #1 b\nfire #0 ok 1\n#0 a ok 1\n#1 b unfired\n";

/// How a run on this thread ends: whether it stopped at its limit, or why it failed.
fn run_here<R, S, K>(rt: &R, source: &mut S, sink: &mut K) -> Result<bool, RunFault>
where
    R: Threads + Wait + RandomSource + AllocGlobal + Sync,
    S: Source,
    K: Sink,
{
    let report = run(rt, source, sink, 0, &PlainGate)?;
    let stopped = report.stopped;
    report.discard();
    Ok(stopped)
}

#[test]
fn a_reader_that_fails_at_any_call_is_a_read_fault(rt: HostRuntime) -> Result<(), Fail> {
    // 8 calls give the script, and the ninth its end
    for calls_before in 0..9u64 {
        let mut source = MemorySource::new(SCRIPT, 10).with_failure(calls_before);
        let mut sink = MemorySink::new(rt.alloc(), 100, 100)?;
        let ended = run_here(&rt, &mut source, &mut sink);
        assert_eq!(rt;
            (ended, sink.bytes().len()),
            (Err(RunFault::ReadFault), 0),
            "after {calls_before}"
        );
    }
    Ok(())
}

#[test]
fn a_writer_that_fails_at_any_call_has_a_prefix(rt: HostRuntime) -> Result<(), Fail> {
    for trouble in [Trouble::Fails, Trouble::TakesNothing] {
        for calls_before in 0..TEXT.len() {
            let mut source = MemorySource::new(SCRIPT, 100);
            let mut sink = MemorySink::new(rt.alloc(), 100, 1)?.with_trouble(
                calls_before as u64,
                trouble,
            );
            let ended = run_here(&rt, &mut source, &mut sink);
            assert_eq!(rt;
                (ended, sink.bytes()),
                (Err(RunFault::WriteFault), &TEXT[..calls_before]),
                "{trouble:?} after {calls_before}"
            );
        }
    }
    Ok(())
}

#[derive(Drop)]
struct Broken;

impl io::Read for Broken {
    fn read(&mut self, _: &mut [u8]) -> io::Result<usize> {
        Err(io::Error::from(io::ErrorKind::BrokenPipe))
    }
}

#[test]
fn a_reader_and_a_writer_of_std_serve_a_run(rt: HostRuntime) -> Result<(), Fail> {
    let mut text = Vec::new(rt.alloc());
    let served = run_here(&rt, &mut IoSource::new(SCRIPT), &mut IoSink::new(&mut text));
    let printed = text.as_slice().len();
    let mut broken = IoSource::new(SCRIPT.chain(Broken));
    let refused = run_here(&rt, &mut broken, &mut IoSink::new(&mut text));
    assert_eq!(rt;
        (served, printed, refused, text.as_slice()),
        (Ok(false), TEXT.len(), Err(RunFault::ReadFault), TEXT)
    );
    Ok(())
}
