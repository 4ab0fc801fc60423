use std::alloc::{AllocError, Global};
use std::io;
use std::io::{Read, Write};
use std::test::Fail;
use vp_outside::{
    Failed, InputFault, OutFault, Reading, Sink, Source, SureSink, SureSource, TextSink,
    TextSource, Writing, read_to_end, write_all,
};

const TEXT: &[u8] = b"abcdefgh";

/// A source that gives three bytes a call.
fn text_source(alloc: Global, failing: Vec<u64>) -> Result<TextSource, AllocError> {
    let mut source = TextSource::new(TEXT.to_vec(alloc)?, failing);
    source.most = 3;
    Ok(source)
}

/// Whether the source gives the text and then its end.
fn gives_text<S: Source>(alloc: Global, source: &mut S, limit: usize) -> Result<bool, InputFault> {
    let bytes = read_to_end(alloc, source, limit)?;
    Ok(bytes.as_slice() == TEXT)
}

#[test]
fn a_text_is_read_in_pieces(rt: HostRuntime) {
    let mut source = text_source(rt.alloc(), Vec::new(rt.alloc())).expect(&rt, "no fault");
    assert_eq!(rt; gives_text(rt.alloc(), &mut source, 100), Ok(true));
    assert_eq!(rt; source.faults(), 0);
    assert_eq!(rt; source.plan.calls, 4, "three pieces and the end");
}

/// The result of a call of the source, and what it leaves in five bytes.
fn taken(source: &mut TextSource) -> (Result<usize, Failed>, [u8; 5]) {
    let mut buf = [0; 5];
    let answer = source.take(&mut buf);
    (answer, buf)
}

#[test]
fn a_planned_call_of_a_source_fails_and_is_counted(rt: HostRuntime) {
    let alloc = rt.alloc();
    let mut source = text_source(alloc, vec![in alloc; 2, 4].expect(&rt, "no fault")).expect(
        &rt, "no fault",
    );
    assert_eq!(rt;
        gives_text(alloc, &mut source, 100),
        Err(InputFault::Failed)
    );
    assert_eq!(rt; source.faults(), 1);
    assert!(rt; taken(&mut source) == (Ok(3), *b"def\0\0"));
    assert!(rt; taken(&mut source) == (Err(Failed), [0; 5]));
    assert_eq!(rt; source.faults(), 2);
}

#[test]
fn a_text_that_is_longer_than_the_limit_is_refused(rt: HostRuntime) {
    let alloc = rt.alloc();
    let mut longer = SureSource::new(TEXT.to_vec(alloc).expect(&rt, "no fault"));
    assert_eq!(rt; gives_text(alloc, &mut longer, 7), Err(InputFault::TooLong));
    let mut fits = SureSource::new(TEXT.to_vec(alloc).expect(&rt, "no fault"));
    assert_eq!(rt; gives_text(alloc, &mut fits, 8), Ok(true));
    assert_eq!(rt; fits.faults(), 0);
}

/// A sink that takes three bytes a call.
fn text_sink(alloc: Global, failing: Vec<u64>) -> TextSink {
    let mut sink = TextSink::new(alloc, failing);
    sink.most = 3;
    sink
}

/// Writes the text.
fn write_text<K: Sink>(sink: &mut K) -> Result<(), OutFault> {
    write_all(sink, TEXT)
}

#[test]
fn a_sink_gets_all_the_bytes(rt: HostRuntime) {
    let mut sink = text_sink(rt.alloc(), Vec::new(rt.alloc()));
    write_text(&mut sink).expect(&rt, "no fault");
    write_all(&mut sink, b"").expect(&rt, "no fault");
    assert_eq!(rt; sink.bytes(), TEXT);
    assert_eq!(rt; sink.plan.calls, 3);
}

#[test]
fn a_sink_that_is_sure_gets_all_the_bytes(rt: HostRuntime) {
    let mut sink = SureSink::new(rt.alloc());
    write_text(&mut sink).expect(&rt, "no fault");
    assert_eq!(rt; sink.bytes(), TEXT);
    assert_eq!(rt; sink.faults(), 0);
}

#[test]
fn a_planned_call_of_a_sink_fails_and_is_counted(rt: HostRuntime) {
    let alloc = rt.alloc();
    let mut sink = text_sink(alloc, vec![in alloc; 3].expect(&rt, "no fault"));
    assert_eq!(rt; write_text(&mut sink), Err(OutFault::Failed));
    assert_eq!(rt; sink.bytes(), b"abcdef".as_slice());
    assert_eq!(rt; sink.faults(), 1);
    assert_eq!(rt; sink.put(b"wxyz"), Ok(3));
    assert_eq!(rt; sink.bytes(), b"abcdefwxy".as_slice());
}

#[test]
fn readers_and_writers_are_sources_and_sinks(rt: HostRuntime) {
    let mut source = Reading::new(TEXT);
    assert_eq!(rt; gives_text(rt.alloc(), &mut source, 8), Ok(true));
    assert_eq!(rt; source.faults(), 0);
    let mut sink = Writing::new(Vec::<u8>::new(rt.alloc()));
    write_text(&mut sink).expect(&rt, "no fault");
    assert_eq!(rt; sink.faults(), 0);
}

/// A device whose second call fails, and each one after it.
#[derive(Drop)]
struct Broken {
    calls: u8,
}

impl Broken {
    fn count(&mut self) -> io::Result<()> {
        if self.calls == 1 {
            return Err(io::Error::from(io::ErrorKind::BrokenPipe));
        }
        self.calls = 1;
        Ok(())
    }
}

impl Read for Broken {
    fn read(&mut self, buf: &mut [u8]) -> io::Result<usize> {
        self.count()?;
        Ok(buf.len().min(1))
    }
}

impl Write for Broken {
    fn write(&mut self, buf: &[u8]) -> io::Result<usize> {
        self.count()?;
        Ok(buf.len().min(1))
    }

    fn flush(&mut self) -> io::Result<()> {
        Ok(())
    }
}

/// A writer that takes nothing.
#[derive(Drop)]
struct Full;

impl Write for Full {
    fn write(&mut self, _: &[u8]) -> io::Result<usize> {
        Ok(0)
    }

    fn flush(&mut self) -> io::Result<()> {
        Ok(())
    }
}

#[test]
fn an_error_of_a_reader_is_counted(rt: HostRuntime) {
    let mut source = Reading::new(Broken { calls: 0 });
    assert_eq!(rt;
        gives_text(rt.alloc(), &mut source, 8),
        Err(InputFault::Failed)
    );
    assert_eq!(rt; source.faults(), 1);
}

#[test]
fn an_error_of_a_writer_is_counted(rt: HostRuntime) {
    let mut sink = Writing::new(Broken { calls: 0 });
    assert_eq!(rt; write_text(&mut sink), Err(OutFault::Failed));
    assert_eq!(rt; sink.faults(), 1);
}

#[test]
fn a_writer_that_takes_nothing_fails(rt: HostRuntime) {
    let mut full = Writing::new(Full);
    assert_eq!(rt; full.put(b""), Ok(0));
    assert_eq!(rt; full.put(TEXT), Err(OutFault::Failed));
    assert_eq!(rt; full.faults(), 1);
}
