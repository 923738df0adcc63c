use rb_base::{Bytes, Failed, Numbers, OutFault};
use rb_io::{
    MemorySink, MemorySource, ReadAllFault, Sink, Source, StdSink, StdSource, SteadySink,
    SteadySource, read_all, write_all,
};
use std::alloc::Global;
use std::io::Cursor;
use std::test::Fail;

fn moves<T: Send>() {}

#[test]
fn forms_go_between_threads() {
    std_forms_go_with::<Vec<u8>>();
    moves::<MemorySource>();
    moves::<MemorySink>();
    moves::<SteadySource>();
    moves::<SteadySink>();
}

fn std_forms_go_with<T: Send>() {
    moves::<StdSource<T>>();
    moves::<StdSink<T>>();
}

fn text(alloc: Global, bytes: &[u8]) -> Result<Bytes, Fail> {
    Ok(Bytes::from_vec(bytes.to_vec(alloc)?))
}

fn calls(alloc: Global, numbers: &[u64]) -> Result<Numbers, Fail> {
    Ok(Numbers::from_vec(numbers.to_vec(alloc)?))
}

// A failing read in mid-stream loses nothing, and the next read continues after the last.
#[test]
fn a_source_fails_at_its_calls(rt: HostRuntime) -> Result<(), Fail> {
    let alloc = rt.alloc();
    let mut source = MemorySource::new(text(alloc, b"abcde")?, calls(alloc, &[1, 4])?);
    let mut piece = [0u8; 3];
    assert_eq!(rt; source.read(&mut piece), Ok(3));
    assert_eq!(rt; &piece, b"abc");
    assert_eq!(rt; source.read(&mut piece), Err(Failed));
    assert_eq!(rt; source.faults(), 1);
    assert_eq!(rt; source.read(&mut piece), Ok(2));
    assert_eq!(rt; &piece, b"dec");
    assert_eq!(rt; source.read(&mut piece), Ok(0));
    assert_eq!(rt; source.read(&mut piece), Err(Failed));
    assert_eq!(rt; source.faults(), 2);
    Ok(())
}

#[test]
fn a_sink_fails_at_its_calls(rt: HostRuntime) -> Result<(), Fail> {
    let alloc = rt.alloc();
    let mut sink = MemorySink::new(alloc, calls(alloc, &[1])?);
    assert_eq!(rt; sink.write(b"ab"), Ok(2));
    assert_eq!(rt; sink.write(b"cd"), Err(OutFault::Failed));
    assert_eq!(rt; sink.write(b"ef"), Ok(2));
    assert_eq!(rt; sink.bytes(), b"abef".as_slice());
    assert_eq!(rt; sink.faults(), 1);
    assert_eq!(rt; write_all(&mut sink, b"gh"), Ok(()));
    assert_eq!(rt; sink.bytes(), b"abefgh".as_slice());
    Ok(())
}

fn all_of<I: Source>(
    alloc: Global,
    source: &mut I,
    most: u64,
) -> Result<Result<usize, ReadAllFault>, Fail> {
    Ok(read_all(alloc, source, most).map(|bytes| bytes.as_slice().len()))
}

// Longer than a piece, then one byte too long, then a source that fails.
#[test]
fn a_source_is_read_to_its_end(rt: HostRuntime) -> Result<(), Fail> {
    let alloc = rt.alloc();
    let long = vec![in alloc; 7u8; 70000]?;
    let mut source = SteadySource::new(Bytes::from_vec(long.to_vec(alloc)?));
    assert_eq!(rt; all_of(alloc, &mut source, 70000)?, Ok(70000));
    assert_eq!(rt; source.faults(), 0);
    let mut source = SteadySource::new(Bytes::from_vec(long));
    assert_eq!(rt;
        all_of(alloc, &mut source, 69999)?,
        Err(ReadAllFault::TooLong)
    );
    let mut source = MemorySource::new(text(alloc, b"abc")?, calls(alloc, &[1])?);
    assert_eq!(rt; all_of(alloc, &mut source, 9)?, Err(ReadAllFault::Failed));
    Ok(())
}

// std's cursors take as much as they have room for.
#[test]
fn std_forms(rt: HostRuntime) -> Result<(), Fail> {
    let alloc = rt.alloc();
    let mut source = StdSource::new(Cursor::new(b"abc".as_slice()));
    assert_eq!(rt; all_of(alloc, &mut source, 3)?, Ok(3));
    assert_eq!(rt; source.faults(), 0);

    let mut room = [0u8; 3];
    let mut sink = StdSink::new(Cursor::new(room.as_mut_slice()));
    assert_eq!(rt; write_all(&mut sink, b"abcd"), Err(OutFault::Failed));
    assert_eq!(rt; sink.faults(), 1);
    assert_eq!(rt; &room, b"abc");
    Ok(())
}

#[test]
fn a_steady_sink(rt: HostRuntime) -> Result<(), Fail> {
    let mut sink = SteadySink::new(rt.alloc());
    write_all(&mut sink, b"abc")?;
    assert_eq!(rt; sink.write(b""), Ok(0));
    assert_eq!(rt; sink.bytes(), b"abc".as_slice());
    assert_eq!(rt; sink.faults(), 0);
    Ok(())
}
