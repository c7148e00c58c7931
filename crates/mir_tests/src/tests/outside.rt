// Sources and sinks that are told when to fail: what comes after a failure.
use mir_outside::{
    Failed, MemSink, MemSource, ReadFault, Sink, Source, StdSink, read_all, write_all,
};
use std::alloc::{AllocError, Global};
use std::test::Fail;

/// What a refusal left can be read by another call.
#[test]
fn reads_on_after_a_refusal(rt: HostRuntime) -> Result<(), Fail> {
    assert!(rt; reads_on(rt.alloc())?);
    Ok(())
}

/// Whether each of three calls answers what it is to answer.
fn reads_on(alloc: Global) -> Result<bool, AllocError> {
    let mut source = source(alloc)?;
    let mut right = true;
    let calls: [Result<&[u8], ReadFault>; 3] = [
        Err(ReadFault::Failed),
        Err(ReadFault::TooLong),
        Ok(b"g"),
    ];
    for wanted in calls {
        right &= reads(alloc, &mut source, wanted);
    }
    Ok(right)
}

/// A source that gives two bytes a call, and fails at the second call.
fn source(alloc: Global) -> Result<MemSource, AllocError> {
    let fails = [2].to_vec(alloc)?;
    let bytes = b"abcdefg".to_vec(alloc)?;
    Ok(MemSource::new(bytes, 2, fails))
}

/// Whether `read_all` answers this of the source, with a limit of three bytes.
fn reads(alloc: Global, source: &mut MemSource, wanted: Result<&[u8], ReadFault>) -> bool {
    match read_all(alloc, source, 3) {
        Ok(all) => wanted == Ok(all.as_slice()),
        Err(fault) => wanted == Err(fault),
    }
}

/// A sink in memory takes pieces until it fails or is full.
#[test]
fn writes_until_it_fails_or_is_full(rt: HostRuntime) -> Result<(), Fail> {
    assert!(rt; writes_on(rt.alloc())?);
    Ok(())
}

/// Whether each of four calls answers what it is to answer, and leaves what it is to leave.
fn writes_on(alloc: Global) -> Result<bool, AllocError> {
    let mut sink = sink(alloc)?;
    let mut right = true;
    let calls = [
        (b"hello".as_slice(), Err(Failed), b"he".as_slice()),
        (b"llo".as_slice(), Ok(()), b"hello".as_slice()),
        (b"world".as_slice(), Err(Failed), b"hellowor".as_slice()),
        (b"".as_slice(), Ok(()), b"hellowor".as_slice()),
    ];
    for (piece, answer, written) in calls {
        right &= write_all(&mut sink, piece) == answer && sink.written() == written;
    }
    Ok(right)
}

/// A sink that takes a byte a call and eight in all, and fails at the third call.
fn sink(alloc: Global) -> Result<MemSink, AllocError> {
    let fails = [3].to_vec(alloc)?;
    MemSink::new(alloc, 1, fails, 8)
}

/// A slice of three bytes as a sink of std takes no more than that, and says so by `Ok(0)`.
#[test]
fn writes_into_a_slice(rt: HostRuntime) {
    let mut room = [0; 3];
    let mut sink = StdSink::new(room.as_mut_slice());
    assert!(rt; write_all(&mut sink, b"hello") == Err(Failed));
    assert!(rt; room == *b"hel");
}
