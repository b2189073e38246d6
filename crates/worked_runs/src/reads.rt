use position::{
    Failed, MemorySink, MemorySource, ReadError, StdSink, StdSource, read_all, write_all,
};
use std::test::Fail;

#[test]
fn a_limit_of_three_bytes(rt: HostRuntime) -> Result<(), Fail> {
    let alloc = rt.alloc();
    let mut three = MemorySource::new(b"abc".to_vec(alloc)?, Vec::new(alloc));
    let read = read_all(alloc, &mut three, 3)?;
    assert_eq!(rt; read.as_slice(), b"abc".as_slice());
    let mut four = MemorySource::new(b"abcd".to_vec(alloc)?, Vec::new(alloc));
    assert!(rt; matches!(read_all(alloc, &mut four, 3), Err(ReadError::TooLong)));
    Ok(())
}

#[test]
fn moves_bytes_by_pieces(rt: HostRuntime) -> Result<(), Fail> {
    let bytes = b"abcdefgh".to_vec(rt.alloc())?;
    let mut source = MemorySource::new(bytes, Vec::new(rt.alloc()));
    let text = read_all(rt.alloc(), &mut source, 8)?;
    let room = Vec::with_capacity(rt.alloc(), 8)?;
    let mut sink = MemorySink::new(room, 3, [2].to_vec(rt.alloc())?);
    assert_eq!(rt; write_all(&mut sink, &text), Err(Failed));
    assert_eq!(rt; sink.written(), b"abcdef".as_slice());
    let mut input = StdSource::new(text.as_slice());
    let again = read_all(rt.alloc(), &mut input, 8)?;
    let mut output = StdSink::new(rt.stdout());
    assert_eq!(rt; write_all(&mut output, &again), Ok(()));
    Ok(())
}
