use txn_stream::*;

#[test]
fn a_source_is_read_to_its_end(rt: HostRuntime) {
    let mut source = SureSource::new(b"client\n");
    let bytes = read_all(rt.alloc(), &mut source).expect(&rt, "memory");
    assert!(rt; bytes.as_slice() == b"client\n".as_slice());
}

#[test]
fn a_source_gives_one_byte_after_the_other(rt: HostRuntime) {
    let bytes = b"begin".to_vec(rt.alloc()).expect(&rt, "memory");
    let mut source = MemorySource::new(bytes, 1, Vec::new(rt.alloc()));
    let read = read_all(rt.alloc(), &mut source).expect(&rt, "memory");
    assert!(rt; read.as_slice() == b"begin".as_slice());
    assert!(rt; source.faults() == 0);
}

#[test]
fn the_second_read_fails(rt: HostRuntime) {
    let bytes = b"begin 1 opt".to_vec(rt.alloc()).expect(&rt, "memory");
    let failing = vec![in rt.alloc(); 2].expect(&rt, "memory");
    let mut source = MemorySource::new(bytes, 5, failing);
    let stop = read_all(rt.alloc(), &mut source).err();
    assert!(rt; stop == Some(ReadStop::Fault));
    assert!(rt; source.faults() == 1);
}

#[test]
fn ten_bytes_are_taken_and_then_a_write_fails(rt: HostRuntime) {
    let failing = vec![in rt.alloc(); 2].expect(&rt, "memory");
    let mut sink = MemorySink::new(rt.alloc(), 10, failing);
    assert!(rt; write_all(&mut sink, b"1 ok\n2 ok 1\n") == Err(10));
    assert!(rt; sink.written() == b"1 ok\n2 ok ".as_slice());
    assert!(rt; sink.faults() == 1);
}

#[test]
fn all_is_taken(rt: HostRuntime) {
    let mut kept = MemorySink::new(rt.alloc(), 2, Vec::new(rt.alloc()));
    assert!(rt; write_all(&mut kept, b"done\n").is_ok());
    assert!(rt; kept.written() == b"done\n".as_slice());
    assert!(rt; write_all(&mut SureSink::new(), b"done\n").is_ok());
    let mut out = StdoutSink::new(rt.stdout());
    assert!(rt; write_all(&mut out, b"done\n").is_ok());
}
