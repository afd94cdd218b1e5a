use ft_edge::{
    Failed, FolderShelf, GatheringSink, Load, LoadFault, MemShelf, MemSink, MemSource, NullSink,
    Shelf, Sink, Source, StdinSource, StdoutSink, SureSource,
};
use std::test::Fail;

#[test]
fn memory_shelf_replaces_limits_and_fails(rt: HostRuntime) -> Result<(), Fail> {
    let mut shelf = MemShelf::new(rt.alloc());
    shelf.add("a", b"earlier")?;
    shelf.add("a", b"later")?;
    shelf.fail_at(2)?;
    let rows: [(&str, usize, Result<Load, LoadFault>, &[u8]); 5] = [
        ("a", 5, Ok(Load::Whole), b"later"),
        ("a", 4, Ok(Load::TooLong), b""),
        ("a", 5, Err(LoadFault::Failed), b""),
        ("a", 6, Ok(Load::Whole), b"later"),
        ("b", 9, Err(LoadFault::Failed), b""),
    ];
    for (name, limit, want, want_bytes) in rows {
        let mut bytes = Vec::new(rt.alloc());
        assert_eq!(rt; shelf.load(name, limit, &mut bytes), want);
        assert_eq!(rt; bytes.as_slice(), want_bytes);
    }
    Ok(())
}

#[test]
fn memory_source_fails_once_and_goes_on(rt: HostRuntime) -> Result<(), Fail> {
    let mut source = MemSource::new(rt.alloc(), b"script")?;
    source.fail_at(1)?;
    let mut buf = [0; 4];
    assert_eq!(rt; source.take(&mut buf), Ok(4));
    assert_eq!(rt; buf, *b"scri");
    assert_eq!(rt; source.take(&mut buf), Err(Failed));
    assert_eq!(rt; source.take(&mut buf), Ok(2));
    assert_eq!(rt; buf, *b"ptri");
    assert_eq!(rt; source.take(&mut buf), Ok(0));
    Ok(())
}

#[test]
fn memory_sink_fails_and_goes_on(rt: HostRuntime) -> Result<(), Fail> {
    let mut sink = MemSink::new(rt.alloc(), 9)?;
    sink.fail_at(1)?;
    assert_eq!(rt; sink.put(b"out 5\n"), Ok(()));
    assert_eq!(rt; sink.put(b"x"), Err(Failed));
    assert_eq!(rt; sink.put(b"four"), Err(Failed));
    assert_eq!(rt; sink.put(b"end"), Ok(()));
    assert_eq!(rt; sink.written(), b"out 5\nend".as_slice());
    Ok(())
}

#[test]
fn sure_source_and_null_sink_go_through(rt: HostRuntime) {
    let mut source = SureSource::new(b"script");
    let mut buf = [0; 9];
    assert_eq!(rt; source.take(&mut buf), Ok(6));
    assert_eq!(rt; buf, *b"script\0\0\0");
    assert_eq!(rt; source.take(&mut buf), Ok(0));
    assert_eq!(rt; NullSink::new().put(b"dropped"), Ok(()));
}

#[test]
fn folder_shelf_over_devices(rt: HostRuntime) -> Result<(), Fail> {
    let mut shelf = FolderShelf::new(rt.clone()?, rt.alloc());
    let rows = [
        ("/dev/null", 0, Ok(Load::Whole)),
        ("/dev/zero", 10000, Ok(Load::TooLong)),
        ("/dev/zero", 300_000, Ok(Load::TooLong)),
        ("/dev", 10, Err(LoadFault::Failed)),
        ("/dev/null/missing", 10, Err(LoadFault::Failed)),
    ];
    for (path, limit, want) in rows {
        let mut bytes = Vec::new(rt.alloc());
        assert_eq!(rt; shelf.load(path, limit, &mut bytes), want);
        assert_eq!(rt; bytes.len(), 0);
    }
    Ok(())
}

#[test]
fn standard_streams_start(rt: HostRuntime) -> Result<(), Fail> {
    let _script = StdinSource::new(rt.clone()?);
    let mut out = StdoutSink::new(rt.clone()?);
    assert_eq!(rt; out.put(b""), Ok(()));
    Ok(())
}

#[test]
fn gathering_sink_hands_on_all_in_order(rt: HostRuntime) -> Result<(), Fail> {
    let mut written = Vec::new(rt.alloc());
    let mut sink = GatheringSink::new(rt.alloc(), &mut written)?;
    let line = [b'x'; 1000];
    for _ in 0..70 {
        sink.put(&line)?;
    }
    sink.put(b"end")?;
    sink.finish().0?;
    assert_eq!(rt; written.len(), 70_003);
    assert_eq!(rt; &written[69_999..], b"xend".as_slice());
    let mut written = Vec::new(rt.alloc());
    let mut sink = GatheringSink::new(rt.alloc(), &mut written)?;
    sink.put(b"let go")?;
    let _ = sink.discard();
    assert_eq!(rt; written.len(), 0);
    Ok(())
}
