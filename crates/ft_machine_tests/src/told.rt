//! A sink, a shelf and a source that record every call, and end the process if there is no memory for that. They show
//! that code can satisfy what the traits say about pieces, loads and takes.
ghost use Rattle.std.specs.Prelude.{Some, map};

use ft_edge::{Failed, Load, LoadFault, MemShelf, MemSink, MemSource, Shelf, Sink, Source};
use std::alloc::Global;
use std::process::Abort;
use std::test::Fail;

/// A sink that passes each piece on, and keeps it.
#[derive(Drop)]
struct KeepingSink<R: Abort + Drop, K: Sink + Drop> {
    rt: R,
    alloc: Global,
    inner: K,
    pieces: Vec<Vec<u8>>,
}

impl<R: Abort + Drop, K: Sink + Drop> Sink for KeepingSink<R, K> {
    ghost log = { λ sink. record (K.log sink.inner) { pieces = Some (map (λ piece. piece.items) sink.pieces.items) } };

    fn put(&mut self, bytes: &[u8]) -> Result<(), Failed> {
        let piece = Vec::from_slice(self.alloc, bytes).expect(&self.rt, "memory for a piece");
        if self.pieces.push(piece).is_err() {
            self.rt.abort();
        }
        self.inner.put(bytes)
    }
}

/// A call of a shelf's `load`: the name and the limit.
#[derive(Drop)]
struct Asked {
    name: Vec<u8>,
    limit: usize,
}

/// A shelf that passes each load on, and keeps the name and the limit.
#[derive(Drop)]
struct KeepingShelf<R: Abort + Drop, F: Shelf + Drop> {
    rt: R,
    alloc: Global,
    inner: F,
    asked: Vec<Asked>,
}

impl<R: Abort + Drop, F: Shelf + Drop> Shelf for KeepingShelf<R, F> {
    ghost log = { λ shelf. record (F.log shelf.inner) { asked = Some (map (λ load. (load.name.items, load.limit)) shelf.asked.items) } };

    ghost agrees = { λ shelf files. F.agrees shelf.inner files };

    fn load(&mut self, name: &str, limit: usize, into: &mut Vec<u8>) -> Result<Load, LoadFault> {
        let copy = Vec::from_slice(self.alloc, name.as_bytes()).expect(
            &self.rt,
            "memory for a name",
        );
        if self.asked.push(Asked { name: copy, limit }).is_err() {
            self.rt.abort();
        }
        self.inner.load(name, limit, into)
    }
}

/// A source that passes each take on, and keeps how many bytes it returned.
#[derive(Drop)]
struct KeepingSource<R: Abort + Drop, I: Source + Drop> {
    rt: R,
    inner: I,
    sizes: Vec<usize>,
}

impl<R: Abort + Drop, I: Source + Drop> Source for KeepingSource<R, I> {
    ghost log = { λ source. record (I.log source.inner) { takes = Some source.sizes.items } };

    ghost heard = { λ source. I.heard source.inner };

    ghost may_be_left = { λ source rest. I.may_be_left source.inner rest };

    fn take(&mut self, buf: &mut [u8]) -> Result<usize, Failed> {
        let answer = self.inner.take(buf);
        let size = match answer {
            Ok(count) => count,
            Err(_) => 0,
        };
        if self.sizes.push(size).is_err() {
            self.rt.abort();
        }
        answer
    }
}

#[test]
fn a_sink_tells_also_the_piece_whose_put_failed(rt: HostRuntime) -> Result<(), Fail> {
    let mut sink = KeepingSink {
        rt: rt.clone()?,
        alloc: rt.alloc(),
        inner: MemSink::new(rt.alloc(), 9)?,
        pieces: Vec::new(rt.alloc()),
    };
    assert_eq!(rt; sink.put(b"out 5\n"), Ok(()));
    assert_eq!(rt; sink.put(b"four"), Err(Failed));
    assert_eq!(rt; sink.pieces.len(), 2);
    assert_eq!(rt; sink.pieces[0].as_slice(), b"out 5\n".as_slice());
    assert_eq!(rt; sink.pieces[1].as_slice(), b"four".as_slice());
    assert_eq!(rt; sink.inner.written(), b"out 5\n".as_slice());
    Ok(())
}

#[test]
fn a_shelf_tells_each_name_and_limit(rt: HostRuntime) -> Result<(), Fail> {
    let mut inner = MemShelf::new(rt.alloc());
    inner.add("a", b"five!")?;
    let mut shelf = KeepingShelf {
        rt: rt.clone()?,
        alloc: rt.alloc(),
        inner,
        asked: Vec::new(rt.alloc()),
    };
    let mut bytes = Vec::new(rt.alloc());
    assert_eq!(rt; shelf.load("b", 7, &mut bytes), Err(LoadFault::Failed));
    assert_eq!(rt; shelf.load("a", 5, &mut bytes), Ok(Load::Whole));
    assert_eq!(rt; shelf.asked.len(), 2);
    assert_eq!(rt; shelf.asked[0].name.as_slice(), b"b".as_slice());
    assert_eq!(rt; shelf.asked[0].limit, 7);
    assert_eq!(rt; shelf.asked[1].name.as_slice(), b"a".as_slice());
    assert_eq!(rt; shelf.asked[1].limit, 5);
    Ok(())
}

#[test]
fn a_source_tells_the_size_of_each_take(rt: HostRuntime) -> Result<(), Fail> {
    let mut inner = MemSource::new(rt.alloc(), b"script")?;
    inner.fail_at(1)?;
    let mut source = KeepingSource {
        rt: rt.clone()?,
        inner,
        sizes: Vec::new(rt.alloc()),
    };
    let mut buf = [b'.'; 4];
    assert_eq!(rt; source.take(&mut buf), Ok(4));
    assert_eq!(rt; source.take(&mut buf), Err(Failed));
    assert_eq!(rt; buf, *b"scri");
    assert_eq!(rt; source.take(&mut buf), Ok(2));
    assert_eq!(rt; source.take(&mut buf), Ok(0));
    assert_eq!(rt; source.sizes.as_slice(), [4usize, 0, 2, 0].as_slice());
    Ok(())
}
