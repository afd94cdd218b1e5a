//! A buffering sink over a writer that is interrupted, accepts little at a time and fails in the end.
use ft_edge::{GatheringSink, Sink};
use std::alloc::Global;
use std::io;
use std::io::{Error, ErrorKind, Write};
use std::test::Fail;

/// A writer that a signal interrupts before each write. It takes a byte at a time, and fails when it is full.
#[derive(Drop)]
struct HaltingWriter {
    taken: Vec<u8>,
    room: usize,
    is_interrupted: bool,
}

impl HaltingWriter {
    /// A writer with room for this many bytes.
    fn new(alloc: Global, room: usize) -> HaltingWriter {
        HaltingWriter {
            taken: Vec::new(alloc),
            room,
            is_interrupted: false,
        }
    }
}

impl Write for HaltingWriter {
    fn write(&mut self, buf: &[u8]) -> io::Result<usize> {
        self.is_interrupted = !self.is_interrupted;
        if self.is_interrupted {
            return Err(Error::from(ErrorKind::Interrupted));
        }
        if self.taken.len() >= self.room {
            return Err(Error::from(ErrorKind::BrokenPipe));
        }
        let Some(byte) = buf.first() else {
            return Ok(0);
        };
        self.taken.push(*byte)?;
        Ok(1)
    }

    fn flush(&mut self) -> io::Result<()> {
        Ok(())
    }
}

/// Whether a sink over a writer with this much room writes the whole piece.
fn is_written(alloc: Global, room: usize, piece: &[u8]) -> Result<bool, Fail> {
    let mut writer = HaltingWriter::new(alloc, room);
    let mut sink = GatheringSink::new(alloc, &mut writer)?;
    sink.put(piece)?;
    let is_whole = sink.finish().0.is_ok();
    Ok(is_whole && writer.taken.as_slice() == piece)
}

#[test]
fn interrupted_writes_go_on_and_a_full_writer_fails(rt: HostRuntime) -> Result<(), Fail> {
    let rows = [
        (b"".as_slice(), 0, true),
        (b"out 5\n".as_slice(), 6, true),
        (b"out 5\n".as_slice(), 7, true),
        (b"out 5\n".as_slice(), 5, false),
        (b"out 5\n".as_slice(), 0, false),
    ];
    for (piece, room, want) in rows {
        assert_eq!(rt; is_written(rt.alloc(), room, piece)?, want);
    }
    Ok(())
}

#[test]
fn a_piece_beyond_the_room_is_written_apart(rt: HostRuntime) -> Result<(), Fail> {
    let long = Vec::from_elem(rt.alloc(), b'x', 65_537)?;
    assert!(rt; is_written(rt.alloc(), 65_537, long.as_slice())?);
    let mut writer = HaltingWriter::new(rt.alloc(), 65_536);
    let mut sink = GatheringSink::new(rt.alloc(), &mut writer)?;
    assert!(rt; sink.put(long.as_slice()).is_err());
    let _ = sink.discard();
    assert_eq!(rt; writer.taken.len(), 65_536);
    Ok(())
}
