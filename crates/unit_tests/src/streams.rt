// Streams of the system that fail in mid-stream, are slow or are counted.

use crate::same::same;
use io_edge::{
    GatheringWriter, OsSeeds, OutputStream, Seeds, Sink, Source, StdSink, StdSource, WritePair,
};
use std::alloc::{AllocError, Global};
use std::cell::Cell;
use std::io::{self, ErrorKind, Read};
use std::process::Abort;
use std::random::RandomSource;
use std::rc::Rc;
use std::test::Fail;

/// A reader whose first call a signal interrupts, and whose third one fails.
#[derive(Drop)]
struct Troubled {
    calls: u32,
}

impl Read for Troubled {
    fn read(&mut self, buf: &mut [u8]) -> io::Result<usize> {
        self.calls = self.calls.saturating_add(1);
        match self.calls {
            1 => Err(io::Error::from(ErrorKind::Interrupted)),
            3 => Err(io::Error::from(ErrorKind::ConnectionReset)),
            _ => {
                buf.fill(b'x');
                Ok(buf.len())
            }
        }
    }
}

/// A text in memory of at most `room` bytes, of which each call takes at most `most`; a signal
/// interrupts every third call.
#[derive(Drop)]
struct Slow {
    text: Vec<u8>,
    room: usize,
    most: usize,
    calls: u32,
}

impl WritePair for Slow {
    ghost writes = { λ _ _ _ _. Unit {0} };

    ghost flushes = { λ _ _ _. Unit {0} };

    fn write_pair(&mut self, first: &[u8], second: &[u8]) -> io::Result<usize> {
        self.calls = self.calls.saturating_add(1);
        if self.calls % 3 == 0 {
            return Err(io::Error::from(ErrorKind::Interrupted));
        }
        let most = self.most.min(self.room.saturating_sub(self.text.len()));
        let of_first = first.len().min(most);
        let of_second = second.len().min(most - of_first);
        self.text.extend_from_slice(&first[..of_first])?;
        self.text.extend_from_slice(&second[..of_second])?;
        Ok(of_first + of_second)
    }

    fn flush(&mut self) -> io::Result<()> {
        if self.text.len() < self.room {
            return Ok(());
        }
        Err(io::Error::from(ErrorKind::BrokenPipe))
    }
}

/// A stream that counts the bytes that it takes.
#[derive(Drop)]
struct Counting {
    taken: Rc<Cell<usize>>,
}

impl WritePair for Counting {
    ghost writes = { λ _ _ _ _. Unit {0} };

    ghost flushes = { λ _ _ _. Unit {0} };

    fn write_pair(&mut self, first: &[u8], second: &[u8]) -> io::Result<usize> {
        let len = first.len().saturating_add(second.len());
        self.taken.set(self.taken.get().saturating_add(len));
        Ok(len)
    }

    fn flush(&mut self) -> io::Result<()> {
        Ok(())
    }
}

/// A system without randomness.
#[derive(Drop)]
struct NoEntropy;

impl RandomSource for NoEntropy {
    fn fill_bytes(&self, _buf: &mut [u8]) -> io::Result<()> {
        Err(io::Error::from(ErrorKind::Unsupported))
    }
}

/// What a take is answered, and what it takes.
fn take(source: &mut StdSource<Troubled>) -> (Option<usize>, [u8; 3]) {
    let mut buf = [b'.'; 3];
    (source.take(&mut buf).ok(), buf)
}

#[test]
fn a_source_reads_again_after_a_signal_and_goes_on_after_a_failure(rt: HostRuntime) {
    let mut source = StdSource::new(Troubled { calls: 0 });
    same(&rt, take(&mut source), (Some(3), *b"xxx"));
    same(&rt, take(&mut source), (None, *b"..."));
    same(&rt, source.faults(), 1);
    same(&rt, take(&mut source), (Some(3), *b"xxx"));
    same(&rt, source.faults(), 1);
}

fn slow_stream(alloc: Global, room: usize, most: usize) -> Slow {
    Slow {
        text: Vec::new(alloc),
        room,
        most,
        calls: 0,
    }
}

/// Writes pieces in order, each of which is taken.
fn write_pieces(writer: &mut GatheringWriter<Slow>, pieces: &[&[u8]]) -> bool {
    for piece in pieces {
        if writer.write_all(piece).is_err() {
            return false;
        }
    }
    true
}

/// Asserts that a stream that takes so many bytes a call has all in order, and that the first short
/// piece makes no call.
fn gathers<R: Abort>(rt: &R, alloc: Global, most: usize) -> Result<(), Fail> {
    let mut writer = GatheringWriter::new(alloc, 4, slow_stream(alloc, 100, most))?;
    let pieces: [&[u8]; 5] = [b"abc", b"defghijklmno", b"p", b"qr", b"stuvw"];
    same(rt, write_pieces(&mut writer, &[b"ABC"]), true);
    same(rt, writer.writer().calls, 0);
    same(rt, write_pieces(&mut writer, &pieces), true);
    same(rt, writer.flush().is_ok(), true);
    same(
        rt,
        writer.writer().text.as_slice(),
        b"ABCabcdefghijklmnopqrstuvw",
    );
    Ok(())
}

#[test]
fn a_gathering_writer_writes_all_in_order(rt: HostRuntime) -> Result<(), Fail> {
    for most in [1, 2, 3, 4, 7, 100] {
        gathers(&rt, rt.alloc(), most)?;
    }
    Ok(())
}

/// Writes a short piece, and drops its writer: how much of it was written before.
fn held_back(alloc: Global, taken: Rc<Cell<usize>>, count: &Cell<usize>) -> Result<usize, Fail> {
    let mut writer = GatheringWriter::new(alloc, 8, Counting { taken })?;
    if writer.write_all(b"abcde").is_err() {
        return Err(Fail::new("the piece isn't taken"));
    }
    Ok(count.get())
}

#[test]
fn a_gathering_writer_that_is_dropped_writes_what_it_holds(rt: HostRuntime) -> Result<(), Fail> {
    let taken = Rc::new(rt.alloc(), Cell::new(0))?;
    let before = held_back(rt.alloc(), taken.clone()?, &taken)?;
    same(&rt, before, 0);
    same(&rt, taken.get(), 5);
    Ok(())
}

#[test]
fn a_sink_fails_where_its_stream_takes_nothing_or_cannot_flush(
    rt: HostRuntime,
) -> Result<(), Fail> {
    let writer = GatheringWriter::new(rt.alloc(), 2, slow_stream(rt.alloc(), 6, 2))?;
    let mut sink = StdSink::new(writer);
    same(
        &rt,
        (sink.put(b"abcde").is_ok(), sink.push_out().is_ok()),
        (true, true),
    );
    same(
        &rt,
        (sink.put(b"f").is_ok(), sink.push_out().is_ok()),
        (true, false),
    );
    same(&rt, sink.faults(), 1);
    same(
        &rt,
        (sink.put(b"gh").is_ok(), sink.push_out().is_ok()),
        (true, false),
    );
    same(&rt, (sink.put(b"").is_ok(), sink.faults()), (true, 2));
    Ok(())
}

#[test]
fn two_draws_of_the_system_differ_and_one_without_randomness_fails(rt: HostRuntime) {
    let mut seeds = OsSeeds::new(&rt);
    let (mut first, mut second) = ([0; 300], [0; 300]);
    same(
        &rt,
        (
            seeds.fill(&mut first).is_ok(),
            seeds.fill(&mut second).is_ok(),
        ),
        (true, true),
    );
    same(
        &rt,
        (first != second, first[268..] != [0; 32]),
        (true, true),
    );
    let mut none = OsSeeds::new(NoEntropy);
    same(
        &rt,
        (none.fill(&mut first).is_err(), none.faults()),
        (true, 1),
    );
}
