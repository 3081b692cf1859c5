ghost use Rattle.std.specs.Prelude.{◌≡◌, ◌++◌, ◌-◌, ◌≤◌, ℕ, List, [], Bool, drop, length, is_ok};
ghost use Rattle.std.specs.Prelude.{IfOk, IfErr, OnOk, Result, true, false, MatchBool, ◌⊎◌};
ghost use Rattle.std.specs.Prelude.{vec_capacity};
ghost use Rattle.std.specs.Io.{WritesAtMost};
ghost use Rattle.std.specs.IoError.{error_kind};
ghost use Rattle.std.specs.declared.io.Error.{Error};
ghost use Rattle.io_edge.specs.Calls.{WritesSome, WritesThrough, FlushesThrough};
ghost use Rattle.io_edge.specs.Outlet.{HoldsBackRear, IsRear};

use crate::OutputStream;
use crate::calls::kind_of;
use std::alloc::Global;
use std::io::{self, ErrorKind};

/// A stream of the system that can be given two pieces at once, one behind the other. What its
/// calls do is a matter of the stream.
pub trait WritePair: Drop {
    /// What a write does: from the stream before it, by the two pieces together and the answer, to
    /// the stream after it.
    ghost writes: { Self → List ℕ → Result ℕ Error → Self → Type 0 };

    /// What a flush does, by whether it was done.
    ghost flushes: { Self → Bool → Self → Type 0 };

    /// Writes a front of the two pieces together, and says how many bytes. A call that fails writes
    /// nothing. It may be interrupted.
    fn write_pair(&mut self, first: &[u8], second: &[u8]) -> io::Result<usize>
        ensures bound { WritesAtMost result (first.now ++ second.now) }
        ensures writes { writes self.old (first.now ++ second.now) result self.new };

    /// Lets what was written go out.
    fn flush(&mut self) -> io::Result<()>
        ensures { flushes self.old (is_ok result) self.new };
}

/// A stream that holds back short pieces until they are flushed or a longer one follows, and writes
/// them together with that one. So the head of a reply and its data leave together: a short piece
/// is copied, a long one is not. What is held back when it is dropped is written then.
pub struct GatheringWriter<W: WritePair> {
    writer: W,
    held: Vec<u8>,
}

impl<W: WritePair> GatheringWriter<W> {
    /// A stream that holds back at most `capacity` bytes, whose memory it takes now, and nothing
    /// yet. Its one error is `OutOfMemory`, which drops the writer.
    pub fn new(alloc: Global, capacity: usize, writer: W) -> io::Result<GatheringWriter<W>>
        ensures writer { IfOk result (λ g. g.writer ≡ writer) }
        ensures holds_nothing { IfOk result (λ g. g.held.items ≡ []) }
        ensures room { IfOk result (λ g. vec_capacity g.held ≡ capacity) }
        ensures err { IfErr result (λ e. error_kind e ≡ ErrorKind.OutOfMemory) }
    {
        let held = Vec::with_capacity(alloc, capacity)?;
        Ok(GatheringWriter { writer, held })
    }

    /// The writer, which has all but what is held back.
    pub fn writer(&self) -> &W
        ensures { result.now ≡ self.now.writer }
    {
        &self.writer
    }

    /// Writes what is held back and the bytes behind it, all of it or up to where the writer
    /// refuses.
    fn write_through(&mut self, bytes: &[u8]) -> Result<(), ErrorKind>
        ensures through { WritesThrough W.writes self.old.writer self.old.held.items bytes.now
            (is_ok result) self.new.writer self.new.held.items }
        ensures empty { OnOk result (self.new.held.items ≡ []) }
    {
        let mut at = 0;
        for _ in 0..u64::MAX {
            if self.held.is_empty() && at == bytes.len() {
                return Ok(());
            }
            match self.write_some(&bytes[at..]) {
                Ok(n) => at += n,
                Err(error) => return Err(error),
            }
        }
        Err(ErrorKind::Other)
    }

    /// Writes a front of what is held back and of the piece behind it, and says how many bytes of
    /// the piece; none where a signal interrupts the write.
    fn write_some(&mut self, piece: &[u8]) -> Result<usize, ErrorKind>
        ensures within { IfOk result (λ n. n ≤ length piece.now) }
        ensures some { WritesSome W.writes self.old.writer self.old.held.items piece.now result
            self.new.writer self.new.held.items }
    {
        match self.writer.write_pair(self.held.as_slice(), piece) {
            Ok(0) => Err(ErrorKind::WriteZero),
            Ok(n) => Ok(self.leave(n)),
            Err(error) => {
                let kind = error.kind();
                if kind == ErrorKind::Interrupted {
                    return Ok(0);
                }
                Err(kind)
            }
        }
    }

    /// Drops the first `n` bytes of what is held back, which were written, and says how many more
    /// were.
    fn leave(&mut self, n: usize) -> usize
        ensures writer { self.new.writer ≡ self.old.writer }
        ensures held { self.new.held.items ≡ drop n self.old.held.items }
        ensures more { result ≡ n - length self.old.held.items }
    {
        let held = self.held.len();
        if n < held {
            remove_front(&mut self.held, n);
            return 0;
        }
        self.held.clear();
        n - held
    }
}

/// Removes the first `n` bytes.
fn remove_front(bytes: &mut Vec<u8>, n: usize)
    requires { n ≤ length bytes.old.items }
    ensures items { bytes.new.items ≡ drop n bytes.old.items }
    ensures capacity { vec_capacity bytes.new ≡ vec_capacity bytes.old }
{
    let len = bytes.len();
    bytes.as_mut_slice().copy_within(n..len, 0);
    bytes.truncate(len - n);
}

impl<W: WritePair> OutputStream for GatheringWriter<W> {
    ghost held_back = { λ g. g.held.items };

    ghost writes = { λ old bytes done new. WritesThrough W.writes old.writer old.held.items bytes
        done new.writer new.held.items };

    ghost flushes = { λ old done new. FlushesThrough W.writes W.flushes old.writer old.held.items
        done new.writer new.held.items };

    fn write_all(&mut self, bytes: &[u8]) -> Result<(), ErrorKind> {
        if bytes.len() <= self.held.capacity() - self.held.len() {
            let Ok(()) = self.held.extend_from_slice(bytes) else {
                unreachable!()
            };
            return Ok(());
        }
        self.write_through(bytes)
    }

    fn flush(&mut self) -> Result<(), ErrorKind> {
        if self.held.is_empty() {
            return kind_of(self.writer.flush());
        }
        match self.write_through(&[]) {
            Ok(()) => kind_of(self.writer.flush()),
            Err(kind) => Err(kind),
        }
    }
}

impl<W: WritePair> Drop for GatheringWriter<W> {
    fn drop(mut self) {
        let _ = self.write_through(&[]);
        let GatheringWriter {
            writer: _writer,
            held: _,
        } = self;
    }
}
