// What a client is answered, and how long it may take for that.

ghost use Rattle.std.specs.Prelude.{◌≡◌};

use crate::streams::{HangUp, Peer};
use io_edge::WritePair;
use std::io::{self, ErrorKind, Stderr};

/// What a client's answers are written to. A client that takes nothing of them for longer than the
/// system was told to wait is dropped: the write fails, the connection is ended, so that nothing
/// more is waited for, and that is said on standard error, with its address.
#[derive(Drop)]
pub struct ClientWriter<W: WritePair + HangUp> {
    writer: W,
    errors: Stderr,
    peer: Option<Peer>,
}

impl<W: WritePair + HangUp> ClientWriter<W> {
    /// The answers to this client go to the writer.
    pub fn new(writer: W, errors: Stderr, peer: Option<Peer>) -> ClientWriter<W>
        ensures writer { result.writer ≡ writer }
    {
        ClientWriter {
            writer,
            errors,
            peer,
        }
    }

    /// Ends the connection, and says so.
    fn drop_client(&self) {
        self.writer.hang_up();
        if let Some(peer) = self.peer {
            let _ = eprintln!(self.errors; "reencd: {peer}: dropped, it takes no answers");
        }
    }
}

impl<W: WritePair + HangUp> WritePair for ClientWriter<W> {
    ghost writes = { λ old bytes done new. W.writes old.writer bytes done new.writer };

    ghost flushes = { λ old done new. W.flushes old.writer done new.writer };

    fn write_pair(&mut self, first: &[u8], second: &[u8]) -> io::Result<usize> {
        let done = self.writer.write_pair(first, second);
        if let Err(error) = &done
            && error.kind() == ErrorKind::WouldBlock
        {
            self.drop_client();
        }
        done
    }

    fn flush(&mut self) -> io::Result<()> {
        self.writer.flush()
    }
}
