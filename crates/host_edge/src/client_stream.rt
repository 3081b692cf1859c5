// The bytes of a client, and how long they are waited for.

ghost use Rattle.std.specs.Prelude.{◌≡◌, ◌≤◌, IfOk, length, option_map};
ghost use Rattle.host_edge.specs.Clients.{ReadsInTime, settled};

use crate::streams::Patient;
use crate::watch::Watch;
use io_edge::InputStream;
use std::io::{self, ErrorKind};
use std::time::{Clock, Duration};

/// What a client's bytes are read from. A client that connects is dropped, as by a failed read,
/// where it isn't through the negotiation within 30 seconds; and behind that where it says nothing
/// for longer than it may. Both are said on standard error, with its address. One that isn't watched
/// is waited for without an end.
#[derive(Drop)]
pub struct ClientStream<R: InputStream + Patient, C: Clock + Copy + Drop> {
    reader: R,
    watch: Option<Watch<C>>,
}

impl<R: InputStream + Patient, C: Clock + Copy + Drop> ClientStream<R, C> {
    /// The bytes of this reader.
    pub fn new(reader: R, watch: Option<Watch<C>>) -> ClientStream<R, C>
        ensures reader { result.reader ≡ reader }
        ensures watch { result.watch ≡ watch }
    {
        ClientStream { reader, watch }
    }
}

impl<R: InputStream + Patient, C: Clock + Copy + Drop> InputStream for ClientStream<R, C> {
    ghost reads = { λ old buf answer new. ReadsInTime R.reads old.reader
        (option_map (λ watch. watch.is_settled) old.watch) buf answer new.reader };

    /// Reads on. Where the time for the negotiation is over, it fails by `TimedOut` without a read.
    /// Until then a write may wait for half of what is left: one that the client took in part is made
    /// once more.
    fn read_some(&mut self, buf: &mut [u8]) -> io::Result<usize>
        ensures within { IfOk result (λ n. n ≤ length buf.new) }
        ensures reads { ReadsInTime R.reads self.old.reader
            (option_map (λ watch. watch.is_settled) self.old.watch) buf.new result
            self.new.reader }
        ensures watch { self.new.watch ≡ self.old.watch }
    {
        let Some(watch) = self.watch else {
            return self.reader.read_some(buf);
        };
        if !watch.is_settled {
            let left = watch.time_left();
            if left == 0 {
                watch.tell();
                return Err(io::Error::from(ErrorKind::TimedOut));
            }
            self.reader.set_patience(
                Some(Duration::from_millis(left)),
                Some(Duration::from_millis(left - left / 2)),
            );
        }
        let done = self.reader.read_some(buf);
        if let Err(error) = &done
            && error.kind() == ErrorKind::WouldBlock
        {
            watch.tell();
        }
        done
    }

    /// From now on the client may be silent for as long as its watch says.
    fn settle(&mut self)
        ensures reader { self.new.reader ≡ self.old.reader }
        ensures watch { self.new.watch ≡ settled self.old.watch }
    {
        if let Some(watch) = &mut self.watch {
            watch.is_settled = true;
            let idle = watch.idle_time();
            self.reader.set_patience(idle, idle);
        }
    }
}
