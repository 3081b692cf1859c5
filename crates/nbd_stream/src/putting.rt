ghost use Rattle.std.specs.Prelude.{◌≡◌, ℕ, List, OnOk};
ghost use Rattle.nbd_stream.specs.Putting.{IsOut, Puts};

use base_terms::Failed;
use io_edge::Sink;

/// Puts one piece, and counts its bytes where it was put whole.
pub fn put_piece<K: Sink>(sink: &mut K, bytes: &[u8], put: &mut u64) -> Result<(), Failed>
    ensures { (whole : List ℕ) × (front : List ℕ)
        × Puts (K.outlet sink.old) (K.outlet sink.new) put.old put.new bytes.now result whole
        front }
{
    let before = *put;
    match sink.put(bytes) {
        Ok(()) => {
            *put = before.saturating_add(bytes.len() as u64);
            Ok(())
        }
        Err(failed) => Err(failed),
    }
}

/// Puts one piece as `put_piece` does, and lets it go out.
pub fn put_message<K: Sink>(sink: &mut K, bytes: &[u8], put: &mut u64) -> Result<(), Failed>
    ensures out { OnOk result (IsOut (K.outlet sink.new)) }
    ensures puts { (whole : List ℕ) × (front : List ℕ)
        × Puts (K.outlet sink.old) (K.outlet sink.new) put.old put.new bytes.now result whole
        front }
{
    put_piece(sink, bytes, put)?;
    sink.push_out()
}
