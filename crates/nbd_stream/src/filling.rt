ghost use Rattle.std.specs.Prelude.{◌≡◌, ◌≤◌, ◌+◌, ℕ, List, length, take};
ghost use Rattle.nbd_stream.specs.Traffic.{Fills, filled_of};

use io_edge::Source;

/// How a buffer was filled: whole, with so many bytes to the end of the input, or with so many
/// bytes before the source failed.
#[derive(Clone, Copy)]
pub enum Filled {
    Whole,
    Ended(usize),
    Fault(usize),
}

/// Fills a buffer from a source that gives its bytes in pieces.
pub fn fill<S: Source>(source: &mut S, buf: &mut [u8]) -> Filled
    ensures { Fills (S.intake source.old) (S.intake source.new) (length buf.new) result
        (take (filled_of (length buf.new) result) buf.new) }
{
    let mut count = 0;
    while count < buf.len() {
        match source.take(&mut buf[count..]) {
            Ok(0) => return Filled::Ended(count),
            Ok(n) => count += n,
            Err(_) => return Filled::Fault(count),
        }
    }
    Filled::Whole
}

/// Takes so many bytes from a source and drops them.
pub fn skip<S: Source>(source: &mut S, length: usize) -> Filled
    ensures { (bytes : List ℕ)
        × Fills (S.intake source.old) (S.intake source.new) length result bytes }
{
    let mut buf = [0u8; 4096];
    let mut count = 0;
    while count < length {
        let part = (length - count).min(4096);
        match fill(source, &mut buf[..part]) {
            Filled::Whole => count += part,
            Filled::Ended(n) => return Filled::Ended(count + n),
            Filled::Fault(n) => return Filled::Fault(count + n),
        }
    }
    Filled::Whole
}
