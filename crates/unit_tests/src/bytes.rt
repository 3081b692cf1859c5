ghost use Rattle.std.specs.Prelude.{◌≡◌, length, IfOk};

use crate::same::{same, same_bytes};
use base_terms::{Buffer, Bytes, paste, zeros};
use std::alloc::{AllocError, Global};
use std::process::Abort;
use std::test::Fail;

#[test]
fn zeros_are_as_many_as_asked_for(rt: HostRuntime) {
    same_bytes(&rt, zeros(rt.alloc(), 0), b"");
    same_bytes(&rt, zeros(rt.alloc(), 3), b"\0\0\0");
}

/// "abcdef" with "xyz" in place of three of its bytes.
fn pasted(alloc: Global, from: usize) -> Result<Vec<u8>, AllocError> {
    let mut bytes = b"abcdef".to_vec(alloc)?;
    paste(&mut bytes, from.min(3), b"xyz");
    Ok(bytes)
}

#[test]
fn bytes_are_put_in_place(rt: HostRuntime) {
    same_bytes(&rt, pasted(rt.alloc(), 0), b"xyzdef");
    same_bytes(&rt, pasted(rt.alloc(), 2), b"abxyzf");
    same_bytes(&rt, pasted(rt.alloc(), 3), b"abcxyz");
}

/// Asserts that bytes made of a vector are its text.
fn are_those_of<R: Abort>(rt: &R, vec: Vec<u8>, text: &[u8], is_empty: bool) {
    let bytes = Bytes::new(vec);
    same(rt, (bytes.len(), bytes.is_empty()), (text.len(), is_empty));
    same(rt, bytes.as_slice(), text);
    same(rt, bytes.into_vec().as_slice(), text);
}

#[test]
fn bytes_are_those_of_the_vector(rt: HostRuntime) -> Result<(), Fail> {
    are_those_of(&rt, b"".to_vec(rt.alloc())?, b"", true);
    are_those_of(&rt, b"abc".to_vec(rt.alloc())?, b"abc", false);
    Ok(())
}

/// The lengths of a buffer, empty at first, that is to have so many bytes one after the other.
fn lengths(alloc: Global, wanted: [usize; 5]) -> Result<[usize; 5], AllocError> {
    let mut buffer = Buffer::empty(alloc);
    let mut lengths = [0; 5];
    for i in 0..5usize {
        buffer.grow(wanted[i])?;
        lengths[i] = buffer.len();
    }
    Ok(lengths)
}

/// "abc" and two more bytes.
fn grown(alloc: Global) -> Result<Buffer, AllocError>
    ensures { IfOk result (λ buffer. length buffer ≡ 5) }
{
    let mut buffer = Buffer::new(b"abc".to_vec(alloc)?);
    buffer.grow(5)?;
    Ok(buffer)
}

#[test]
fn a_buffer_keeps_its_longest_length(rt: HostRuntime) -> Result<(), Fail> {
    let found = lengths(rt.alloc(), [0, 3, 2, 5, 0]);
    same(&rt, found, Ok([0, 3, 3, 5, 5]));
    let mut buffer = grown(rt.alloc())?;
    same(&rt, buffer.front(4), b"abc\0".as_slice());
    buffer.as_mut_slice().fill(b'x');
    let text = buffer.into_text(2);
    same(&rt, text.as_slice(), b"xx".as_slice());
    // the text kept the whole buffer
    same(&rt, text.into_buffer().len(), 5);
    Ok(())
}
