// HMAC under one key, whose padded blocks are hashed once.

ghost use Rattle.std.specs.Prelude.{◌≡◌, ℕ, List, ◌++◌, length};
ghost use Rattle.pbkdf2_hmac.specs.Hashes.{block_len, digest_len};
ghost use Rattle.pbkdf2_hmac.specs.Hmac.{key_block, padded, padded_key, hmac_of};
ghost use Rattle.pbkdf2_hmac.specs.Keyed.{IsKeyed};

use crate::bytes::xor_into;
use crate::hasher::{Hasher, digest};

// The byte of the inner padding, and of the outer one (RFC 2104, section 2).
const INNER_PAD: u8 = 0x36;

const OUTER_PAD: u8 = 0x5C;

// The hash states after the inner and after the outer padded key.
#[derive(Drop)]
pub(crate) struct Keyed<H> {
    inner: H,
    outer: H,
}

// Writes the key, or its digest where it is longer than a block, and zeros up to a block.
fn put_key_block<H: Hasher>(key: &[u8], block: &mut [u8])
    requires { length block.old ≡ block_len H.hash }
    ensures { block.new ≡ key_block H.hash key.now }
{
    block.fill(0);
    if key.len() > block.len() {
        digest::<H>(key, &[], &mut block[..H::digest_len()]);
    } else {
        block[..key.len()].copy_from_slice(key);
    }
}

// The hash state after a key's block under exclusive or with `pad`.
fn padded<H: Hasher>(key: &[u8], pad: u8) -> H
    requires { length key.now ≡ block_len H.hash }
    ensures { H.holds result (padded key.now pad) }
{
    let mut block = [pad; 128];
    let block = &mut block[..H::block_len()];
    xor_into(block, key);
    let mut state = H::start();
    state.take(block);
    state
}

impl<H: Hasher> Keyed<H> {
    // The states for a key of any length.
    pub(crate) fn new(key: &[u8]) -> Keyed<H>
        ensures { IsKeyed H.hash H.holds result key.now }
    {
        let mut block = [0u8; 128];
        let block = &mut block[..H::block_len()];
        put_key_block::<H>(key, block);
        Keyed {
            inner: padded(block, INNER_PAD),
            outer: padded(block, OUTER_PAD),
        }
    }

    // The state of an inner hash, ready for the text.
    pub(crate) fn begin(&self) -> H
        ensures { (key : List ℕ) → IsKeyed H.hash H.holds self.now key
            → H.holds result (padded_key H.hash key 0x36) }
    {
        self.inner.copied()
    }

    // Writes the tag of the text that an inner hash has taken in.
    pub(crate) fn end(&self, inner: H, out: &mut [u8])
        requires { length out.old ≡ digest_len H.hash }
        ensures { (key text : List ℕ) → IsKeyed H.hash H.holds self.now key
            → H.holds inner (padded_key H.hash key 0x36 ++ text)
            → out.new ≡ hmac_of H.hash key text }
    {
        inner.finish(out);
        let mut outer = self.outer.copied();
        outer.take(out);
        outer.finish(out);
    }

    // Writes the tag of `text`.
    pub(crate) fn tag(&self, text: &[u8], out: &mut [u8])
        requires { length out.old ≡ digest_len H.hash }
        ensures { (key : List ℕ) → IsKeyed H.hash H.holds self.now key
            → out.new ≡ hmac_of H.hash key text.now }
    {
        let mut inner = self.begin();
        inner.take(text);
        self.end(inner, out);
    }

    // Replaces a text of a digest's length by its tag.
    pub(crate) fn advance(&self, text: &mut [u8])
        requires { length text.old ≡ digest_len H.hash }
        ensures { (key : List ℕ) → IsKeyed H.hash H.holds self.now key
            → text.new ≡ hmac_of H.hash key text.old }
    {
        let mut inner = self.begin();
        inner.take(text);
        self.end(inner, text);
    }
}
