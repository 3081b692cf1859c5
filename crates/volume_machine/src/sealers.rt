// Long pieces, sealed and opened in parts by threads.

ghost use Rattle.std.specs.Prelude.{◌≡◌, ◌+◌, ◌*◌, ◌/◌, ◌%◌, ◌<◌, ◌≤◌, ◌^◌, length};

use bulk_seal::{seal_many, unseal_many};
use cipher_laws::SectorCipher;
use std::sync::atomic::{AtomicU64, Ordering};
use std::thread::Threads;

/// The bytes from which on a piece is long, and pays two threads: 256 KiB.
const LONG: usize = 262_144;

/// The bytes from which on a piece pays four threads: 512 KiB.
const LONGER: usize = 524_288;

/// How many long pieces of a volume, those of 256 KiB and more, are being sealed or opened now, by
/// all threads that share it. The only one is cut in two parts, and in four from 512 KiB on; a
/// second one is cut in two; any more are not cut. Each part has a thread of its own where one can
/// be started. The bytes are the same for every number of parts. Of a volume whose ciphers change
/// nothing no piece is cut.
#[derive(Drop)]
pub struct Sealers {
    cuts: bool,
    at_work: AtomicU64,
}

impl Sealers {
    /// No piece is being sealed. Long ones are cut only where `cuts` is true.
    pub fn new(cuts: bool) -> Sealers {
        Sealers {
            cuts,
            at_work: AtomicU64::new(0),
        }
    }

    /// Encrypts atoms of `atom` bytes where they lie, the first of them under the IV number
    /// `first`.
    pub(crate) fn seal<R: Threads + Sync, C: SectorCipher + Sync>(
        &self,
        rt: &R,
        cipher: &C,
        first: u64,
        atom: usize,
        bytes: &mut [u8],
    )
        requires some { 0 < atom }
        requires sectors { atom % C.sector cipher.now ≡ 0 }
        requires whole { length bytes.old % atom ≡ 0 }
        requires in_range { first + length bytes.old / 512 < 2 ^ 64 }
        ensures { bytes.new ≡ C.sealed cipher.now first bytes.old }
    {
        if !self.cuts || bytes.len() < LONG {
            cipher.seal_atom(first, bytes);
            return;
        }
        let parts = self.begin(bytes.len());
        seal_many(rt, cipher, first, atom, bytes, parts);
        self.end();
    }

    /// Decrypts atoms where they lie, under the same conditions.
    pub(crate) fn unseal<R: Threads + Sync, C: SectorCipher + Sync>(
        &self,
        rt: &R,
        cipher: &C,
        first: u64,
        atom: usize,
        bytes: &mut [u8],
    )
        requires some { 0 < atom }
        requires sectors { atom % C.sector cipher.now ≡ 0 }
        requires whole { length bytes.old % atom ≡ 0 }
        requires in_range { first + length bytes.old / 512 < 2 ^ 64 }
        ensures { bytes.new ≡ C.opened cipher.now first bytes.old }
    {
        if !self.cuts || bytes.len() < LONG {
            cipher.unseal_atom(first, bytes);
            return;
        }
        let parts = self.begin(bytes.len());
        unseal_many(rt, cipher, first, atom, bytes, parts);
        self.end();
    }

    /// One more long piece, of so many bytes: in how many parts it is cut.
    fn begin(&self, len: usize) -> usize
        ensures { (0 < result) × (result ≤ 16) }
    {
        let others = self.at_work.fetch_add(1, Ordering::SeqCst);
        if others == 0 && len >= LONGER {
            4
        } else if others < 2 {
            2
        } else {
            1
        }
    }

    /// One long piece less.
    fn end(&self) {
        self.at_work.fetch_sub(1, Ordering::SeqCst);
    }
}
