// What the disk of a new volume stands for (LUKS2 On-Disk Format Specification 1.1): a law alone,
// with nothing to run.
//
// The layer above may rely on [`new_volumes_stand`]: where all calls succeed that write a new
// volume, the disk's bytes stand, under the passphrase, for just what the new key unseals from the
// bytes that were there before, block by block. Where its header has a disk of its own, the bytes
// are those of both, the header's in front. What an image stands for is `StandsFor` of
// `reenc_recovery`, of which there is one, so it is what a volume has that is opened of this disk;
// and that it may be opened so, since nothing is being converted by the new header.

mod laws;

pub use laws::new_volumes_stand;
