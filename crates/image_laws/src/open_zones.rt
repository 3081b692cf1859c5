// What an image of a volume's disks stands for where its header has a zone of a conversion open,
// and what the opening of such a header leaves (LUKS2 On-Disk Format Specification 1.1): laws
// alone, with nothing to run.
//
// The layer above may rely on one relation, `ImageStandsFor`: an image of the disks stands for a
// content under a passphrase, block by block. Without an open zone it is `StandsFor` of
// `reenc_recovery`, to which it adds the case with one: a block of the zone is then held as what
// was saved of it tells, by journal as the saved atom, whatever stands in its place; by checksum as
// its own atom, which is the old one exactly where the saved digest is that atom's. An image stands
// for one content at most, [`images_stand_for_one_content`]; what is written in front of the
// keyslots' areas leaves it, [`fronts_keep_images`]. So it is with each image that a stop leaves
// of the sync, the reads and the repair of an opening, [`openings_keep_images`]; and behind them
// the header is certain, whatever it says of a conversion, [`openings_mend_images`]. An image that a
// stop leaves while the open zone is written again, by journal or by checksum, stands for the same
// by the header that it has itself, [`mendings_keep_images`].

mod laws;

pub use laws::{
    fronts_keep_images, images_stand_for_one_content, mendings_keep_images, openings_keep_images,
    openings_mend_images,
};
