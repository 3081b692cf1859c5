// A volume with which a conversion begins (LUKS2 On-Disk Format Specification 1.1): laws alone,
// with nothing to run.
//
// First bytes are written into a gap of the keyslots area: by [`gaps_keep_contents`] each image
// that holds the header's metadata stands for what it stood for, whatever is in the gap, and
// whether the volume is being converted or not; so it is with what guards a conversion's zones, as
// long as no zone is open, and with all in front of the keyslots area. Then the header is written
// with the metadata with which the conversion begins: by [`started_volumes_stand`] an image that
// holds these and the new keyslot's bytes stands for the same under a passphrase that opens both
// the volume and the new keyslot, and no block is new yet. When images are the same but for a gap,
// atom by atom, says [`images_agree_but_for_a_run`].
//
// What an image stands for is `StandsFor` of `reenc_recovery`, of which there is one.

mod laws;

pub use laws::{gaps_keep_contents, images_agree_but_for_a_run, started_volumes_stand};
