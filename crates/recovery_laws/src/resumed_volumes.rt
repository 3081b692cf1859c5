// What a volume stands for whose conversion is taken up again (LUKS2 On-Disk Format Specification
// 1.1, sections 3.3 and 3.4): laws alone, with nothing to run.
//
// The layer above may rely on these. [`openings_of_conversions_keep_content`]: while a volume is
// opened that is being converted, each image of each table that its disks tell since the first sync
// stands for what their bytes stood for when the opening began, as long as no torn copy of a header is
// valid; and behind an opening that was done the disk holds for certain, in both copies, the header by
// which the volume is armed, and stands for the same by it. [`begun_conversions_start`]: runs start
// from such a volume, so that the laws of `volume_laws` speak of them. [`conversions_keep_content`]:
// where the worker alone leads the conversion, each image at each stop stands for the content, and
// once it ended with `Finished` each block is on the new side and holds its value. And
// [`resumed_conversions_keep_content`], all of it in one: what the disks stood for before the volume
// was opened is what it holds at the end, under the keys that were handed in for its sides. Last,
// [`stopped_conversions_may_be_resumed`]: what a stop of the worker leaves stands for that content by the
// metadata of its own header, so that the next opening begins with it as the one before did; and so
// [`conversions_may_be_resumed_any_number_of_times`].
//
// They go by the keys of the sides; of the end they say what the volume's header says as the volume's
// machine reads it. [`conversions_go_on_under_their_passphrase`] says the same of a passphrase: what its
// bytes stood for under it they stand for under it wherever the opening or the worker stops, any number of
// times, and at the end.

mod laws;
mod passphrases;

pub use laws::{
    begun_conversions_start, conversions_keep_content,
    conversions_may_be_resumed_any_number_of_times, openings_of_conversions_keep_content,
    resumed_conversions_keep_content, stopped_conversions_may_be_resumed,
};
pub use passphrases::conversions_go_on_under_their_passphrase;
