// What is promised of a volume that clients use in the middle of its conversion (LUKS2 On-Disk Format
// Specification 1.1, sections 3.3 and 3.4), while nothing more is converted and while it goes on beside
// them: laws alone, with nothing to run. A proof above cites a law by its call.
//
// While nothing more is converted, the layer above may rely on [`taken_volumes_keep_content`]. Runs of
// clients' events start from a volume whose conversion was taken up as from the plain disk that holds the
// content for which the disk stood when it was handed in; while the volume was opened each image of each
// table stood for that content, and wherever such a run stops, each image stands by itself for a content
// that is allowed there. Blocks of both sides are read and written where they are, and the header stays as
// it is, so a conversion that is taken up later goes on from the same place. [`passphrases_give_keys`]:
// what is said under the keys of the sides is said of the content for which the disk stands under the
// passphrase; [`found_keys_are_given`]: also where no volume was opened under keys that were found.
//
// While the conversion goes on, wherever clients' operations and steps of its worker stop, each image
// stands, by the header that it has itself, for a content that the operations allow: so the next opening
// begins with it, and what clients were told to be kept is kept: under the keys of its sides
// ([`stops_beside_clients_stand_again`]), and under the passphrase, any number of times
// ([`stops_beside_clients_stand_under_passphrases`]). Once the worker came to the end, nothing failed and no
// operation is under way, the bytes that the disk tells stand, under the same passphrase, for the newest
// values that clients gave, by a header that converts nothing ([`ends_beside_clients_stand_under_passphrases`]): so the volume is opened as any other
// one. `recovery_laws` says this of a worker alone, and `volume_laws` what each block holds at the
// end under the keys of the volume.

mod beside;
mod laws;

pub use beside::{
    ends_beside_clients_stand_under_passphrases, stops_beside_clients_stand_again,
    stops_beside_clients_stand_under_passphrases,
};
pub use laws::{
    clients_leave_work_alone, found_keys_are_given, passphrases_give_keys,
    taken_volumes_keep_content,
};
