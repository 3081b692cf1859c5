//! What an image of a disk stands for: for which content a volume's bytes are read under a
//! passphrase, after it was made, after a conversion was begun, while a zone is open, and after
//! each step of a conversion or of its recovery. `side_keys` says that headers which tell the same
//! of a side give the same keys.
#![tactic(auto)]

mod new_volumes;
mod open_zones;
mod side_keys;
mod started_volumes;
mod zone_images;

pub use new_volumes::new_volumes_stand;
pub use open_zones::{
    fronts_keep_images, images_stand_for_one_content, mendings_keep_images, openings_keep_images,
    openings_mend_images,
};
pub use side_keys::sides_give_their_keys;
pub use started_volumes::{gaps_keep_contents, images_agree_but_for_a_run, started_volumes_stand};
pub use zone_images::{leadings_keep_images, mendings_stand};
