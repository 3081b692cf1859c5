//! The theorem of recovery: a volume whose conversion is taken up again keeps its content, however
//! often its run stops, and stands for it under its passphrase; so does one that clients use
//! meanwhile. `resumed_volumes` speaks of conversions alone, `served_conversions` of conversions
//! beside clients.
#![tactic(auto)]

mod resumed_volumes;
mod served_conversions;

pub use resumed_volumes::{
    begun_conversions_start, conversions_go_on_under_their_passphrase, conversions_keep_content,
    conversions_may_be_resumed_any_number_of_times, openings_of_conversions_keep_content,
    resumed_conversions_keep_content, stopped_conversions_may_be_resumed,
};
pub use served_conversions::{
    clients_leave_work_alone, ends_beside_clients_stand_under_passphrases, found_keys_are_given,
    passphrases_give_keys, stops_beside_clients_stand_again,
    stops_beside_clients_stand_under_passphrases, taken_volumes_keep_content,
};
