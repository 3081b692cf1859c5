use luks_store::{CopyState, Loaded};

/// What is said of a copy of a header that isn't as the other one; nothing where both are.
pub fn copy_notice(loaded: &Loaded) -> Option<&'static str> {
    match (loaded.primary().state, loaded.secondary().state) {
        (CopyState::Lacking, _) => Some("the primary copy of the header is damaged or isn't there"),
        (CopyState::Older, _) => Some("the primary copy of the header is older than the secondary"),
        (_, CopyState::Lacking) => {
            Some("the secondary copy of the header is damaged or isn't there")
        }
        (_, CopyState::Older) => Some("the secondary copy of the header is older than the primary"),
        (CopyState::Good, CopyState::Good) => None,
    }
}
