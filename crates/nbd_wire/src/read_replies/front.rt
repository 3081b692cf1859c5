ghost use Rattle.std.specs.Prelude.{◌≡◌, ◌≤◌, ◌++◌, ℕ, List, length, take};

use std::marker::Model;

/// The bytes of a chunk's text that come in front of its bytes of the export, 34 at most.
#[derive(Drop)]
pub struct Front {
    bytes: [u8; 34],
    end: usize,
    ghost fits: { end ≤ 34 },
}

impl Model for Front {
    ghost Value = { List ℕ };

    ghost view = { λ f. take f.end f.bytes };
}

impl Front {
    /// A chunk's head, and what comes right behind it.
    pub(crate) fn joined(head: &[u8; 20], behind: &[u8]) -> Front
        requires { length behind.now ≤ 14 }
        ensures { result ≡ head.now ++ behind.now }
    {
        let mut bytes = [0; 34];
        bytes[..20].copy_from_slice(head);
        bytes[20..20 + behind.len()].copy_from_slice(behind);
        Front {
            bytes,
            end: 20 + behind.len(),
        }
    }

    /// These bytes.
    pub fn as_slice(&self) -> &[u8]
        ensures { result.now ≡ self.now }
    {
        &self.bytes[..self.end]
    }
}
