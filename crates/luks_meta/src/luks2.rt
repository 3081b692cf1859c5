// Copies of a keyslot that a passphrase opens.

ghost use Rattle.std.specs.Prelude.{◌≡◌, IfOk};
ghost use Rattle.luks_meta.specs.Keyslots.{priority_number};

use crate::keyslot::{Derivation, Kdf, Luks2, Pbkdf2, Priority, SlotArea, Splitter};
use json_members::copy_bytes;
use std::alloc::{AllocError, Global};

impl Priority {
    /// The priority's number.
    pub fn number(self) -> u64
        ensures { result ≡ priority_number self }
    {
        match self {
            Priority::Ignore => 0,
            Priority::Normal => 1,
            Priority::High => 2,
        }
    }
}

impl Luks2 {
    /// The same again.
    pub fn copy(&self, alloc: Global) -> Result<Luks2, AllocError>
        ensures { IfOk result (λ s. s ≡ self.now) }
    {
        Ok(Luks2 {
            key_size: self.key_size,
            area: self.area.copy(alloc)?,
            kdf: self.kdf.copy(alloc)?,
            af: self.af.copy(alloc)?,
            priority: self.priority,
            rest: self.rest.copy(alloc)?,
        })
    }
}

impl SlotArea {
    /// The same again.
    pub fn copy(&self, alloc: Global) -> Result<SlotArea, AllocError>
        ensures { IfOk result (λ a. a ≡ self.now) }
    {
        Ok(SlotArea {
            encryption: self.encryption.copy(alloc)?,
            key_size: self.key_size,
            offset: self.offset,
            size: self.size,
            rest: self.rest.copy(alloc)?,
        })
    }
}

impl Kdf {
    /// The same again.
    pub fn copy(&self, alloc: Global) -> Result<Kdf, AllocError>
        ensures { IfOk result (λ k. k ≡ self.now) }
    {
        let derivation = match &self.derivation {
            Derivation::Pbkdf2(pbkdf2) => Derivation::Pbkdf2(Pbkdf2 {
                hash: pbkdf2.hash.copy(alloc)?,
                iterations: pbkdf2.iterations,
                salt: copy_bytes(alloc, pbkdf2.salt.as_slice())?,
            }),
            Derivation::Unknown(kind) => Derivation::Unknown(kind.copy(alloc)?),
        };
        Ok(Kdf {
            derivation,
            rest: self.rest.copy(alloc)?,
        })
    }
}

impl Splitter {
    /// The same again.
    pub fn copy(&self, alloc: Global) -> Result<Splitter, AllocError>
        ensures { IfOk result (λ s. s ≡ self.now) }
    {
        Ok(Splitter {
            stripes: self.stripes,
            hash: self.hash.copy(alloc)?,
            rest: self.rest.copy(alloc)?,
        })
    }
}
