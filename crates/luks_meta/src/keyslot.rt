// Keyslots that a passphrase opens, and those of other types.

ghost use Rattle.std.specs.Prelude.{◌≡◌, IfOk};
ghost use Rattle.luks_meta.specs.Keyslots.{slot_type};

use crate::reencrypt::Reencrypt;
use base_terms::Bytes;
use json_members::{Entry, Object, Text};
use std::alloc::{AllocError, Global};

/// Where the stripes of a key lie, and how they are encrypted: an area of the type `raw`.
pub struct SlotArea {
    /// The cipher's name.
    pub encryption: Text,
    /// In bytes.
    pub key_size: u64,
    /// In bytes.
    pub offset: u64,
    /// In bytes.
    pub size: u64,
    /// The members that have no name here, as they were read.
    pub rest: Object,
}

// By hand, so that a value that is dropped in place is one call to the prover.
impl Drop for SlotArea {
    fn drop(self) {
        let SlotArea {
            encryption,
            key_size: _,
            offset: _,
            size: _,
            rest,
        } = self;
        drop(encryption);
        drop(rest);
    }
}

/// How PBKDF2 (RFC 8018) derives a key.
#[derive(Drop)]
pub struct Pbkdf2 {
    /// The hash's name.
    pub hash: Text,
    /// From 1 to 268435456.
    pub iterations: u64,
    pub salt: Bytes,
}

/// By which function a passphrase becomes a key.
#[derive(Drop)]
pub enum Derivation {
    /// The type `pbkdf2`.
    Pbkdf2(Pbkdf2),
    /// Another type: its other members are among the rest.
    Unknown(Text),
}

/// How a passphrase becomes a key.
pub struct Kdf {
    pub derivation: Derivation,
    /// The members that have no name here, as they were read.
    pub rest: Object,
}

impl Drop for Kdf {
    fn drop(self) {
        let Kdf { derivation, rest } = self;
        drop(derivation);
        drop(rest);
    }
}

/// How a key is split: an anti-forensic splitter of the type `luks1`.
#[derive(Drop)]
pub struct Splitter {
    pub stripes: u64,
    /// The hash's name.
    pub hash: Text,
    /// The members that have no name here, as they were read.
    pub rest: Object,
}

/// In which order keyslots are tried.
#[derive(Clone, Copy, PartialEq, Eq)]
pub enum Priority {
    /// 0: only when it is asked for.
    Ignore,
    /// 1
    Normal,
    /// 2: before the others.
    High,
}

/// A keyslot that a passphrase opens: the type `luks2`.
pub struct Luks2 {
    /// How long the key is, in bytes.
    pub key_size: u64,
    pub area: SlotArea,
    pub kdf: Kdf,
    pub af: Splitter,
    pub priority: Option<Priority>,
    /// The members that have no name here, as they were read.
    pub rest: Object,
}

impl Drop for Luks2 {
    fn drop(self) {
        let Luks2 {
            key_size: _,
            area,
            kdf,
            af,
            priority: _,
            rest,
        } = self;
        drop(area);
        drop(kdf);
        drop(af);
        drop(rest);
    }
}

/// The area of a keyslot of another type.
#[derive(Drop)]
pub struct OtherArea {
    /// In bytes.
    pub offset: u64,
    /// In bytes.
    pub size: u64,
    /// The members that have no name here, as they were read.
    pub rest: Object,
}

/// A keyslot of another type, which is kept.
pub struct OtherSlot {
    /// The type.
    pub kind: Text,
    pub area: Option<OtherArea>,
    /// The members that have no name here, as they were read.
    pub rest: Object,
}

impl Drop for OtherSlot {
    fn drop(self) {
        let OtherSlot { kind, area, rest } = self;
        drop(kind);
        drop(area);
        drop(rest);
    }
}

/// A keyslot, by its type.
pub enum Keyslot {
    Luks2(Luks2),
    Reencrypt(Reencrypt),
    Unknown(OtherSlot),
}

impl Drop for Keyslot {
    fn drop(self) {
        match self {
            Keyslot::Luks2(slot) => drop(slot),
            Keyslot::Reencrypt(slot) => drop(slot),
            Keyslot::Unknown(slot) => drop(slot),
        }
    }
}

/// Whose header it is, by its mandatory requirements.
#[derive(Clone, Copy, PartialEq, Eq)]
pub enum Origin {
    /// None asks for anything but this program's conversion.
    Own,
    /// One asks for something else.
    Foreign,
}

/// By which table a keyslot is read.
#[derive(Clone, Copy, PartialEq, Eq)]
pub enum SlotType {
    Luks2,
    Reencrypt,
    Unknown,
}

impl SlotType {
    /// By which table a keyslot of a type is read. In a foreign header one of the type `reencrypt`
    /// is as any other.
    pub fn of_name(origin: Origin, kind: &str) -> SlotType
        ensures { result ≡ slot_type origin kind.now }
    {
        if kind == "luks2" {
            return SlotType::Luks2;
        }
        if kind == "reencrypt" {
            return match origin {
                Origin::Own => SlotType::Reencrypt,
                Origin::Foreign => SlotType::Unknown,
            };
        }
        SlotType::Unknown
    }
}

impl OtherSlot {
    /// The same again.
    pub fn copy(&self, alloc: Global) -> Result<OtherSlot, AllocError>
        ensures { IfOk result (λ s. s ≡ self.now) }
    {
        let area = match &self.area {
            Some(area) => Some(OtherArea {
                offset: area.offset,
                size: area.size,
                rest: area.rest.copy(alloc)?,
            }),
            None => None,
        };
        Ok(OtherSlot {
            kind: self.kind.copy(alloc)?,
            area,
            rest: self.rest.copy(alloc)?,
        })
    }
}

impl Entry for Keyslot {
    fn copy(&self, alloc: Global) -> Result<Keyslot, AllocError> {
        match self {
            Keyslot::Luks2(slot) => Ok(Keyslot::Luks2(slot.copy(alloc)?)),
            Keyslot::Reencrypt(slot) => Ok(Keyslot::Reencrypt(slot.copy(alloc)?)),
            Keyslot::Unknown(slot) => Ok(Keyslot::Unknown(slot.copy(alloc)?)),
        }
    }
}
