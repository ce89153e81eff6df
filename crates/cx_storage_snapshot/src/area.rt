//! One area with a copy of its bytes.
ghost use Rattle.std.specs.Prelude.{◌≡◌, ◌↔◌, IsTrue};
ghost use Rattle.cx_base.specs.Hash.{hash_of};

use cx_base::{Same, hash_of_bytes};
use cx_storage::Area;
use std::marker::Model;

/// An area with a copy of its bytes, and their hash.
#[derive(Drop)]
pub struct AreaCopy {
    area: Area,
    bytes: Vec<u8>,
    hash: u64,
}

impl Model for AreaCopy {
    ghost use Rattle.std.specs.Prelude.{◌≡◌};
    ghost use Rattle.cx_base.specs.Hash.{hash_of};
    ghost use Rattle.cx_storage.specs.Storage.{Held};

    ghost Value = { Held };

    ghost view = { λ copy. record { area = copy.area; bytes = copy.bytes.items } };

    ghost invariant = { λ copy. copy.hash ≡ hash_of 0 copy.bytes.items };
}

impl AreaCopy {
    /// The area with these bytes. It takes no memory.
    pub(crate) fn new(area: Area, bytes: Vec<u8>) -> AreaCopy
        ensures { result ≡ record { area = area; bytes = bytes.items } }
    {
        let hash = hash_of_bytes(0, bytes.as_slice());
        AreaCopy { area, bytes, hash }
    }

    /// The area.
    pub(crate) fn area(&self) -> Area
        ensures { result ≡ self.now.area }
    {
        self.area
    }

    /// Its bytes.
    pub(crate) fn bytes(&self) -> &[u8]
        ensures { result.now ≡ self.now.bytes }
    {
        self.bytes.as_slice()
    }

    /// The hash of its bytes.
    pub(crate) fn hash(&self) -> u64
        ensures { result ≡ hash_of 0 self.now.bytes }
    {
        self.hash
    }
}

impl Same for AreaCopy {
    /// Whether two have the same area, owner and bytes.
    fn is_same(&self, other: &AreaCopy) -> bool {
        self.hash == other.hash
            && self.area == other.area
            && self.bytes.as_slice() == other.bytes.as_slice()
    }
}
