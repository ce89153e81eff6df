//! Resources by their names, and who holds them.
ghost use Rattle.std.specs.Prelude.{◌≡◌, ◌-◌, ◌≤◌, ◌++◌, length, replicate, IfOk, IfSome, None, Some, if◌then◌else◌};
ghost use Rattle.std.specs.Result.{result_err};
ghost use Rattle.cx_service.specs.ResourceNames.{is_name_length};

use crate::faults::ServiceFault;
use std::marker::Model;

/// The most bytes of a resource's name.
const MOST_NAME: usize = 255;

/// The bytes that name a resource: 1 to 255 of them.
#[derive(Clone, Copy, PartialEq, Eq, Hash)]
pub struct NameBytes {
    bytes: [u8; MOST_NAME],
    len: usize,
}

impl Model for NameBytes {
    ghost use Rattle.std.specs.Prelude.{List, ℕ, ◌-◌, ◌++◌, length, take, replicate};

    ghost Value = { List ℕ };

    ghost use Rattle.cx_service.specs.Facts.NameBytes.{padded_back};
    ghost use Rattle.cx_service.specs.Parts.NameBytes.{IsPadded};

    ghost view = { λ name. take name.len name.bytes };

    ghost invariant = { λ name. IsPadded name.bytes name.len };

    ghost inverse = { λ bytes. record { bytes = bytes ++ replicate (255 - length bytes) 0; len = length bytes } };

    ghost inverse_ok = { λ name padded. padded_back name padded };
}

impl NameBytes {
    /// The name that these bytes are.
    fn new(bytes: &[u8]) -> NameBytes
        requires nonempty { 1 ≤ length bytes.now }
        requires at_most_longest { length bytes.now ≤ MOST_NAME }
        ensures { result ≡ bytes.now }
    {
        NameBytes {
            bytes: padded(bytes),
            len: bytes.len(),
        }
    }

    /// The name's bytes, 1 to 255 of them.
    pub fn as_slice(&self) -> &[u8]
        ensures { result.now ≡ self.now }
    {
        &self.bytes[..self.len]
    }
}

/// The name of a resource: bytes, or an address. The two are never the same.
#[derive(Clone, Copy, PartialEq, Eq, Hash)]
pub enum ResourceName {
    /// The resource that these bytes name.
    Bytes(NameBytes),
    /// The resource that is named by this address, whatever is there.
    Address(u32),
}

impl ResourceName {
    /// The name that these bytes are. Lengerr comes where there are none or more than 255 (ENQ and DEQ).
    pub fn from_bytes(bytes: &[u8]) -> Result<ResourceName, ServiceFault>
        ensures named { IfOk result (λ name. name ≡ ResourceName.Bytes bytes.now) }
        ensures conditions { result_err result
            ≡ (if is_name_length (length bytes.now) then None else Some ServiceFault.Lengerr) }
    {
        if bytes.is_empty() || bytes.len() > MOST_NAME {
            return Err(ServiceFault::Lengerr);
        }
        Ok(ResourceName::Bytes(NameBytes::new(bytes)))
    }
}

/// Who holds a resource, and how often it enqueued upon it.
#[derive(Clone, Copy, PartialEq, Eq)]
pub struct Hold {
    /// The owner: the position of its terminal, counted from 1.
    pub owner: u8,
    /// How often the owner enqueued upon it and didn't dequeue from it, 1 to 65,535: after as many DEQs it is free.
    pub count: u16,
}

/// Bytes with zeros after them.
fn padded(bytes: &[u8]) -> [u8; MOST_NAME]
    requires { length bytes.now ≤ MOST_NAME }
    ensures { result ≡ bytes.now ++ replicate (255 - length bytes.now) 0 }
{
    let mut all = [0; MOST_NAME];
    for (i, byte) in bytes.iter().enumerate() {
        all[i] = *byte;
    }
    all
}
