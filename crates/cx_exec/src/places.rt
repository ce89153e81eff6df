//! What an instruction goes on by.

ghost use Rattle.std.specs.Prelude.{◌+◌, ◌≤◌, ◌^◌};

use crate::machine::Updated;

/// What an instruction goes on by: the address that it is at, from which eight bytes are inside storage, or, in its
/// stead, what the program-status word is updated to.
#[derive(Clone, Copy)]
pub struct Place {
    pub from: u32,
    pub given: Option<Updated>,
    pub ghost room: { from + 8 ≤ 2 ^ 24 },
}

impl Place {
    ghost use Rattle.std.specs.Prelude.{◌≡◌, ◌+◌, ◌≤◌, ◌^◌, None, Some};
    ghost use Rattle.cx_exec.specs.Parts.{updated_at};

    /// That of an instruction at an address.
    #[inline(always)]
    pub(crate) fn at(from: u32) -> Place
        requires { from + 8 ≤ 2 ^ 24 }
        ensures from { result.from ≡ from }
        ensures given { result.given ≡ None }
    {
        Place { from, given: None }
    }

    /// That of an instruction which goes on as given.
    #[inline(always)]
    pub(crate) fn after(updated: Updated) -> Place
        ensures { result.given ≡ Some updated }
    {
        Place {
            from: 0,
            given: Some(updated),
        }
    }

    /// What the program-status word is updated to after an instruction of `length` bytes.
    #[inline(always)]
    pub(crate) fn updated(self, length: u32) -> Updated
        requires { length ≤ 6 }
        ensures { result ≡ updated_at self length }
    {
        match self.given {
            Some(updated) => updated,
            None => Updated {
                length_code: (length / 2) as u8,
                address: self.from + length,
            },
        }
    }
}
