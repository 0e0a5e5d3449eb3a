//! Links as they are kept: a number or none, in four bytes.
ghost use Rattle.std.specs.Prelude.{◌≡◌, ◌<◌, Some, None};

use std::marker::Model;

// The code of no link.
const NOWHERE: u32 = u32::MAX;

// Where a variable leads to, or that it leads nowhere, in four bytes.
//
// It is seen as a number or none. Its code is the number.
#[derive(Clone, Copy, Debug)]
pub(crate) struct Link {
    code: u32,
}

impl Model for Link {
    ghost use Rattle.std.specs.Prelude.{◌≡◌, ℕ, Option};
    ghost use Rattle.hz_free.specs.Links.{code_of, link_of_code};

    ghost Value = { Option ℕ };

    ghost view = { λ fields. link_of_code fields.code };

    ghost invariant = { λ fields. code_of (link_of_code fields.code) ≡ fields.code };

    ghost inverse = { λ link. record { code = code_of link } };

    ghost inverse_ok = { λ fields whole dim. record { code = whole dim } };
}

impl Link {
    // No link.
    pub(crate) fn none() -> Link
        ensures { result ≡ None }
    {
        Link { code: NOWHERE }
    }

    // A link to a number.
    pub(crate) fn to(number: u32) -> Link
        requires { number < 4294967295 }
        ensures { result ≡ Some number }
    {
        Link { code: number }
    }

    // The number to which it leads, if there is one.
    pub(crate) fn get(self) -> Option<u32>
        ensures { result ≡ self }
    {
        if self.code < NOWHERE {
            Some(self.code)
        } else {
            None
        }
    }
}
