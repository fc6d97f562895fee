// A part of a playbook or step: the path to it, and its place in the text.
ghost use Rattle.std.specs.Prelude.{◌≡◌, IfOk, string_bytes};
ghost use Rattle.cacao_view_explain.specs.Lines.{named_words};

use crate::lines::named_words;
use std::alloc::{AllocError, Global};

/// A value in a text: the pointer to it from the object at fault (RFC 6901), without its first slash, nothing for that object; and the
/// place at which it begins, counted in bytes.
pub(crate) struct Spot {
    pub(crate) part: Option<String>,
    pub(crate) at: usize,
}

// (by hand, and not by derive: so a drop is one call in the proofs of all who own one)
impl Drop for Spot {
    fn drop(self) {
        let Self { part: _, at: _ } = self;
    }
}

/// A name, and the place within a value at which it is to be found.
#[derive(Drop)]
pub(crate) struct Named {
    pub(crate) name: String,
    pub(crate) at: usize,
}

/// What is at fault, and where. The words begin with the name, if one is told.
pub(crate) struct Finding {
    pub(crate) spot: Spot,
    pub(crate) named: Option<Named>,
    pub(crate) what: String,
}

// (by hand too)
impl Drop for Finding {
    fn drop(self) {
        let Self {
            spot: _,
            named: _,
            what: _,
        } = self;
    }
}

impl Spot {
    /// The object at fault, which begins at this place.
    pub(crate) fn object(at: usize) -> Spot {
        Spot { part: None, at }
    }
}

impl Finding {
    /// What is said of a value.
    pub(crate) fn of(alloc: Global, spot: Spot, what: &str) -> Result<Finding, AllocError>
        ensures { IfOk result (λ finding. string_bytes finding.what ≡ what.now) }
    {
        let what = String::from_str(alloc, what)?;
        Ok(Finding {
            spot,
            named: None,
            what,
        })
    }

    /// What is said of a name that is to be found at a place within a value.
    pub(crate) fn of_name(
        alloc: Global,
        spot: Spot,
        at: usize,
        name: &str,
        says: &str,
    ) -> Result<Finding, AllocError>
        ensures { IfOk result (λ finding. string_bytes finding.what ≡ named_words name.now says.now) }
    {
        let what = named_words(alloc, name, says)?;
        let name = String::from_str(alloc, name)?;
        Ok(Finding {
            spot,
            named: Some(Named { name, at }),
            what,
        })
    }
}
