// What is at fault, before it is looked for in the text.
use crate::lines::quoted;
use crate::part::Part;
use crate::spot::Finding;
use cacao_view_faults::scan::{member_at, name_at};
use std::alloc::{AllocError, Global};

/// What is said of a name that is to be an identifier.
const NO_IDENTIFIER: &str = "is no identifier: TYPE--UUID is wanted, in lower case";

/// What is said of a part.
#[derive(Clone, Copy)]
pub(crate) enum Said<'a> {
    /// These words.
    Plain(&'static str),
    /// That the object has no member of this name, and what was wanted there.
    Missing(&'static str, &'static str),
    /// That the playbook that is given has this stamp.
    Version(&'a str),
    /// That the name of this member of the part is no identifier.
    NoIdentifier(&'a str),
}

/// What is at fault.
#[derive(Clone, Copy)]
pub(crate) struct AtFault<'a> {
    pub(crate) part: Part<'a>,
    pub(crate) said: Said<'a>,
}

/// The place of the name of a member of the object at a place, with its quotation mark; where it is not found in the text, that of the object.
fn name_place(alloc: Global, bytes: &[u8], object: usize, name: &str) -> Result<usize, AllocError> {
    match member_at(alloc, bytes, object, name)? {
        Some(value) => Ok(name_at(bytes, object, value).unwrap_or(object)),
        None => Ok(object),
    }
}

impl<'a> AtFault<'a> {
    /// What is said of the object.
    pub(crate) fn whole(says: &'static str) -> AtFault<'a> {
        AtFault {
            part: Part::whole(),
            said: Said::Plain(says),
        }
    }

    /// What is said of a member of it.
    pub(crate) fn of(member: &'static str, says: &'static str) -> AtFault<'a> {
        AtFault {
            part: Part::of(member),
            said: Said::Plain(says),
        }
    }

    /// What is said of a member that is not there.
    pub(crate) fn missing(name: &'static str, says: &'static str) -> AtFault<'a> {
        AtFault {
            part: Part::whole(),
            said: Said::Missing(name, says),
        }
    }

    /// What is at fault, and where, in the text of the object that begins at a place.
    pub(crate) fn finding(
        self,
        alloc: Global,
        bytes: &[u8],
        object: usize,
    ) -> Result<Finding, AllocError> {
        let spot = self.part.spot(alloc, bytes, object)?;
        match self.said {
            Said::Plain(says) => Finding::of(alloc, spot, says),
            Said::Missing(name, says) => {
                let what = format!(in alloc; "there is no member {name}: {says}")?;
                Ok(Finding {
                    spot,
                    named: None,
                    what,
                })
            }
            Said::Version(modified) => {
                let what = format!(in alloc;
                    "the playbook that is given is of another version: its modified is {modified}"
                )?;
                Ok(Finding {
                    spot,
                    named: None,
                    what,
                })
            }
            Said::NoIdentifier(name) => {
                let at = name_place(alloc, bytes, spot.at, name)?;
                let name = quoted(alloc, name)?;
                Finding::of_name(alloc, spot, at, name.as_str(), NO_IDENTIFIER)
            }
        }
    }
}
