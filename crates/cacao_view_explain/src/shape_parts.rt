// The part of a member that breaks a rule of shape.
use crate::at_fault::{AtFault, Said};
use crate::part::Part;
use crate::wants::{Wants, items_of, members_of};
use cacao_json::Tree;
use std::alloc::{AllocError, Global};

const NO_STEP: &str = "a step is an object";

const NO_KEY: &str = "a text is wanted, the key of a step";

const NO_TARGET: &str = "a text is wanted, the name of a target";

/// What is said of a part, the value of a member or an item, that is not as it is wanted.
fn part_words(wants: Wants) -> &'static str {
    match wants {
        Wants::Steps => NO_STEP,
        Wants::NextSteps | Wants::Cases => NO_KEY,
        Wants::Targets => NO_TARGET,
        _ => wants.says(),
    }
}

/// What is at fault in the value of the member of this name: a part of it, or the whole if no part is told apart.
pub(crate) fn part_fault<'a>(
    alloc: Global,
    name: &'static str,
    value: &'a Tree,
    wants: Wants,
) -> Result<AtFault<'a>, AllocError> {
    for pair in members_of(value) {
        let key = pair.name.text();
        if !wants.fits_name(alloc, key)? {
            return Ok(name_fault(name, key, wants));
        }
        if !wants.fits_value(&pair.tree) {
            return Ok(AtFault {
                part: Part::below(name, key, None),
                said: Said::Plain(part_words(wants)),
            });
        }
    }
    item_fault(alloc, name, value, wants)
}

/// What is at fault in a list: the first item that is not as it is wanted, or the whole.
fn item_fault<'a>(
    alloc: Global,
    name: &'static str,
    value: &Tree,
    wants: Wants,
) -> Result<AtFault<'a>, AllocError> {
    for (number, item) in items_of(value).iter().enumerate() {
        if !wants.fits_item(alloc, item)? {
            return Ok(AtFault {
                part: Part::item(name, number, None),
                said: Said::Plain(part_words(wants)),
            });
        }
    }
    Ok(AtFault::of(name, wants.says()))
}

/// What is said of the name of a member, of this key, of the member of this name: that of a variable is told with its declaration.
fn name_fault<'a>(name: &'static str, key: &'a str, wants: Wants) -> AtFault<'a> {
    if matches!(wants, Wants::Variables) {
        return AtFault {
            part: Part::below(name, key, None),
            said: Said::Plain(wants.says()),
        };
    }
    AtFault {
        part: Part::of(name),
        said: Said::NoIdentifier(key),
    }
}
