// A part of the object at fault, by the path to it.
use crate::spot::Spot;
use cacao_view_faults::scan::{item_at, member_at};
use std::alloc::{AllocError, Global};

/// A member of the object at fault, the playbook or one of its steps, or what stands below that member; the object where no member is named.
#[derive(Clone, Copy)]
pub(crate) struct Part<'a> {
    member: Option<&'static str>,
    /// The member of this name below that member.
    name: Option<&'a str>,
    /// The item of this number, counted from 0.
    number: Option<usize>,
    /// The member of this name of what these lead to.
    last: Option<&'static str>,
}

/// The name as it stands in a pointer: `~` is `~0`, and `/` is `~1`.
fn token(alloc: Global, name: &str) -> Result<String, AllocError> {
    let tildes = name.replace(alloc, "~", "~0")?;
    tildes.replace(alloc, "/", "~1")
}

/// The place of the member of this name of the object at a place; where it is not found in the text, that of the object.
pub(crate) fn member_place(
    alloc: Global,
    bytes: &[u8],
    object: usize,
    name: &str,
) -> Result<usize, AllocError> {
    let found = member_at(alloc, bytes, object, name)?;
    Ok(found.unwrap_or(object))
}

impl<'a> Part<'a> {
    /// The object at fault.
    pub(crate) fn whole() -> Part<'a> {
        Part {
            member: None,
            name: None,
            number: None,
            last: None,
        }
    }

    /// A member of it.
    pub(crate) fn of(member: &'static str) -> Part<'a> {
        Part {
            member: Some(member),
            name: None,
            number: None,
            last: None,
        }
    }

    /// A member of that member, and of what stands there another, if one is named.
    pub(crate) fn below(
        member: &'static str,
        name: &'a str,
        last: Option<&'static str>,
    ) -> Part<'a> {
        Part {
            member: Some(member),
            name: Some(name),
            number: None,
            last,
        }
    }

    /// An item of a member that is a list, and a member of the item, if one is named.
    pub(crate) fn item(
        member: &'static str,
        number: usize,
        last: Option<&'static str>,
    ) -> Part<'a> {
        Part {
            member: Some(member),
            name: None,
            number: Some(number),
            last,
        }
    }

    /// The place at which the part begins, in the object that begins at another; where it is not found in the text, that of what it stands in.
    pub(crate) fn place(
        self,
        alloc: Global,
        bytes: &[u8],
        object: usize,
    ) -> Result<usize, AllocError> {
        let Some(member) = self.member else {
            return Ok(object);
        };
        let mut at = member_place(alloc, bytes, object, member)?;
        if let Some(name) = self.name {
            at = member_place(alloc, bytes, at, name)?;
        }
        if let Some(number) = self.number {
            at = item_at(bytes, at, number).unwrap_or(at);
        }
        if let Some(last) = self.last {
            at = member_place(alloc, bytes, at, last)?;
        }
        Ok(at)
    }

    /// The tokens between a member and what is the last, with a slash before each.
    fn between(self, alloc: Global) -> Result<String, AllocError> {
        if let Some(name) = self.name {
            let token = token(alloc, name)?;
            let token = token.as_str();
            return format!(in alloc; "/{token}");
        }
        match self.number {
            Some(number) => format!(in alloc; "/{number}"),
            None => Ok(String::new(alloc)),
        }
    }

    /// The pointer to the part from the object, without its first slash; none for the object.
    fn pointer(self, alloc: Global) -> Result<Option<String>, AllocError> {
        let Some(member) = self.member else {
            return Ok(None);
        };
        let between = self.between(alloc)?;
        let between = between.as_str();
        let pointer = match self.last {
            Some(last) => format!(in alloc; "{member}{between}/{last}")?,
            None => format!(in alloc; "{member}{between}")?,
        };
        Ok(Some(pointer))
    }

    /// The same in the text, of the object that begins at a place.
    pub(crate) fn spot(
        self,
        alloc: Global,
        bytes: &[u8],
        object: usize,
    ) -> Result<Spot, AllocError> {
        let at = self.place(alloc, bytes, object)?;
        let part = self.pointer(alloc)?;
        Ok(Spot { part, at })
    }
}
