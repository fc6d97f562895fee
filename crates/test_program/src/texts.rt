// Texts with a name.
use std::alloc::{AllocError, Global};

/// A text with a name.
#[derive(Drop)]
struct Named {
    name: String,
    bytes: Vec<u8>,
}

/// Texts with names, of which a later one hides an earlier one of its name.
#[derive(Drop)]
pub(crate) struct Texts {
    alloc: Global,
    named: Vec<Named>,
}

impl Texts {
    /// No text.
    pub(crate) fn new(alloc: Global) -> Texts {
        Texts {
            alloc,
            named: Vec::new(alloc),
        }
    }

    /// Names a text.
    pub(crate) fn add(&mut self, name: &str, bytes: Vec<u8>) -> Result<(), AllocError> {
        let name = String::from_str(self.alloc, name)?;
        self.named.push(Named { name, bytes })?;
        Ok(())
    }

    /// The text of this name.
    pub(crate) fn get(&self, name: &str) -> Option<&[u8]> {
        let mut found = None;
        for text in &self.named {
            if text.name.as_str() == name {
                found = Some(text.bytes.as_slice());
            }
        }
        found
    }
}
