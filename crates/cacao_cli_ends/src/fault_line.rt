// The line of a fault.
ghost use Rattle.std.specs.Prelude.{◌≡◌, ◌++◌, codes, IfOk, string_bytes};

use std::alloc::{AllocError, Global};

/// The line that tells a failed read of the file of this name. It is made before the read, so that a fault is never answered as want of
/// memory.
#[derive(Drop)]
pub struct FaultLine<'w> {
    pub name: &'w str,
    text: String,
    ghost tells: { string_bytes text ≡ codes "shelf failed: " ++ (name.now ++ codes "\n") },
}

impl<'w> FaultLine<'w> {
    pub fn new(alloc: Global, name: &'w str) -> Result<FaultLine<'w>, AllocError>
        ensures { IfOk result (λ line. line.name ≡ name.entry) }
    {
        let text = format!(in alloc; "shelf failed: {name}\n")?;
        Ok(FaultLine { name, text })
    }

    /// The line, with its line feed.
    pub fn as_bytes(&self) -> &[u8]
        ensures { result.now ≡ codes "shelf failed: " ++ (self.now.name.now ++ codes "\n") }
    {
        self.text.as_bytes()
    }
}
