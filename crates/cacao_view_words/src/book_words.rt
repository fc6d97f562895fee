// The names of playbooks among words of which some are options.
ghost use Rattle.std.specs.Prelude.{◌≡◌, ◌+◌, ◌<◌, ◌++◌, OnOk, length, map, string_bytes};

use std::alloc::{AllocError, Global};

/// The names of the files of playbooks, one at least, in the order of the words.
#[derive(Clone, Copy)]
pub struct BookWords<'w> {
    before: &'w [String],
    between: &'w [String],
    behind: &'w [String],
    ghost some: { 0 < length before.now + (length between.now + length behind.now) },
}

/// Adds the names that these words are.
fn add_names<'w>(names: &mut Vec<&'w str>, words: &'w [String]) -> Result<(), AllocError>
    ensures { OnOk result (map (λ name. name.now) names.new.items ≡ map (λ name. name.now) names.old.items ++ map string_bytes words.entry.now) }
{
    for word in words {
        names.push(word.as_str())?;
    }
    Ok(())
}

impl<'w> BookWords<'w> {
    ghost use Rattle.std.specs.Prelude.{◌≡◌, ◌+◌, ◌<◌, ◌++◌, IfOk, length, map, string_bytes};
    ghost use Rattle.cacao_view_words.specs.Asked.{book_names};

    pub(crate) fn new(
        before: &'w [String],
        between: &'w [String],
        behind: &'w [String],
    ) -> BookWords<'w>
        requires { 0 < length before.now + (length between.now + length behind.now) }
        ensures { book_names result ≡ map string_bytes before.entry.now ++ (map string_bytes between.entry.now ++ map string_bytes behind.entry.now) }
    {
        BookWords {
            before,
            between,
            behind,
        }
    }

    /// How many they are.
    pub fn len(self) -> usize
        ensures count { result ≡ length (book_names self.entry) }
        ensures some { 0 < result }
    {
        self.before.len() + (self.between.len() + self.behind.len())
    }

    /// The names, one a playbook.
    pub fn names(self, alloc: Global) -> Result<Vec<&'w str>, AllocError>
        ensures { IfOk result (λ names. map (λ name. name.now) names.items ≡ book_names self.entry) }
    {
        let mut names = Vec::new(alloc);
        add_names(&mut names, self.before)?;
        add_names(&mut names, self.between)?;
        add_names(&mut names, self.behind)?;
        Ok(names)
    }
}
