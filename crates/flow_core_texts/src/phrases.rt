// Texts whose references were found once.
ghost use Rattle.std.specs.Prelude.{◌≡◌, ℕ, List, ◌++◌, IfOk, option_map};
ghost use Rattle.flow_core_rules.specs.Filled.{whole_reference};
ghost use Rattle.flow_core_texts.specs.Phrases.{replaced_by, spelled_by};

use cacao_json::Text;
use cacao_vars::{Name, find_reference, references_go_on, whole_reference};
use std::alloc::{AllocError, Global};
use std::marker::Model;

/// A reference, with what stands between it and the one before.
#[derive(Drop)]
pub struct Reference {
    pub before: Text,
    pub name: Name,
}

/// A text as its references, what stands between them, and the name where it is one whole reference. Contracts see it as the text.
#[derive(Drop)]
pub struct Phrase {
    references: Vec<Reference>,
    rest: Text,
    whole: Option<Name>,
}

impl Model for Phrase {
    ghost use Rattle.std.specs.Prelude.{List, ℕ};

    ghost Value = { List ℕ };

    ghost use Rattle.flow_core_texts.specs.Phrases.{phrase_text, AreReferences};

    ghost view = { λ p. phrase_text p.references.items p.rest };

    ghost invariant = { λ p. AreReferences p.references.items p.rest p.whole };
}

// The name, where the text is one whole reference.
fn whole_name(alloc: Global, text: &str) -> Result<Option<Name>, AllocError>
    ensures { IfOk result (λ name. name ≡ whole_reference text.now) }
{
    let Some(found) = whole_reference(text) else {
        return Ok(None);
    };
    let name = Name::new(alloc, found)?;
    Ok(Some(name))
}

impl Phrase {
    /// The text, with its references found.
    pub fn read(alloc: Global, text: &str) -> Result<Phrase, AllocError>
        ensures { IfOk result (λ phrase. phrase ≡ text.now) }
    {
        references_go_on();
        let mut references = Vec::new(alloc);
        let mut rest = text;
        while let Some(found) = find_reference(rest) {
            let before = Text::from_str(alloc, found.before)?;
            let name = Name::new(alloc, found.name)?;
            references.push(Reference { before, name })?;
            rest = found.rest;
        }
        let rest = Text::from_str(alloc, rest)?;
        let whole = whole_name(alloc, text)?;
        Ok(Phrase {
            references,
            rest,
            whole,
        })
    }

    /// The references, and what stands behind the last one. It takes no memory.
    pub fn parts(&self) -> (&[Reference], &str)
        ensures { (f : List ℕ → List ℕ) → replaced_by f self.now ≡ spelled_by f result.0.now ++ result.1.now }
    {
        (self.references.as_slice(), self.rest.text())
    }

    /// The name, where the text is one whole reference. It takes no memory.
    pub fn whole(&self) -> Option<&Name>
        ensures { option_map (λ name. name.now) result ≡ whole_reference self.now }
    {
        self.whole.as_ref()
    }
}
