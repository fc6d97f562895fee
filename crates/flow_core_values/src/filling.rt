// Texts and commands, filled with the values of variables.
ghost use Rattle.std.specs.Prelude.{◌≡◌, ◌<◌, ◌++◌, IfOk, OnOk, length, option_and_then, string_bytes};
ghost use Rattle.cacao_json.specs.Tree.{data_of};
ghost use Rattle.cacao_text.specs.Canon.{canon};
ghost use Rattle.flow_core_rules.specs.Values.{text_at, number_of, has_numbers};
ghost use Rattle.flow_core_rules.specs.Filled.{replaced, whole_reference, filled_string, filled, filled_items, filled_members, addressed};
ghost use Rattle.flow_core_texts.specs.Contents.{content_data};
ghost use Rattle.flow_core_tables.specs.TableFacts.{lists_of};
ghost use Rattle.flow_core_values.specs.RunFacts.{IsWell};

use crate::addressing::addressed;
use crate::run::{Run, Sight};
use base_decimals::{MOST_EXACT, read_integer};
use cacao_json::{Items, Pairs, Text, Tree};
use cacao_site::Bytes;
use cacao_text::canonical;
use cacao_vars::{Kind, Name};
use flow_core_texts::{Content, Contents, Entries, Phrase};
use std::alloc::{AllocError, Global};

// Whether the values of this kind can be numbers of JSON.
fn has_numbers(kind: &Kind) -> bool
    ensures { result ≡ has_numbers kind.now }
{
    matches!(kind, Kind::Integer | Kind::Long)
}

impl Run {
    // Adds the text of a name; nothing where it has none.
    fn add_value(&self, made: &mut String, scope: u32, name: &Name) -> Result<(), AllocError>
        requires well { IsWell self.now }
        requires there { scope < length self.now.tables.opened.scopes }
        ensures { OnOk result (string_bytes made.new ≡ string_bytes made.old ++ text_at (lists_of self.now.tables) scope name.now) }
    {
        let sight = Sight {
            opening: None,
            scope,
        };
        let Some(text) = self.value(sight, name) else {
            return Ok(());
        };
        made.push_str(text.text())?;
        Ok(())
    }

    /// The text in which each reference is replaced by the text of its name.
    pub fn replaced(&self, alloc: Global, scope: u32, phrase: &Phrase) -> Result<String, AllocError>
        requires well { IsWell self.now }
        requires there { scope < length self.now.tables.opened.scopes }
        ensures { IfOk result (λ made. string_bytes made ≡ replaced (lists_of self.now.tables) scope phrase.now) }
    {
        let (references, rest) = phrase.parts();
        let mut made = String::new(alloc);
        for reference in references {
            made.push_str(reference.before.text())?;
            self.add_value(&mut made, scope, &reference.name)?;
        }
        made.push_str(rest)?;
        Ok(made)
    }

    // The whole number that a name has.
    fn number_of(&self, scope: u32, name: &Name) -> Option<i64>
        requires well { IsWell self.now }
        requires there { scope < length self.now.tables.opened.scopes }
        ensures { result ≡ number_of (lists_of self.now.tables) scope name.now }
    {
        let sight = Sight {
            opening: None,
            scope,
        };
        let var = self.declaration(sight, name)?;
        if !has_numbers(&var.kind) {
            return None;
        }
        let text = self.value(sight, name)?;
        let text = text.text().as_bytes();
        read_integer(text, MOST_EXACT, MOST_EXACT)
    }

    // The whole number that a text stands for that is one whole reference.
    pub(crate) fn whole_number(&self, scope: u32, phrase: &Phrase) -> Option<i64>
        requires well { IsWell self.now }
        requires there { scope < length self.now.tables.opened.scopes }
        ensures { result ≡ option_and_then (number_of (lists_of self.now.tables) scope) (whole_reference phrase.now) }
    {
        match phrase.whole() {
            Some(name) => self.number_of(scope, name),
            None => None,
        }
    }

    // A string value, filled.
    fn filled_text(&self, alloc: Global, scope: u32, phrase: &Phrase) -> Result<Tree, AllocError>
        requires well { IsWell self.now }
        requires there { scope < length self.now.tables.opened.scopes }
        ensures { IfOk result (λ tree. data_of tree ≡ filled_string (lists_of self.now.tables) scope phrase.now) }
    {
        match self.whole_number(scope, phrase) {
            Some(number) => Ok(Tree::Whole(number)),
            None => {
                let text = self.replaced(alloc, scope, phrase)?;
                Ok(Tree::Text(Text::from_string(text)))
            }
        }
    }

    // The tree of the content with each string value filled.
    #[cycle(filled)]
    fn filled(&self, alloc: Global, scope: u32, content: &Content) -> Result<Tree, AllocError>
        requires well { IsWell self.now }
        requires there { scope < length self.now.tables.opened.scopes }
        ensures { IfOk result (λ new. data_of new ≡ filled (lists_of self.now.tables) scope (content_data content.now)) }
    {
        match content {
            Content::Null => Ok(Tree::Null),
            Content::Flag(flag) => Ok(Tree::Flag(*flag)),
            Content::Whole(number) => Ok(Tree::Whole(*number)),
            Content::Text(phrase) => {
                let tree = self.filled_text(alloc, scope, phrase)?;
                Ok(tree)
            }
            Content::List(items) => {
                let items = self.filled_items(alloc, scope, items)?;
                Ok(Tree::List(items))
            }
            Content::Members(entries) => {
                let pairs = self.filled_pairs(alloc, scope, entries)?;
                Ok(Tree::Members(pairs))
            }
        }
    }

    #[cycle(filled)]
    fn filled_items(&self, alloc: Global, scope: u32, items: &Contents) -> Result<Items, AllocError>
        requires well { IsWell self.now }
        requires there { scope < length self.now.tables.opened.scopes }
        ensures { IfOk result (λ new. new ≡ filled_items (lists_of self.now.tables) scope items.now) }
    {
        let contents = items.as_slice();
        let mut made = Vec::with_capacity(alloc, contents.len())?;
        for content in contents {
            made.push(self.filled(alloc, scope, content)?)?;
        }
        Ok(Items::from_vec(made))
    }

    #[cycle(filled)]
    fn filled_pairs(
        &self,
        alloc: Global,
        scope: u32,
        entries: &Entries,
    ) -> Result<Pairs, AllocError>
        requires well { IsWell self.now }
        requires there { scope < length self.now.tables.opened.scopes }
        ensures { IfOk result (λ new. new ≡ filled_members (lists_of self.now.tables) scope entries.now) }
    {
        let members = entries.as_slice();
        let mut made = Pairs::new(alloc);
        for entry in members {
            let name = entry.name.clone()?;
            let tree = self.filled(alloc, scope, &entry.content)?;
            made.put(name, tree)?;
        }
        Ok(made)
    }

    /// The bytes of the command with this content, for the next issue.
    pub fn fill(&self, alloc: Global, content: &Content, scope: u32) -> Result<Bytes, AllocError>
        requires well { IsWell self.now }
        requires there { scope < length self.now.tables.opened.scopes }
        ensures { IfOk result (λ bytes. bytes ≡ canon (addressed self.now.number (length self.now.tables.issues.items)
            (filled (lists_of self.now.tables) scope (content_data content.now)))) }
    {
        let issue = self.tables.issues.len() as u32;
        let tree = self.filled(alloc, scope, content)?;
        let tree = addressed(alloc, self.number, issue, tree)?;
        let text = canonical(alloc, &tree)?;
        Ok(Bytes::from_vec(text.into_vec()))
    }
}
