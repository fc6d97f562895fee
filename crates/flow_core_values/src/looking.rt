// Names as they are seen from a scope: where they are declared, and what they are worth.
ghost use Rattle.std.specs.Prelude.{◌≡◌, ◌<◌, Some, length, slice_get, option_and_then, option_map};
ghost use Rattle.std.specs.Option.{option_copied};
ghost use Rattle.cacao_vars.specs.Scopes.{home, home_declaration};
ghost use Rattle.cacao_cond.specs.Worths.{worth_of};
ghost use Rattle.flow_core_rules.specs.State.{value_shown, text_in};
ghost use Rattle.flow_core_rules.specs.Values.{worth_at};
ghost use Rattle.flow_core_rules.specs.Edits.{declared_texts};
ghost use Rattle.flow_core_values.specs.RunFacts.{IsWell, lists_in};
ghost use Rattle.flow_core_values.specs.Sights.{lists_seen, scope_seen};
ghost use Rattle.flow_core_tables.specs.TableFacts.{lists_of};

use crate::run::{Run, Sight};
use cacao_cond::{Atom, value_of};
use cacao_vars::{Name, Var, Vars, Word};

// The text that a name is declared with.
fn declared_text<'a>(vars: &'a Vars, name: &[u8]) -> Option<&'a Word>
    ensures { option_copied result ≡ text_in (declared_texts vars.now) name.now }
{
    match vars.find_bytes(name) {
        Some(var) => var.worth.as_ref(),
        None => None,
    }
}

impl Run {
    // The home of a name, and its declaration there, once a scope with these declarations is open inside this one.
    fn found_opened<'a>(&'a self, vars: &'a Vars, scope: u32, name: &[u8]) -> Option<(u32, &'a Var)>
        requires well { IsWell self.now }
        requires scope { scope < length self.now.tables.opened.scopes }
        ensures home { option_map (λ found. found.0) result ≡ home (lists_in (lists_of self.now.tables) (Some vars.now) scope).scopes (length self.now.tables.opened.scopes) name.now }
        ensures declaration { option_map (λ found. found.1.now) result ≡ home_declaration (lists_in (lists_of self.now.tables) (Some vars.now) scope).scopes (length self.now.tables.opened.scopes) name.now }
    {
        match vars.find_bytes(name) {
            Some(var) => Some((self.tables.opened.len() as u32, var)),
            None => self.tables.opened.find(scope, name),
        }
    }

    // The home of the name with these bytes as it is seen, and its declaration there.
    fn found<'a>(&'a self, sight: Sight<'a>, name: &[u8]) -> Option<(u32, &'a Var)>
        requires well { IsWell self.now }
        requires scope { sight.scope < length self.now.tables.opened.scopes }
        ensures home { option_map (λ found. found.0) result ≡ home (lists_seen self.now sight.entry).scopes (scope_seen self.now sight.entry) name.now }
        ensures declaration { option_map (λ found. found.1.now) result ≡ home_declaration (lists_seen self.now sight.entry).scopes (scope_seen self.now sight.entry) name.now }
    {
        match sight.opening {
            Some(vars) => self.found_opened(vars, sight.scope, name),
            None => self.tables.opened.find(sight.scope, name),
        }
    }

    /// The home of a name as it is seen: the first scope that declares it, along the parents. It takes no memory.
    pub fn home(&self, sight: Sight<'_>, name: &Name) -> Option<u32>
        requires well { IsWell self.now }
        requires scope { sight.scope < length self.now.tables.opened.scopes }
        ensures { result ≡ home (lists_seen self.now sight.entry).scopes (scope_seen self.now sight.entry) name.now }
    {
        match self.found(sight, name.text().as_bytes()) {
            Some(found) => Some(found.0),
            None => None,
        }
    }

    // The present text of a name in the scope with this number.
    fn text_in_scope(&self, at: u32, name: &Name) -> Option<&Word>
        ensures { option_copied result ≡ option_and_then (λ texts. text_in texts name.now) (slice_get self.now.tables.opened.texts at) }
    {
        match self.tables.opened.texts(at) {
            Some(texts) => texts.look(name),
            None => None,
        }
    }

    // The same once a scope with these declarations is open inside another one.
    fn text_opened<'a>(
        &'a self,
        vars: &'a Vars,
        scope: u32,
        at: u32,
        name: &Name,
    ) -> Option<&'a Word>
        ensures { option_copied result ≡ option_and_then (λ texts. text_in texts name.now) (slice_get (lists_in (lists_of self.now.tables) (Some vars.now) scope).texts at) }
    {
        if at as usize == self.tables.opened.len() {
            return declared_text(vars, name.text().as_bytes());
        }
        self.text_in_scope(at, name)
    }

    // The present text of a name in the scope with this number, as it is seen.
    fn text_at<'a>(&'a self, sight: Sight<'a>, at: u32, name: &Name) -> Option<&'a Word>
        ensures { option_copied result ≡ option_and_then (λ texts. text_in texts name.now) (slice_get (lists_seen self.now sight.entry).texts at) }
    {
        match sight.opening {
            Some(vars) => self.text_opened(vars, sight.scope, at, name),
            None => self.text_in_scope(at, name),
        }
    }

    /// The declaration of a name in its home; None where it has none. It takes no memory.
    pub(crate) fn declaration<'a>(&'a self, sight: Sight<'a>, name: &Name) -> Option<&'a Var>
        requires well { IsWell self.now }
        requires scope { sight.scope < length self.now.tables.opened.scopes }
        ensures { option_copied result ≡ home_declaration (lists_seen self.now sight.entry).scopes (scope_seen self.now sight.entry) name.now }
    {
        match self.found(sight, name.text().as_bytes()) {
            Some(found) => Some(found.1),
            None => None,
        }
    }

    /// The text of a name in its home; None where it is unset, and where it has no home. It takes no memory.
    pub fn value<'a>(&'a self, sight: Sight<'a>, name: &Name) -> Option<&'a Word>
        requires well { IsWell self.now }
        requires scope { sight.scope < length self.now.tables.opened.scopes }
        ensures { option_copied result ≡ value_shown (lists_seen self.now sight.entry) (scope_seen self.now sight.entry) name.now }
    {
        let at = self.home(sight, name)?;
        self.text_at(sight, at, name)
    }

    /// The text of a name with these bytes, likewise. It takes no memory.
    pub(crate) fn value_of_bytes<'a>(&'a self, sight: Sight<'a>, name: &[u8]) -> Option<&'a Word>
        requires well { IsWell self.now }
        requires scope { sight.scope < length self.now.tables.opened.scopes }
        ensures { option_copied result ≡ value_shown (lists_seen self.now sight.entry) (scope_seen self.now sight.entry) name.now }
    {
        match self.found(sight, name) {
            Some(found) => self.text_at(sight, found.0, &found.1.name),
            None => None,
        }
    }

    /// The value of a name by the kind that its home declares, as conditions compare it. It takes no memory.
    pub(crate) fn worth<'a>(&'a self, sight: Sight<'a>, name: &Name) -> Atom<'a>
        requires well { IsWell self.now }
        requires scope { sight.scope < length self.now.tables.opened.scopes }
        ensures { worth_of result ≡ worth_at (lists_seen self.now sight.entry) (scope_seen self.now sight.entry) name.now }
    {
        match self.found(sight, name.text().as_bytes()) {
            Some(found) => value_of(
                &found.1.kind,
                self.text_at(sight, found.0, name).map(|word| word.text()),
            ),
            None => Atom::Unset,
        }
    }
}
