// Edits that are added to a plan.
ghost use Rattle.std.specs.Prelude.{◌≡◌, ◌<◌, ◌∷◌, [], OnOk, length};
ghost use Rattle.flow_core_rules.specs.Changes.{written, binding};
ghost use Rattle.flow_core_values.specs.Planned.{edit_of, IsDeclared};
ghost use Rattle.flow_core_plans.specs.Adding.{Adds};
ghost use Rattle.flow_core_values.specs.RunFacts.{IsWell};
ghost use Rattle.flow_core_values.specs.TableFacts.{lists_of};

use cacao_vars::{Name, Word};
use flow_core_values::{Planned, Run, Sight};
use std::alloc::AllocError;

/// Adds an edit.
#[tactic(auto, using(crate::proofs::AddingLemmas::adds_one))]
pub(crate) fn add(edits: &mut Vec<Planned>, edit: Planned) -> Result<(), AllocError>
    requires { IsDeclared edit }
    ensures { OnOk result (Adds edits.old.items edits.new.items (edit_of edit ∷ [])) }
{
    edits.push(edit)?;
    Ok(())
}

/// This list without what it has, over the same memory.
pub(crate) fn emptied(edits: Vec<Planned>) -> Vec<Planned>
    ensures { result.items ≡ [] }
{
    let mut edits = edits;
    edits.clear();
    edits
}

/// Adds that a text is bound to a name in this very scope; nothing where there is none.
#[tactic(auto, using(crate::proofs::AddingLemmas::adds_none))]
pub(crate) fn bind(
    edits: &mut Vec<Planned>,
    scope: u32,
    name: &Name,
    text: Option<Word>,
) -> Result<(), AllocError>
    ensures { OnOk result (Adds edits.old.items edits.new.items (binding scope (name.now, text))) }
{
    let Some(worth) = text else {
        return Ok(());
    };
    let name = name.clone()?;
    add(edits, Planned::Writes { scope, name, worth })
}

/// Adds that a text is written to the home of a name, seen from a scope; nothing where there is no text or no home.
#[tactic(auto, using(crate::proofs::AddingLemmas::adds_none))]
pub(crate) fn write(
    run: &Run,
    edits: &mut Vec<Planned>,
    scope: u32,
    name: &Name,
    text: Option<Word>,
) -> Result<(), AllocError>
    requires well { IsWell run.now }
    requires scope { scope < length run.now.tables.opened.scopes }
    ensures { OnOk result (Adds edits.old.items edits.new.items (written (lists_of run.now.tables) scope (name.now, text))) }
{
    let Some(worth) = text else {
        return Ok(());
    };
    let sight = Sight {
        opening: None,
        scope,
    };
    match run.home(sight, name) {
        Some(at) => bind(edits, at, name, Some(worth)),
        None => Ok(()),
    }
}
