// Warnings of agents that are not bound, and of bindings that bind none.
ghost use Rattle.std.specs.Prelude.{◌≡◌, ◌++◌, ◌&&◌, ◌||◌, [], not, List, IfOk, OnOk, map, string_bytes};
ghost use Rattle.std.specs.Str.{bytes_eq};
ghost use Rattle.cacao_json.specs.Tree.{pair_data};
ghost use Rattle.cacao_view_preflight.specs.NameSets.{HasJust, holds};
ghost use Rattle.cacao_view_preflight.specs.Warnings.{Text as AText, agent_line, all_agents, binding_line, each, names_of, of_agents, of_bindings, of_names, warn_if};

use crate::name_set::NameSet;
use cacao_book::Book;
use cacao_json::{Pair, Text};
use cacao_view_words::Lines;
use std::alloc::{AllocError, Global};

// ---- agents that are not bound

fn agent_line(alloc: Global, n: usize, name: &str) -> Result<String, AllocError>
    ensures { IfOk result (λ line. string_bytes line ≡ agent_line n name.now) }
{
    format!(in alloc;
        "warning: book {n} agent {name} is not bound: what goes to it goes to filter 1\n"
    )
}

/// Warns of an agent of the playbook with this number, if it is to be warned of.
fn add_if(
    alloc: Global,
    is_warned_of: bool,
    n: usize,
    name: &str,
    lines: &mut Lines,
) -> Result<(), AllocError>
    ensures { OnOk result (lines.new ≡ lines.old ++ warn_if is_warned_of (agent_line n name.now)) }
{
    if !is_warned_of {
        return Ok(());
    }
    let line = agent_line(alloc, n, name)?;
    lines.push_text(line)?;
    Ok(())
}

/// Warns of an agent of the playbook with this number, if it is neither bound nor among those that were met, and adds it to those.
fn add_agent(
    alloc: Global,
    bound: &NameSet,
    n: usize,
    name: &str,
    met: &mut NameSet,
    lines: &mut Lines,
) -> Result<(), AllocError>
    ensures lines { OnOk result (lines.new ≡ lines.old ++ warn_if (not (holds bound.now name.now) && not (holds met.old name.now)) (agent_line n name.now)) }
    ensures met { OnOk result ((other : AText) → holds met.new other ≡ (bytes_eq name.now other || holds met.old other)) }
{
    let is_warned_of = !bound.has(name) && !met.has(name);
    add_if(alloc, is_warned_of, n, name, lines)?;
    met.add(alloc, name)?;
    Ok(())
}

fn add_agents(
    alloc: Global,
    bound: &NameSet,
    n: usize,
    names: &[Text],
    met: &mut NameSet,
    lines: &mut Lines,
) -> Result<(), AllocError>
    ensures lines { OnOk result ((all before : List AText) → HasJust bound.now all → HasJust met.old before → lines.new ≡ lines.old ++ of_names all before n names.now) }
    ensures met { OnOk result ((before : List AText) → HasJust met.old before → HasJust met.new (before ++ names.now)) }
{
    for place in 0..names.len() {
        add_agent(alloc, bound, n, names[place].text(), met, lines)?;
    }
    Ok(())
}

fn add_book(
    alloc: Global,
    bound: &NameSet,
    n: usize,
    book: &Book,
    met: &mut NameSet,
    lines: &mut Lines,
) -> Result<(), AllocError>
    ensures lines { OnOk result ((all before : List AText) → HasJust bound.now all → HasJust met.old before → lines.new ≡ lines.old ++ of_names all before n book.now.agents) }
    ensures met { OnOk result ((before : List AText) → HasJust met.old before → HasJust met.new (before ++ book.now.agents)) }
{
    add_agents(alloc, bound, n, book.agents.as_slice(), met, lines)?;
    Ok(())
}

/// Warns of the agents and targets of playbooks that are not bound, of each name once. The names of all are those that were met.
pub(crate) fn warn_of_agents(
    alloc: Global,
    bound: &NameSet,
    books: &[Book],
    met: &mut NameSet,
    lines: &mut Lines,
) -> Result<(), AllocError>
    requires { HasJust met.old [] }
    ensures lines { OnOk result ((all : List AText) → HasJust bound.now all → lines.new ≡ lines.old ++ each (of_agents all books.now) 0 books.now) }
    ensures met { OnOk result (HasJust met.new (all_agents books.now)) }
{
    for n in 0..books.len() {
        add_book(alloc, bound, n, &books[n], met, lines)?;
    }
    Ok(())
}

// ---- bindings that bind none

fn binding_line(alloc: Global, name: &str) -> Result<String, AllocError>
    ensures { IfOk result (λ line. string_bytes line ≡ binding_line name.now) }
{
    format!(in alloc; "warning: binding of {name}: no playbook defines this agent\n")
}

/// Warns of a binding, if no playbook defines what it binds.
fn add_binding(
    alloc: Global,
    defined: &NameSet,
    name: &str,
    lines: &mut Lines,
) -> Result<(), AllocError>
    ensures { OnOk result (lines.new ≡ lines.old ++ warn_if (not (holds defined.now name.now)) (binding_line name.now)) }
{
    if defined.has(name) {
        return Ok(());
    }
    let line = binding_line(alloc, name)?;
    lines.push_text(line)?;
    Ok(())
}

/// Warns of the bindings of what no playbook defines, by the names of all that they define.
pub(crate) fn warn_of_bindings(
    alloc: Global,
    defined: &NameSet,
    bound: &[Pair],
    lines: &mut Lines,
) -> Result<(), AllocError>
    ensures { OnOk result ((all : List AText) → HasJust defined.now all → lines.new ≡ lines.old ++ of_bindings all (names_of (map pair_data bound.now))) }
{
    for pair in bound {
        add_binding(alloc, defined, pair.name.text(), lines)?;
    }
    Ok(())
}
