// What is warned of playbooks.
ghost use Rattle.std.specs.Prelude.{◌≤◌, IfOk, length, map};
ghost use Rattle.cacao_json.specs.Tree.{data_of};
ghost use Rattle.cacao_view_preflight.specs.Warnings.{AreWarnings};

use crate::agents::{warn_of_agents, warn_of_bindings};
use crate::commands::warn_of_commands;
use crate::inner_variables::warn_of_inner_variables;
use crate::members::warn_of_members;
use crate::name_set::NameSet;
use crate::steps::warn_of_steps;
use crate::variables::warn_of_variables;
use cacao_book::Book;
use cacao_book_shape::members_at;
use cacao_check_regions::survey_all;
use cacao_json::Tree;
use cacao_view_words::Lines;
use std::alloc::{AllocError, Global};

/// A line for each warning of these playbooks, whose trees these are, with these bindings: agents and targets that are not bound;
/// bindings of what no playbook defines; external variables without a value; commands that filters refuse whatever the values
/// are; members of steps that CACAO does not name; steps that no path reaches. At most 16 playbooks.
pub(crate) fn warnings(
    alloc: Global,
    books: &[Book],
    trees: &[Tree],
    bindings: &Tree,
) -> Result<Lines, AllocError>
    requires { length books.now ≤ 16 }
    ensures { IfOk result (AreWarnings books.now (map data_of trees.now) (data_of bindings.now)) }
{
    let surveys = survey_all(alloc, books)?;
    let agents = members_at(bindings, "agents");
    let variables = members_at(bindings, "variables");
    let bound = NameSet::of_members(alloc, agents)?;
    let given = NameSet::of_members(alloc, variables)?;
    let mut defined = NameSet::new(alloc);
    let mut lines = Lines::new(alloc);
    warn_of_agents(alloc, &bound, books, &mut defined, &mut lines)?;
    warn_of_bindings(alloc, &defined, agents, &mut lines)?;
    warn_of_variables(alloc, &given, books, &mut lines)?;
    warn_of_inner_variables(alloc, books, &mut lines)?;
    warn_of_commands(alloc, books, &mut lines)?;
    warn_of_members(alloc, trees, &mut lines)?;
    warn_of_steps(alloc, surveys.as_slice(), books, &mut lines)?;
    Ok(lines)
}
