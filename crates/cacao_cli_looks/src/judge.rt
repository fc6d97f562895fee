// The judgement of playbooks by the rules.
ghost use Rattle.std.specs.Prelude.{◌≡◌, ◌≤◌, length, map};
ghost use Rattle.cacao_json.specs.Tree.{data_of};
ghost use Rattle.cacao_cli_looks.specs.Command.{IsJudgedOrMemory, refusal_end};
ghost use Rattle.cacao_cli_ends.specs.Told.{end_of};

use cacao_check::{CheckError, Mode, read_books};
use cacao_cli_ends::End;
use cacao_json::Tree;
use std::alloc::Global;
use std::mem::forget;

/// Whether the playbooks with these trees are accepted, or the first break of a rule: first the rules of shape (K1 to K12), playbook by
/// playbook, then those of sense (K13 to K25).
pub fn judge<'w>(alloc: Global, trees: &[Tree], mode: Mode) -> End<'w>
    requires some { 1 ≤ length trees.now }
    requires few { length trees.now ≤ 16 }
    ensures { IsJudgedOrMemory (map data_of trees.now) mode result }
{
    match read_books(alloc, trees, mode) {
        Ok(checked) => {
            // What was found out of the playbooks serves nobody behind the verdict: its memory goes back with the process.
            forget(checked);
            End::Accepted
        }
        Err(error) => refusal_end(error),
    }
}

/// How a call ends where playbooks are refused.
fn refusal_end<'w>(error: CheckError) -> End<'w>
    ensures { end_of result ≡ refusal_end error }
{
    match error {
        CheckError::Broken(broken) => End::Refused { broken },
        CheckError::Memory => End::NoMemory,
    }
}
