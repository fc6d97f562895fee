// What the first break of playbooks is, and where.
ghost use Rattle.std.specs.Prelude.{◌≡◌, ◌≤◌, ◌⊎◌, Err, Ok, length, map};
ghost use Rattle.cacao_json.specs.Tree.{data_of};
ghost use Rattle.cacao_check.specs.declared.breaks.Mode.TheVariants.{Read};
ghost use Rattle.cacao_cli_ends.specs.Ends.{no_memory};
ghost use Rattle.cacao_cli_ends.specs.Told.{end_of};
ghost use Rattle.cacao_cli_ends.specs.Work.{trees_of};
ghost use Rattle.cacao_cli_looks.specs.Command.{IsJudgement, text_of};
ghost use Rattle.cacao_view_explain.specs.Explains.{Explains, ExplainsTrees};
ghost use Rattle.cacao_view_explain.specs.Tells.{Tells, TellsOf};

use crate::break_lines::break_lines;
use crate::unread::unread_lines;
use cacao_check::Mode;
use cacao_cli_ends::End;
use cacao_cli_looks::judge::judge;
use cacao_cli_looks::{FileText, trees_of};
use cacao_json::Tree;
use cacao_view_words::Report;
use std::alloc::Global;

/// What is told of playbooks that were judged so.
fn judged<'w>(alloc: Global, texts: &[FileText<'_>], trees: &[Tree], end: End<'w>) -> Report<'w>
    requires { IsJudgement (map data_of trees.now) Read (end_of end) }
    ensures end { ExplainsTrees (map data_of trees.now) result.lines (end_of result.end) }
    ensures told { TellsOf (Ok (map data_of trees.now)) (map text_of texts.now) result.lines (end_of result.end) }
{
    match end {
        End::Accepted => Report::ending(alloc, End::Accepted),
        End::Refused { broken } => match break_lines(alloc, texts, trees, &broken) {
            Ok(lines) => Report {
                lines,
                end: End::Refused { broken },
            },
            Err(_) => Report::ending(alloc, End::NoMemory),
        },
        _ => Report::ending(alloc, End::NoMemory),
    }
}

/// What is told of texts that did not all give a tree, by how the reading of them ended.
fn unread<'w>(alloc: Global, texts: &[FileText<'_>], end: End<'w>) -> Report<'w>
    requires { (trees_of (map text_of texts.now) ≡ Err (end_of end)) ⊎ (end_of end ≡ no_memory) }
    ensures end { Explains (map text_of texts.now) result.lines (end_of result.end) }
    ensures told { Tells (map text_of texts.now) result.lines (end_of result.end) }
{
    if end.status() == 10 {
        return Report::ending(alloc, End::NoMemory);
    }
    match unread_lines(alloc, texts) {
        Ok(lines) => Report { lines, end },
        Err(_) => Report::ending(alloc, End::NoMemory),
    }
}

/// What is told of 1 to 16 playbooks in these texts: of the first that has no tree where it is wrong, of the first break of a rule what is at fault and
/// where, and the rule. The end is that of `cacao check`.
pub fn explain<'w>(alloc: Global, texts: &[FileText<'w>]) -> Report<'w>
    requires some { 1 ≤ length texts.now }
    requires few { length texts.now ≤ 16 }
    ensures end { Explains (map text_of texts.entry.now) result.lines (end_of result.end) }
    ensures told { Tells (map text_of texts.entry.now) result.lines (end_of result.end) }
{
    match trees_of(alloc, texts) {
        Ok(trees) => {
            let roots = trees.as_slice();
            let end = judge(alloc, roots, Mode::Read);
            judged(alloc, texts, roots, end)
        }
        Err(end) => unread(alloc, texts, end),
    }
}
