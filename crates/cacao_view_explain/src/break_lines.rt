// What is told of the first break of playbooks.
ghost use Rattle.std.specs.Prelude.{◌≡◌, ◌++◌, ◌∷◌, [], IfOk, OnOk, map, option_map, slice_get, string_bytes};
ghost use Rattle.std.specs.Option.{option_copied};
ghost use Rattle.cacao_json.specs.Tree.{data_of};
ghost use Rattle.cacao_cli_looks.specs.Command.{text_of};
ghost use Rattle.cacao_view_words.specs.Rules.{book_lines};
ghost use Rattle.cacao_view_faults.specs.Stands.{LeadsOn};
ghost use Rattle.cacao_view_explain.specs.Lines.{step_pointer};
ghost use Rattle.cacao_view_explain.specs.Tells.{TellsBroken, TellsFault};

use crate::finding::{finding_of, key_of};
use crate::lines::{pointer_line, step_lines, step_pointer};
use crate::part_line::part_line;
use crate::spot::Finding;
use cacao_check::Break;
use cacao_cli_looks::FileText;
use cacao_json::Tree;
use cacao_view_faults::path_of;
use cacao_view_words::{Lines, Rule};
use std::alloc::{AllocError, Global};

/// The pointer to what is at fault: to the step with this key, to a part of it, or to the playbook.
fn part_path(
    alloc: Global,
    text: &FileText<'_>,
    key: Option<&str>,
    finding: &Finding,
) -> Result<String, AllocError>
    ensures { IfOk result (λ path. LeadsOn (text_of text.now).bytes (step_pointer (option_map (λ text. text.now) key.entry)) (string_bytes path)) }
{
    let base = step_pointer(alloc, key)?;
    match &finding.spot.part {
        Some(part) => path_of(
            alloc,
            text.bytes.as_slice(),
            base.as_str(),
            Some(part.as_str()),
        ),
        None => path_of(alloc, text.bytes.as_slice(), base.as_str(), None),
    }
}

/// Adds these two lines.
fn add_two(first: Vec<u8>, second: Vec<u8>, lines: &mut Lines) -> Result<(), AllocError>
    ensures { OnOk result (lines.new ≡ (lines.old ++ first.items ∷ []) ++ second.items ∷ []) }
{
    lines.push(first)?;
    lines.push(second)?;
    Ok(())
}

/// What is at fault, and where, as it was found.
fn fault_lines(
    alloc: Global,
    text: &FileText<'_>,
    tree: &Tree,
    broken: &Break,
    finding: &Finding,
) -> Result<Lines, AllocError>
    ensures { IfOk result (TellsFault (text_of text.now) (data_of tree.now) broken.now.step (string_bytes finding.now.what)) }
{
    let key = key_of(broken);
    let path = part_path(alloc, text, key, finding)?;
    let path = path.as_str();
    let mut lines = step_lines(alloc, tree, key)?;
    let pointer = pointer_line(alloc, path)?;
    let part = part_line(alloc, text, path, finding)?;
    add_two(pointer, part, &mut lines)?;
    Ok(lines)
}

/// Adds these lines.
fn add_lines(alloc: Global, told: &[&str], lines: &mut Lines) -> Result<(), AllocError>
    ensures { OnOk result (lines.new ≡ lines.old ++ map (λ line. line.now) told.now) }
{
    for line in told {
        lines.push_text(String::from_str(alloc, line)?)?;
    }
    Ok(())
}

/// Adds what is said of the rule of this number.
fn add_rule(alloc: Global, rule: u8, lines: &mut Lines) -> Result<(), AllocError>
    ensures { OnOk result (lines.new ≡ lines.old ++ book_lines rule) }
{
    let rule = Rule::Book(rule);
    add_lines(alloc, rule.lines(), lines)?;
    Ok(())
}

/// The text of the playbook of this number.
fn text_at<'a, 'w>(texts: &'a [FileText<'w>], book: u32) -> Option<&'a FileText<'w>>
    ensures { option_copied result ≡ slice_get texts.now book }
{
    texts.get(book as usize)
}

/// Its tree.
fn tree_at(trees: &[Tree], book: u32) -> Option<&Tree>
    ensures { option_copied result ≡ slice_get trees.now book }
{
    trees.get(book as usize)
}

/// What is at fault in the playbook that breaks a rule, of those in these texts, and then the rule.
pub(crate) fn break_lines(
    alloc: Global,
    texts: &[FileText<'_>],
    trees: &[Tree],
    broken: &Break,
) -> Result<Lines, AllocError>
    ensures { IfOk result (TellsBroken (map text_of texts.now) (map data_of trees.now) broken.now) }
{
    let Some(text) = text_at(texts, broken.book) else {
        return Err(AllocError);
    };
    let Some(tree) = tree_at(trees, broken.book) else {
        return Err(AllocError);
    };
    let finding = finding_of(alloc, text.bytes.as_slice(), trees, tree, broken)?;
    let mut lines = fault_lines(alloc, text, tree, broken, &finding)?;
    add_rule(alloc, broken.rule, &mut lines)?;
    Ok(lines)
}
