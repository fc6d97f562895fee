// The lines of links.
ghost use Rattle.std.specs.Prelude.{◌≡◌, ◌≤◌, ◌<◌, ◌∷◌, ◌++◌, [], OnOk, IfSome, length, map};
ghost use Rattle.cacao_check_steps.specs.Calls.{book_with};
ghost use Rattle.cacao_view_graph.specs.Drawings.{call_edge, call_edges, case_edge, edges, head_edges, link, links, next_edges};
ghost use Rattle.cacao_view_graph.specs.Places.{place_of};
ghost use Rattle.cacao_view_graph.specs.Statements.{line_of};

use crate::lines::{Place, edge_line};
use base_lines::add;
use cacao_book::{Book, Case, Step, StepKind};
use cacao_check_steps::call_of;
use cacao_json::Text;
use cacao_site::Bytes;
use std::alloc::{AllocError, Global};

/// Adds the line of a link to a step of the same playbook.
fn add_link(
    alloc: Global,
    lines: &mut Vec<Bytes>,
    from: &Place,
    name: &[u8],
    key: &str,
) -> Result<(), AllocError>
    ensures { OnOk result (lines.new.items ≡ lines.old.items ++ line_of (link (place_of from.now) name.now key.now) ∷ []) }
{
    let to = Place {
        number: from.number,
        key,
    };
    let line = edge_line(alloc, from, &to, name, None)?;
    lines.push(line)?;
    Ok(())
}

/// Adds the line of a link, if there is one.
pub(crate) fn add_links(
    alloc: Global,
    lines: &mut Vec<Bytes>,
    from: &Place,
    name: &[u8],
    key: &Option<Text>,
) -> Result<(), AllocError>
    ensures { OnOk result (lines.new.items ≡ lines.old.items ++ map line_of (links (place_of from.now) name.now key.now)) }
{
    match key {
        Some(key) => add_link(alloc, lines, from, name, key.text()),
        None => Ok(()),
    }
}

/// Adds the lines of the links by which a step goes on.
fn add_next(
    alloc: Global,
    lines: &mut Vec<Bytes>,
    from: &Place,
    step: &Step,
) -> Result<(), AllocError>
    ensures { OnOk result (lines.new.items ≡ lines.old.items ++ map line_of (next_edges (place_of from.now) step.now)) }
{
    add_links(alloc, lines, from, b"on_completion", &step.completion)?;
    add_links(alloc, lines, from, b"on_success", &step.success)?;
    add_links(alloc, lines, from, b"on_failure", &step.failure)?;
    Ok(())
}

/// Adds the lines of the links to these steps.
fn add_keys(
    alloc: Global,
    lines: &mut Vec<Bytes>,
    from: &Place,
    name: &[u8],
    keys: &[Text],
) -> Result<(), AllocError>
    ensures { OnOk result (lines.new.items ≡ lines.old.items ++ map line_of (map (link (place_of from.now) name.now) keys.now)) }
{
    for key in keys {
        add_link(alloc, lines, from, name, key.text())?;
    }
    Ok(())
}

/// Adds the line of a case of a switch.
fn add_case(
    alloc: Global,
    lines: &mut Vec<Bytes>,
    from: &Place,
    case: &Case,
) -> Result<(), AllocError>
    ensures { OnOk result (lines.new.items ≡ lines.old.items ++ line_of (case_edge (place_of from.now) case.now) ∷ []) }
{
    let mut name = Vec::new(alloc);
    add(&mut name, b"case ")?;
    add(&mut name, case.value.text().as_bytes())?;
    add_link(alloc, lines, from, name.as_slice(), case.step.text())
}

/// Adds the lines of the cases of a switch.
fn add_cases(
    alloc: Global,
    lines: &mut Vec<Bytes>,
    from: &Place,
    cases: &[Case],
) -> Result<(), AllocError>
    ensures { OnOk result (lines.new.items ≡ lines.old.items ++ map line_of (map (case_edge (place_of from.now)) cases.now)) }
{
    for case in cases {
        add_case(alloc, lines, from, case)?;
    }
    Ok(())
}

/// Adds the lines of the links to the branches of a step.
fn add_heads(
    alloc: Global,
    lines: &mut Vec<Bytes>,
    from: &Place,
    kind: &StepKind,
) -> Result<(), AllocError>
    ensures { OnOk result (lines.new.items ≡ lines.old.items ++ map line_of (head_edges (place_of from.now) kind.now)) }
{
    match kind {
        StepKind::Parallel { next } => add_keys(alloc, lines, from, b"next_steps", next.as_slice()),
        StepKind::If {
            on_true,
            on_false,
            ..
        } => {
            add_link(alloc, lines, from, b"on_true", on_true.text())?;
            add_links(alloc, lines, from, b"on_false", on_false)?;
            Ok(())
        }
        StepKind::While { on_true, .. } => {
            add_link(alloc, lines, from, b"on_true", on_true.text())
        }
        StepKind::Switch { cases, .. } => add_cases(alloc, lines, from, cases.as_slice()),
        _ => Ok(()),
    }
}

/// The number of the first playbook with this identifier.
fn book_with(books: &[Book], id: &str) -> Option<usize>
    ensures number { result ≡ book_with books.now id.now }
    ensures within { IfSome result (λ number. number < length books.now) }
{
    books.iter().position(|book| book.id.text() == id)
}

/// Adds the line of a call of the playbook with this number.
fn add_call_of(
    alloc: Global,
    lines: &mut Vec<Bytes>,
    books: &[Book],
    from: &Place,
    number: usize,
) -> Result<(), AllocError>
    requires few { length books.now ≤ 16 }
    requires number { number < length books.now }
    ensures { OnOk result (lines.new.items ≡ lines.old.items ++ line_of (call_edge books.now (place_of from.now) number) ∷ []) }
{
    let to = Place {
        number: number as u32,
        key: books[number].start.text(),
    };
    let line = edge_line(alloc, from, &to, b"playbook_id", Some(number as u32))?;
    lines.push(line)?;
    Ok(())
}

/// Adds the line of a call, if the step calls a given playbook.
fn add_call(
    alloc: Global,
    lines: &mut Vec<Bytes>,
    books: &[Book],
    from: &Place,
    step: &Step,
) -> Result<(), AllocError>
    requires { length books.now ≤ 16 }
    ensures { OnOk result (lines.new.items ≡ lines.old.items ++ map line_of (call_edges books.now (place_of from.now) step.now)) }
{
    let Some(id) = call_of(&step.kind) else {
        return Ok(());
    };
    match book_with(books, id.text()) {
        Some(number) => add_call_of(alloc, lines, books, from, number),
        None => Ok(()),
    }
}

/// Adds the lines of the links of a step.
pub(crate) fn add_edges(
    alloc: Global,
    lines: &mut Vec<Bytes>,
    books: &[Book],
    from: &Place,
    step: &Step,
) -> Result<(), AllocError>
    requires { length books.now ≤ 16 }
    ensures { OnOk result (lines.new.items ≡ lines.old.items ++ map line_of (edges books.now (place_of from.now) step.now)) }
{
    add_next(alloc, lines, from, step)?;
    add_heads(alloc, lines, from, &step.kind)?;
    add_call(alloc, lines, books, from, step)?;
    Ok(())
}
