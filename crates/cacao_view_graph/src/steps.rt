// The lines of steps.
ghost use Rattle.std.specs.Prelude.{◌≡◌, ◌≤◌, ◌∷◌, ◌++◌, [], OnOk, flat_map, length, map};
ghost use Rattle.cacao_book.specs.Books.{step_of};
ghost use Rattle.cacao_view_graph.specs.Drawings.{branches, edges, region_clusters, step_node, step_statements};
ghost use Rattle.cacao_view_graph.specs.Placing.{drawn_of};
ghost use Rattle.cacao_view_graph.specs.Statements.{line_of};

use crate::edges::add_edges;
use crate::labels::{label, shape, title};
use crate::lines::{Place, cluster_line, node_line};
use crate::placed::Placed;
use base_lines::add;
use cacao_book::{Book, StepKind};
use cacao_site::Bytes;
use std::alloc::{AllocError, Global};

/// Whether a step is a control step.
fn branches(kind: &StepKind) -> bool
    ensures { result ≡ branches kind.now }
{
    match kind {
        StepKind::Parallel { .. } => true,
        StepKind::If { .. } => true,
        StepKind::While { .. } => true,
        StepKind::Switch { .. } => true,
        _ => false,
    }
}

/// Adds the line of the cluster of a region, if the step is a control step.
fn add_region(
    alloc: Global,
    lines: &mut Vec<Bytes>,
    number: u32,
    placed: &Placed,
) -> Result<(), AllocError>
    ensures { OnOk result (lines.new.items ≡ lines.old.items ++ map line_of (region_clusters number (drawn_of placed.now).member)) }
{
    if !branches(&placed.step.kind) {
        return Ok(());
    }
    let key = placed.pair.name.text();
    let mut label = Vec::new(alloc);
    add(&mut label, b"region of ")?;
    add(&mut label, title(key, &placed.pair.tree).as_bytes())?;
    let line = cluster_line(alloc, number, Some(key), label.as_slice())?;
    lines.push(line)?;
    Ok(())
}

/// Adds the line of a step.
fn add_node(
    alloc: Global,
    lines: &mut Vec<Bytes>,
    place: &Place,
    placed: &Placed,
) -> Result<(), AllocError>
    requires { place.now.key.now ≡ (drawn_of placed.now).member.0 }
    ensures { OnOk result (lines.new.items ≡ lines.old.items ++ line_of (step_node place.now.number (drawn_of placed.now)) ∷ []) }
{
    let kind = &placed.step.kind;
    let mut words = label(alloc, title(place.key, &placed.pair.tree), kind)?;
    add(&mut words, placed.mark.text.as_slice())?;
    let line = node_line(
        alloc,
        place,
        placed.home,
        words.as_slice(),
        shape(kind),
        placed.mark.pale,
    )?;
    lines.push(line)?;
    Ok(())
}

/// Adds the lines of the links of a step.
fn add_links_of(
    alloc: Global,
    lines: &mut Vec<Bytes>,
    books: &[Book],
    place: &Place,
    placed: &Placed,
) -> Result<(), AllocError>
    requires few { length books.now ≤ 16 }
    requires key { place.now.key.now ≡ (drawn_of placed.now).member.0 }
    ensures { OnOk result (lines.new.items ≡ lines.old.items
        ++ map line_of (edges books.now (place.now.number, (drawn_of placed.now).member.0) (step_of (drawn_of placed.now).member))) }
{
    add_edges(alloc, lines, books, place, placed.step)?;
    Ok(())
}

/// Adds the lines of a step and of its links.
fn add_step(
    alloc: Global,
    lines: &mut Vec<Bytes>,
    books: &[Book],
    number: u32,
    placed: &Placed,
) -> Result<(), AllocError>
    requires { length books.now ≤ 16 }
    ensures { OnOk result (lines.new.items ≡ lines.old.items ++ map line_of (step_statements books.now number (drawn_of placed.now))) }
{
    let place = Place {
        number,
        key: placed.pair.name.text(),
    };
    add_region(alloc, lines, number, placed)?;
    add_node(alloc, lines, &place, placed)?;
    add_links_of(alloc, lines, books, &place, placed)?;
    Ok(())
}

/// Adds the lines of the steps of a playbook and of their links.
pub(crate) fn add_steps(
    alloc: Global,
    lines: &mut Vec<Bytes>,
    books: &[Book],
    number: u32,
    steps: &[Placed],
) -> Result<(), AllocError>
    requires { length books.now ≤ 16 }
    ensures { OnOk result (lines.new.items ≡ lines.old.items ++ map line_of (flat_map (step_statements books.now number) (map drawn_of steps.now))) }
{
    for placed in steps {
        add_step(alloc, lines, books, number, placed)?;
    }
    Ok(())
}
