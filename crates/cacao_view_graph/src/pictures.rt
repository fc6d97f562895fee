// The picture of playbooks.
ghost use Rattle.std.specs.Prelude.{◌≡◌, ◌≤◌, ◌∷◌, ◌++◌, [], IfOk, None, OnOk, length, map};
ghost use Rattle.cacao_book.specs.Books.{book as book_of};
ghost use Rattle.cacao_check.specs.FirstBreak.{AreWellShaped};
ghost use Rattle.cacao_json.specs.Tree.{data_of};
ghost use Rattle.cacao_view_graph.specs.Drawings.{book_statements, books_statements, exception_edges, head_statements};
ghost use Rattle.cacao_view_graph.specs.Labels.{title};
ghost use Rattle.cacao_view_graph.specs.Pictures.{AreDrawn, AreMarked, IsMarkedPicture, IsPicture, picture_of};
ghost use Rattle.cacao_view_graph.specs.Placing.{drawn_book};
ghost use Rattle.cacao_view_graph.specs.Statements.{cluster, line_of};

use crate::edges::add_links;
use crate::labels::title;
use crate::lines::{Place, cluster_line, frame_line};
use crate::marks::Marks;
use crate::placed_book::PlacedBook;
use crate::placing::placed_books;
use crate::steps::add_steps;
use cacao_book::Book;
use cacao_check::{Books, CheckError, shaped_books};
use cacao_check_regions::survey_all;
use cacao_json::Tree;
use cacao_site::Bytes;
use std::alloc::{AllocError, Global};

/// The playbooks of trees that break no rule of shape.
fn books_of(alloc: Global, trees: &[Tree]) -> Result<Books, AllocError>
    requires few { length trees.now ≤ 16 }
    requires shaped { AreWellShaped (map data_of trees.now) }
    ensures { IfOk result (λ books. books ≡ map book_of (map data_of trees.now)) }
{
    match shaped_books(alloc, trees) {
        Ok(books) => Ok(books),
        Err(CheckError::Broken(_)) => unreachable!(),
        Err(CheckError::Memory) => Err(AllocError),
    }
}

/// The lines that stand before all others.
fn head_lines(alloc: Global) -> Result<Vec<Bytes>, AllocError>
    ensures { IfOk result (λ lines. lines.items ≡ map line_of head_statements) }
{
    let mut lines = Vec::new(alloc);
    lines.push(frame_line(alloc, b"digraph {")?)?;
    lines.push(frame_line(alloc, b"compound=true")?)?;
    Ok(lines)
}

/// Adds the line of the cluster of a playbook.
fn add_cluster(
    alloc: Global,
    lines: &mut Vec<Bytes>,
    number: u32,
    placed: &PlacedBook,
) -> Result<(), AllocError>
    ensures { OnOk result (lines.new.items ≡ lines.old.items
        ++ line_of (cluster number None (title ((book_of (drawn_book placed.now).tree).id, (drawn_book placed.now).tree))) ∷ []) }
{
    let label = title(placed.book.id.text(), placed.tree);
    let line = cluster_line(alloc, number, None, label.as_bytes())?;
    lines.push(line)?;
    Ok(())
}

/// Adds the line of the link to the step that follows a failure of the whole run, if there is one.
fn add_exception(
    alloc: Global,
    lines: &mut Vec<Bytes>,
    number: u32,
    placed: &PlacedBook,
) -> Result<(), AllocError>
    ensures { OnOk result (lines.new.items ≡ lines.old.items ++ map line_of (exception_edges number (book_of (drawn_book placed.now).tree))) }
{
    let start = Place {
        number,
        key: placed.book.start.text(),
    };
    add_links(
        alloc,
        lines,
        &start,
        b"workflow_exception",
        &placed.book.exception,
    )?;
    Ok(())
}

/// Adds the lines of a playbook.
fn add_book(
    alloc: Global,
    lines: &mut Vec<Bytes>,
    books: &[Book],
    number: u32,
    placed: &PlacedBook,
) -> Result<(), AllocError>
    requires { length books.now ≤ 16 }
    ensures { OnOk result (lines.new.items ≡ lines.old.items ++ map line_of (book_statements books.now number (drawn_book placed.now))) }
{
    add_cluster(alloc, lines, number, placed)?;
    add_exception(alloc, lines, number, placed)?;
    add_steps(alloc, lines, books, number, placed.steps.as_slice())?;
    Ok(())
}

/// Adds the lines of playbooks, in order.
fn add_books(
    alloc: Global,
    lines: &mut Vec<Bytes>,
    books: &[Book],
    placed: &[PlacedBook],
) -> Result<(), AllocError>
    requires few { length books.now ≤ 16 }
    requires few_placed { length placed.now ≤ 16 }
    ensures { OnOk result (lines.new.items ≡ lines.old.items ++ map line_of (books_statements books.now 0 (map drawn_book placed.now))) }
{
    for number in 0..placed.len() {
        add_book(alloc, lines, books, number as u32, &placed[number])?;
    }
    Ok(())
}

/// The lines of the picture that these placed playbooks have.
fn drawn_lines(
    alloc: Global,
    books: &[Book],
    placed: &[PlacedBook],
) -> Result<Vec<Bytes>, AllocError>
    requires few { length books.now ≤ 16 }
    requires few_placed { length placed.now ≤ 16 }
    requires read { books.now ≡ map (λ drawn. book_of drawn.tree) (map drawn_book placed.now) }
    ensures { IfOk result (λ lines. lines.items ≡ picture_of (map drawn_book placed.now)) }
{
    let mut lines = head_lines(alloc)?;
    add_books(alloc, &mut lines, books, placed)?;
    lines.push(frame_line(alloc, b"}")?)?;
    Ok(lines)
}

/// The lines of the picture of these trees, whose playbooks were placed with what is marked there.
fn pictured(
    alloc: Global,
    trees: &[Tree],
    books: &[Book],
    placed: &[PlacedBook],
    marks: &Option<Marks>,
) -> Result<Vec<Bytes>, AllocError>
    requires few { length books.now ≤ 16 }
    requires few_placed { length placed.now ≤ 16 }
    requires read { books.now ≡ map book_of (map data_of trees.now) }
    requires drawn { AreDrawn (map data_of trees.now) (map drawn_book placed.now) }
    requires marked { AreMarked marks.now (map drawn_book placed.now) }
    ensures { IfOk result (λ lines. IsMarkedPicture marks.now (map data_of trees.now) lines.items) }
{
    let _ = trees;
    let _ = marks;
    let lines = drawn_lines(alloc, books, placed)?;
    Ok(lines)
}

/// The picture of at most 16 playbooks that break no rule of shape, as lines of DOT, each with its line feed. A step has its name, or its key
/// where it has none, its type, and what it says: its condition, its switch, the action and the target (as canonical text) of each command
/// (OpenC2 Language 1.0, section 3.3.1), the playbook that it calls. It stands in the cluster of its playbook, and within that, if it stands in one region alone,
/// in the cluster of that. A link leads from step to step, and is named by its member; a call leads to the cluster of the called playbook.
pub fn picture(alloc: Global, trees: &[Tree]) -> Result<Vec<Bytes>, AllocError>
    requires few { length trees.now ≤ 16 }
    requires shaped { AreWellShaped (map data_of trees.now) }
    ensures { IfOk result (λ lines. IsPicture (map data_of trees.now) lines.items) }
{
    marked_picture(alloc, trees, &None)
}

/// The same picture with what a run marks at the steps, if there is one: behind the other words of each step stands how often the run walked
/// there, and what is noted; a step where it never walked is pale.
pub fn marked_picture(
    alloc: Global,
    trees: &[Tree],
    marks: &Option<Marks>,
) -> Result<Vec<Bytes>, AllocError>
    requires few { length trees.now ≤ 16 }
    requires shaped { AreWellShaped (map data_of trees.now) }
    ensures { IfOk result (λ lines. IsMarkedPicture marks.now (map data_of trees.now) lines.items) }
{
    let books = books_of(alloc, trees)?;
    let surveys = survey_all(alloc, books.as_slice())?;
    let placed = placed_books(alloc, trees, books.as_slice(), surveys.as_slice(), marks)?;
    pictured(alloc, trees, books.as_slice(), placed.as_slice(), marks)
}
