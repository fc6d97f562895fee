// What a run marks at the steps of one playbook, found in one walk.
ghost use Rattle.std.specs.Prelude.{◌≡◌, ◌<◌, ◌+◌, ◌∷◌, ◌++◌, [], ℕ, List, IfOk, OnOk, length, slice_index_or};
ghost use Rattle.cacao_view_graph.specs.Tallies.{AllTallied, AreTallies, HasFew};
ghost use Rattle.cacao_view_graph.specs.declared.spot.Spot.{Spot as Place};
ghost use Rattle.cacao_view_graph.specs.declared.note.Note.{Note as Noted};

use crate::marks::Marks;
use crate::note::Note;
use crate::spot::Spot;
use base_lines::add;
use std::alloc::{AllocError, Global};

/// How often a run walked at a step, and what is noted there.
#[derive(Drop)]
pub(crate) struct Tally {
    pub walks: usize,
    pub text: Vec<u8>,
}

/// Nothing, for each of so many steps.
fn blank(alloc: Global, steps: usize) -> Result<Vec<Tally>, AllocError>
    ensures count { IfOk result (λ tallies. length tallies.items ≡ steps) }
    ensures each { IfOk result (λ tallies. (book : ℕ) → AreTallies book [] [] tallies.items) }
{
    let mut tallies = Vec::new(alloc);
    for _ in 0..steps {
        tallies.push(Tally {
            walks: 0,
            text: Vec::new(alloc),
        })?;
    }
    Ok(tallies)
}

/// Counts one walk more.
fn add_walk(tally: &mut Tally)
    requires { tally.old.walks < 18446744073709551615 }
    ensures walks { tally.new.walks ≡ tally.old.walks + 1 }
    ensures text { tally.new.text.items ≡ tally.old.text.items }
{
    tally.walks += 1;
}

/// Counts a walk at its step, where that is one of this playbook.
fn count_walk(tallies: &mut [Tally], book: u32, spot: Spot)
    requires { HasFew tallies.old spot.step }
    ensures count { length tallies.new ≡ length tallies.old }
    ensures each { (walked : List Place) (notes : List Noted) → AreTallies book walked notes tallies.old
        → AreTallies book (walked ++ spot ∷ []) notes tallies.new }
{
    let step = spot.step as usize;
    if spot.book != book {
        return;
    }
    if step >= tallies.len() {
        return;
    }
    add_walk(&mut tallies[step]);
}

/// The walk at a place.
fn walk_at(walked: &[Spot], place: usize) -> Spot
    requires { place < length walked.now }
    ensures value { result ≡ slice_index_or walked.now place result }
    ensures few { place < 18446744073709551615 }
{
    let _ = walked.len();
    walked[place]
}

/// Counts each walk at its step.
fn count_walks(tallies: &mut [Tally], book: u32, walked: &[Spot])
    requires { AreTallies book [] [] tallies.old }
    ensures count { length tallies.new ≡ length tallies.old }
    ensures each { AreTallies book walked.now [] tallies.new }
{
    for place in 0..walked.len() {
        let spot = walk_at(walked, place);
        count_walk(tallies, book, spot);
    }
}

/// Adds a text to what is noted.
fn add_text(tally: &mut Tally, text: &[u8]) -> Result<(), AllocError>
    ensures walks { OnOk result (tally.new.walks ≡ tally.old.walks) }
    ensures text { OnOk result (tally.new.text.items ≡ tally.old.text.items ++ text.now) }
{
    add(&mut tally.text, text)
}

/// Adds the text of a note at its step, where that is one of this playbook.
fn add_note(tallies: &mut [Tally], book: u32, note: &Note) -> Result<(), AllocError>
    ensures count { OnOk result (length tallies.new ≡ length tallies.old) }
    ensures each { OnOk result ((walked : List Place) (notes : List Noted) → AreTallies book walked notes tallies.old
        → AreTallies book walked (notes ++ note.now ∷ []) tallies.new) }
{
    let step = note.spot.step as usize;
    if note.spot.book != book {
        return Ok(());
    }
    if step >= tallies.len() {
        return Ok(());
    }
    add_text(&mut tallies[step], note.text.as_slice())?;
    Ok(())
}

/// Adds the text of each note at its step.
fn add_notes(
    tallies: &mut [Tally],
    book: u32,
    walked: &[Spot],
    notes: &[Note],
) -> Result<(), AllocError>
    requires { AreTallies book walked.now [] tallies.old }
    ensures count { OnOk result (length tallies.new ≡ length tallies.old) }
    ensures each { OnOk result (AreTallies book walked.now notes.now tallies.new) }
{
    let _ = walked;
    for place in 0..notes.len() {
        add_note(tallies, book, &notes[place])?;
    }
    Ok(())
}

/// What a run marks at the steps of the playbook with this number, which has so many.
fn tallied(alloc: Global, marks: &Marks, book: u32, steps: usize) -> Result<Vec<Tally>, AllocError>
    ensures count { IfOk result (λ tallies. length tallies.items ≡ steps) }
    ensures each { IfOk result (λ tallies. AreTallies book marks.now.walked.items marks.now.notes.items tallies.items) }
{
    let mut tallies = blank(alloc, steps)?;
    count_walks(&mut tallies, book, marks.walked.as_slice());
    add_notes(
        &mut tallies,
        book,
        marks.walked.as_slice(),
        marks.notes.as_slice(),
    )?;
    Ok(tallies)
}

/// The same of a run, if there is one; else nothing.
pub(crate) fn tallies_of(
    alloc: Global,
    marks: &Option<Marks>,
    book: u32,
    steps: usize,
) -> Result<Vec<Tally>, AllocError>
    ensures { IfOk result (λ tallies. AllTallied marks.now book steps tallies.items) }
{
    match marks {
        Some(marks) => tallied(alloc, marks, book, steps),
        None => Ok(Vec::new(alloc)),
    }
}
