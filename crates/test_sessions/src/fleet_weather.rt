// Fleets of two to five runs on two filters, on racks in memory, where parcels are lost, doubled and held back, calls of the
// device fail, and devices stop. Each is drawn from a seed of its own, over the playbooks of `weather_books.rows`, and called up
// to three times under weather and once more under none. Behind each call its files, parcels, lines and close are compared
// (`test_weather_plays`).
use std::alloc::{AllocError, Global};
use std::io;
use std::rt::Files;
use test_rows::{Row, read_file};
use test_weather_plays::{Books, Counts, Found, play};

/// What a finding says.
fn text_of(found: Found) -> &'static str {
    match found {
        Found::NoRuns => "a playbook is not accepted",
        Found::Files => "a file is damaged, or an engine refuses its journal",
        Found::Audit => "the files of a run do not agree",
        Found::Acts => "two acts are on one command",
        Found::Parcels => "a parcel is of no Send and of no act",
        Found::Lines => "a line is not that of its record",
        Found::Said => "the lines are not those of the new records",
        Found::Turns => "a record came out of turn",
        Found::Close => "the close does not fit the files",
        Found::Expired => "an issue expired, and no parcel met a mishap",
        Found::End => "the undisturbed call did not end",
    }
}

/// The playbooks of these rows: the second field of each.
fn books_of(alloc: Global, rows: &[Row]) -> Result<Books, AllocError> {
    let mut books = Books::new(alloc);
    for row in rows {
        books.push(row.text(1))?;
    }
    Ok(books)
}

/// Prints how many fleets were played.
fn print_calls(rt: &impl Print, counts: Counts) -> io::Result<()> {
    let Counts {
        fleets,
        runs,
        calls,
        ..
    } = counts;
    println!(rt; "fleets {fleets}, runs {runs}, calls {calls}")
}

/// Prints what came of their calls.
fn print_ends(rt: &impl Print, counts: Counts) -> io::Result<()> {
    let Counts {
        refused,
        memory,
        cut,
        asked,
        ..
    } = counts;
    println!(rt; "refused {refused}, for want of memory {memory}, cut short {cut}, asked {asked}")
}

/// Prints what these fleets left.
fn print_left(rt: &impl Print, counts: Counts) -> io::Result<()> {
    let Counts {
        records,
        acts,
        expired,
        mishaps,
        ..
    } = counts;
    println!(rt; "records {records}, acts {acts}, expired {expired}, mishaps {mishaps}")
}

/// Plays so many fleets, from this seed on; whether nothing was found.
fn play_all(
    rt: &(impl Print + AllocGlobal),
    books: &Books,
    count: u64,
    seed: u64,
) -> io::Result<bool> {
    let mut counts = Counts::none();
    let mut is_well = true;
    for n in 0..count {
        let seed = seed.wrapping_add(n);
        if let Some(found) = play(rt.alloc(), books, seed, &mut counts)? {
            println!(rt; "seed {seed}: {}", text_of(found))?;
            is_well = false;
        }
    }
    print_calls(rt, counts)?;
    print_ends(rt, counts)?;
    print_left(rt, counts)?;
    Ok(is_well)
}

/// Plays so many fleets over the playbooks of the file `weather_books.rows`, from this seed on; whether nothing was found.
pub(crate) fn play_fleets(
    rt: &(impl Print + Files + AllocGlobal),
    count: u64,
    seed: u64,
) -> io::Result<bool> {
    let rows = read_file(rt, "weather_books.rows")?;
    let books = books_of(rt.alloc(), rows.as_slice())?;
    play_all(rt, &books, count, seed)
}
