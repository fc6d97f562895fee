// The program as one call.
ghost use Rattle.std.specs.Prelude.{◌≡◌, ◌≢◌, ◌∷◌, [], map, string_bytes};
ghost use Rattle.cacao_site.specs.Counts.{next_count};
ghost use Rattle.cacao_cli_ends.specs.Comes.{ComesExactly, IsOneOf};
ghost use Rattle.cacao_cli_ends.specs.Files.{shelf_call};
ghost use Rattle.cacao_view_graph.specs.RunPictures.{DrawsEntries};
ghost use Rattle.cacao_view_log.specs.Logs.{Logs};
ghost use Rattle.cacao_view_words.specs.Asked.{book_names, maybe_text, request_by};
ghost use Rattle.cacao_view_words.specs.Requests.{explains_books, graphs, logs, preflights, request};
ghost use Rattle.cacao_view.specs.Comes.{DiskTells, IsNotUnderstood, StatusesTell, statuses_of};
ghost use Rattle.cacao_view.specs.Lines.{unsaid_count};
ghost use Rattle.cacao_view.specs.Logging.{LogsFile};
ghost use Rattle.cacao_view.specs.Looks.{Ended, Looks, OnlyLooks};
ghost use Rattle.cacao_view.specs.OpeningRuns.{OpensTo};
ghost use Rattle.cacao_view.specs.Reports.{Reports, ReportsOpened};
ghost use Rattle.cacao_view.specs.Told.{end_of};
ghost use Rattle.cacao_view.specs.Work.{files_of, work};

use crate::end::End;
use crate::explain_word::explain_books;
use crate::graph_word::graph;
use crate::log_word::{form_of, log_disk, log_file};
use crate::preflight_word::preflight_books;
use crate::run_word::graph_disk;
use crate::say::{finish, say_all};
use cacao_site::{Shelf, Site};
use cacao_view_log::Form;
use cacao_view_words::{BookWords, Request, all_words, read_words, version_lines};
use std::alloc::Global;

/// Does what was asked for, all but the last line.
fn look<'w, L: Shelf, S: Site>(
    alloc: Global,
    request: Request<'w>,
    shelf: &mut L,
    site: &mut S,
) -> End<'w>
    ensures looks { Looks (work (request_by request.entry))
        (shelf_call (L.told shelf.old) (L.faults shelf.old) (L.faults shelf.new) (L.reads shelf.old) (L.reads shelf.new))
        (S.view site.old) (S.view site.new) (end_of result) }
    ensures untouched { files_of (request_by request.entry) ≡ [] → shelf.new ≡ shelf.old }
    ensures files { L.told shelf.new ≡ L.told shelf.old }
{
    match request {
        Request::Help => say_all(all_words(), End::Done, site),
        Request::HelpWith(topic) => say_all(topic.lines(), End::Done, site),
        Request::Version => say_all(version_lines(), End::Done, site),
        Request::Log { json, engine } => say_log(alloc, json, engine, shelf, site),
        Request::Graph { book, libraries } => say_graph(alloc, book, libraries, shelf, site),
        Request::GraphRun => say_run(alloc, site),
        Request::Explain(rule) => say_all(rule.lines(), End::Done, site),
        Request::ExplainBooks { book, libraries } => {
            say_break(alloc, book, libraries, shelf, site)
        }
        Request::Preflight { bind, books } => say_flight(alloc, bind, books, shelf, site),
        Request::Lacks(wanted) => say_all(&[], End::NotUnderstood { wanted }, site),
    }
}

/// `log`: says the records in the file of this name, or in the engine's file of the disk.
fn say_log<'w, L: Shelf, S: Site>(
    alloc: Global,
    json: bool,
    engine: Option<&'w str>,
    shelf: &mut L,
    site: &mut S,
) -> End<'w>
    ensures looks { Looks (work (logs json (maybe_text engine.entry)))
        (shelf_call (L.told shelf.old) (L.faults shelf.old) (L.faults shelf.new) (L.reads shelf.old) (L.reads shelf.new))
        (S.view site.old) (S.view site.new) (end_of result) }
    ensures untouched { files_of (logs json (maybe_text engine.entry)) ≡ [] → shelf.new ≡ shelf.old }
    ensures files { L.told shelf.new ≡ L.told shelf.old }
{
    match engine {
        None => say_disk_log(alloc, form_of(json), site),
        Some(name) => say_file_log(alloc, form_of(json), name, shelf, site),
    }
}

/// Says the records in the engine's file of the disk.
fn say_disk_log<'w, S: Site>(alloc: Global, form: Form, site: &mut S) -> End<'w>
    ensures { ReportsOpened (OpensTo (Logs form)) (S.view site.old) (S.view site.new) (end_of result) }
{
    let report = log_disk(alloc, form, site);
    let end = report.say(site);
    End::As { end }
}

/// Says the records in the file of this name.
fn say_file_log<'w, L: Shelf, S: Site>(
    alloc: Global,
    form: Form,
    name: &'w str,
    shelf: &mut L,
    site: &mut S,
) -> End<'w>
    ensures looks { Reports (LogsFile form name.entry.now
        (shelf_call (L.told shelf.old) (L.faults shelf.old) (L.faults shelf.new) (L.reads shelf.old) (L.reads shelf.new)))
        (S.view site.old) (S.view site.new) (end_of result) }
    ensures files { L.told shelf.new ≡ L.told shelf.old }
{
    let report = log_file(alloc, form, name, shelf);
    let end = report.say(site);
    End::As { end }
}

/// `graph`: says the picture of the playbooks in the files of these names.
fn say_graph<'w, L: Shelf, S: Site>(
    alloc: Global,
    book: &'w str,
    libraries: &'w [String],
    shelf: &mut L,
    site: &mut S,
) -> End<'w>
    ensures looks { Looks (work (graphs (book.entry.now ∷ map string_bytes libraries.entry.now)))
        (shelf_call (L.told shelf.old) (L.faults shelf.old) (L.faults shelf.new) (L.reads shelf.old) (L.reads shelf.new))
        (S.view site.old) (S.view site.new) (end_of result) }
    ensures untouched { files_of (graphs (book.entry.now ∷ map string_bytes libraries.entry.now)) ≡ [] → shelf.new ≡ shelf.old }
    ensures files { L.told shelf.new ≡ L.told shelf.old }
{
    let report = graph(alloc, book, libraries, shelf);
    let end = report.say(site);
    End::As { end }
}

/// `graph` alone: says the picture of the run in the engine's file of the disk.
fn say_run<'w, S: Site>(alloc: Global, site: &mut S) -> End<'w>
    ensures { ReportsOpened (OpensTo DrawsEntries) (S.view site.old) (S.view site.new) (end_of result) }
{
    let report = graph_disk(alloc, site);
    let end = report.say(site);
    End::As { end }
}

/// `explain`: says what the first break of the playbooks in the files of these names is.
fn say_break<'w, L: Shelf, S: Site>(
    alloc: Global,
    book: &'w str,
    libraries: &'w [String],
    shelf: &mut L,
    site: &mut S,
) -> End<'w>
    ensures looks { Looks (work (explains_books (book.entry.now ∷ map string_bytes libraries.entry.now)))
        (shelf_call (L.told shelf.old) (L.faults shelf.old) (L.faults shelf.new) (L.reads shelf.old) (L.reads shelf.new))
        (S.view site.old) (S.view site.new) (end_of result) }
    ensures untouched { files_of (explains_books (book.entry.now ∷ map string_bytes libraries.entry.now)) ≡ [] → shelf.new ≡ shelf.old }
    ensures files { L.told shelf.new ≡ L.told shelf.old }
{
    let report = explain_books(alloc, book, libraries, shelf);
    let end = report.say(site);
    End::As { end }
}

/// `preflight`: says what a run of the playbooks in the files of these names would come to.
fn say_flight<'w, L: Shelf, S: Site>(
    alloc: Global,
    bind: Option<&'w str>,
    books: BookWords<'w>,
    shelf: &mut L,
    site: &mut S,
) -> End<'w>
    ensures looks { Looks (work (preflights (maybe_text bind.entry) (book_names books.entry)))
        (shelf_call (L.told shelf.old) (L.faults shelf.old) (L.faults shelf.new) (L.reads shelf.old) (L.reads shelf.new))
        (S.view site.old) (S.view site.new) (end_of result) }
    ensures untouched { files_of (preflights (maybe_text bind.entry) (book_names books.entry)) ≡ [] → shelf.new ≡ shelf.old }
    ensures files { L.told shelf.new ≡ L.told shelf.old }
{
    let report = preflight_books(alloc, bind, books, shelf);
    let end = report.say(site);
    End::As { end }
}

/// Does what the words after the program's name ask, says its lines, and answers the exit status. It writes no file, puts no
/// parcel, and lets no time go by.
///
/// Each status but 0 says why: 1 a rule of a playbook is broken, 2 the words have no reading, 3 the shelf failed, 4 there is no such file,
/// 5 a file is not readable, 8 the disk failed, 9 a line could not be said, 10 memory was wanted, 11 a limit would be passed, 13 the engine's
/// file is damaged.
pub fn view<L: Shelf, S: Site>(alloc: Global, words: &[String], shelf: &mut L, site: &mut S) -> u8
    // It looks, and changes nothing.
    ensures looks { OnlyLooks (S.view site.old) (S.view site.new) }
    ensures untouched { files_of (request (map string_bytes words.now)) ≡ [] → shelf.new ≡ shelf.old }
    ensures files { L.told shelf.new ≡ L.told shelf.old }

    // All that the call does: what it reads, the lines and the status.
    ensures ended { Ended (request (map string_bytes words.now))
        (shelf_call (L.told shelf.old) (L.faults shelf.old) (L.faults shelf.new) (L.reads shelf.old) (L.reads shelf.new))
        (S.view site.old) (S.view site.new) result }

    // Status by status, in words of its own.
    ensures statuses { StatusesTell (request (map string_bytes words.now)) (L.told shelf.old) (S.view site.old) (S.view site.new) result }
    ensures not_understood { ComesExactly 2 (9 ∷ []) (IsNotUnderstood (request (map string_bytes words.now))) result }
    ensures shelf_failed { result ≡ 3 → L.faults shelf.new ≡ next_count (L.faults shelf.old) }
    ensures shelf_steady { result ≢ 3 → result ≢ 9 → L.faults shelf.new ≡ L.faults shelf.old }
    ensures disk { DiskTells (request (map string_bytes words.now)) (S.view site.old) (S.view site.new) result }
    ensures unsaid { result ≡ 9 → unsaid_count (S.view site.new) ≡ next_count (unsaid_count (S.view site.old)) }
    ensures said { result ≢ 9 → unsaid_count (S.view site.new) ≡ unsaid_count (S.view site.old) }

    // Each request has its own statuses alone.
    ensures answers { IsOneOf result (statuses_of (request (map string_bytes words.now))) }
{
    let end = look(alloc, read_words(words), shelf, site);
    finish(alloc, &end, site)
}
