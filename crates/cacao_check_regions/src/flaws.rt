// What may be wrong with what a step sees of a name.
ghost use Rattle.std.specs.Prelude.{◌≡◌, ◌↔◌, ◌<◌, ◌≤◌, ◌⊎◌, ℕ, length, All, Contains, IfOk, OnOk, IsTrue, IsSome, Option, is_some, true};
ghost use Rattle.std.specs.Option.{option_copied};
ghost use Rattle.base_graphs.specs.Tables.{IsMarked, IsOpen};
ghost use Rattle.cacao_vars.specs.declared.declarations.Var.{Var as AVar};
ghost use Rattle.cacao_check_steps.specs.Links.{declares};
ghost use Rattle.cacao_check_regions.specs.Regions.{Sees};
ghost use Rattle.cacao_check_regions.specs.Flaws.{may_take as may_take_of, is_flawed as is_flawed_of, HasOwnFlaw, SeesFlaw};
ghost use Rattle.cacao_check_regions.specs.Charts.{IsChartOf, AreMarksOf, IsBehind};
ghost use Rattle.cacao_check_regions.specs.Memories.{AreSourcesOf, AreSeenFrom, IsExact, Serves, Grows, Remembers};

use crate::charts::Chart;
use crate::memory::{Memory, copy_name, copy_of, key_of};
use crate::same_vars::same_kind;
use crate::searches::{Searches, Sources, sources_key};
use crate::sights::{marked, sights};
use base_graphs::{Bits, Nests, Places};
use cacao_book::Book;
use cacao_vars::{Kind, Name, Var};
use std::alloc::{AllocError, Global};

/// A flaw of a declaration, or of there being none.
#[derive(Drop)]
pub enum Flaw {
    /// There may be no declaration.
    Missing,
    /// A constant, to which no result is written.
    Constant,
    /// A constant, or of a kind that does not take the result of an action at this place among its results.
    Unfit(u32),
    /// Of another kind than this.
    Unlike(Kind),
}

// Whether a variable of a kind takes the result of an action at this place.
fn may_take(place: u32, kind: &Kind) -> bool
    ensures { result ≡ may_take_of place kind.now }
{
    match kind {
        Kind::String => true,
        Kind::Integer => place < 2,
        Kind::Long => place < 2,
        Kind::Other(_) => true,
        _ => false,
    }
}

// Whether a declaration, or that there is none, has the flaw.
fn is_flawed(flaw: &Flaw, found: Option<&Var>) -> bool
    ensures { result ≡ is_flawed_of flaw.now (option_copied found.entry) }
{
    let Some(var) = found else {
        return matches!(flaw, Flaw::Missing);
    };
    match flaw {
        Flaw::Missing => false,
        Flaw::Constant => var.constant,
        Flaw::Unfit(place) => var.constant || !may_take(*place, &var.kind),
        Flaw::Unlike(kind) => !same_kind(&var.kind, kind),
    }
}

fn is_flawed_there(flaw: &Flaw, found: Option<&Var>) -> bool
    ensures { IsTrue result ↔ (IsSome (option_copied found.entry) × (is_flawed_of flaw.now (option_copied found.entry) ≡ true)) }
{
    found.is_some() && is_flawed(flaw, found)
}

// Whether the step at a place declares the name with the flaw.
fn has_own_flaw(book: &Book, place: u32, name: &Name, flaw: &Flaw) -> bool
    requires { place < length book.now.steps }
    ensures { IsTrue result ↔ HasOwnFlaw book.now name.now flaw.now place }
{
    let step = &book.steps.as_slice()[place as usize];
    is_flawed_there(flaw, step.variables.find(name))
}

// Adds the place of a step, if it declares the name with the flaw.
fn add_flawed(
    these: &mut Places,
    book: &Book,
    place: u32,
    name: &Name,
    flaw: &Flaw,
) -> Result<(), AllocError>
    requires { place < length book.now.steps }
    ensures { OnOk result ((at : ℕ) → Contains these.new at ↔ (Contains these.old at ⊎ ((place ≡ at) × HasOwnFlaw book.now name.now flaw.now at))) }
{
    if !has_own_flaw(book, place, name, flaw) {
        return Ok(());
    }
    these.push(place)?;
    Ok(())
}

// Those of the places at which a step declares the name with the flaw.
fn flawed(
    alloc: Global,
    book: &Book,
    places: &[u32],
    name: &Name,
    flaw: &Flaw,
) -> Result<Places, AllocError>
    requires { All (λ place. place < length book.now.steps) places.now }
    ensures { IfOk result (λ these. (place : ℕ) → Contains these place ↔ (Contains places.now place × HasOwnFlaw book.now name.now flaw.now place)) }
{
    let mut these = Places::new(alloc);
    for place in places {
        add_flawed(&mut these, book, *place, name, flaw)?;
    }
    Ok(these)
}

// Where the name is declared, with the flaw and without it.
fn sources_of(
    alloc: Global,
    book: &Book,
    chart: &Chart,
    name: &Name,
    flaw: &Flaw,
) -> Result<Sources, AllocError>
    requires { IsChartOf book.now chart.now }
    ensures { IfOk result (AreSourcesOf book.now name.now flaw.now) }
{
    let places = chart.declarers.find(name);
    let flawed = flawed(alloc, book, places, name, flaw)?;
    let mut declaring = Places::new(alloc);
    declaring.append(places)?;
    let at_start = is_flawed(flaw, book.variables.find(name));
    Ok(Sources {
        declaring,
        flawed,
        at_start,
    })
}

// Whether a step has the flaw itself, or sees it outside and does not hide it.
fn shows(own: &Bits, outside: &Bits, hiding: &Bits, place: u32) -> bool
    ensures { IsTrue result ↔ (IsMarked own.now place ⊎ (IsMarked outside.now place × IsOpen hiding.now place)) }
{
    own.has(place) || (outside.has(place) && !hiding.has(place))
}

// The places below a count of the steps that do.
fn shown(
    alloc: Global,
    count: usize,
    own: &Bits,
    outside: &Bits,
    hiding: &Bits,
) -> Result<Bits, AllocError>
    requires { count ≤ 4096 }
    ensures { IfOk result (AreMarksOf (λ place. place < count × (IsMarked own.now place ⊎ (IsMarked outside.now place × IsOpen hiding.now place)))) }
{
    let mut marks = Bits::unmarked(alloc, count)?;
    for place in 0..count {
        if shows(own, outside, hiding, place as u32) {
            marks.mark(place as u32);
        }
    }
    Ok(marks)
}

// The places of the steps that may see something of a name that has a flaw, where the name and the flaw have these sources: one search
// for all of the steps.
fn seen_marks(
    alloc: Global,
    book: &Book,
    chart: &Chart,
    sources: &Sources,
) -> Result<Bits, AllocError>
    requires chart { IsChartOf book.now chart.now }
    requires declaring { All (λ place. place < length book.now.steps) sources.now.declaring }
    requires flawed { All (λ place. place < length book.now.steps) sources.now.flawed }
    ensures { IfOk result (AreSeenFrom book.now sources.now) }
{
    let at_start = sources.at_start;
    if !at_start && sources.flawed.as_slice().is_empty() {
        return Ok(Bits::new(alloc));
    }
    let count = book.steps.as_slice().len();
    let hiding = marked(alloc, count, sources.declaring.as_slice())?;
    let own = marked(alloc, count, sources.flawed.as_slice())?;
    let outside = sights(alloc, book, chart, &hiding, &own, at_start)?;
    let marks = shown(alloc, count, &own, &outside, &hiding)?;
    Ok(marks)
}

// Where the search for a name and a flaw stands, which is made if none with the same sources was made before.
fn search_for(
    alloc: Global,
    book: &Book,
    chart: &Chart,
    searches: &mut Searches,
    name: &Name,
    flaw: &Flaw,
) -> Result<usize, AllocError>
    requires chart { IsChartOf book.now chart.now }
    requires exact { All (IsExact book.now) searches.old.items.items }
    ensures exact { OnOk result (All (IsExact book.now) searches.new.items.items) }
    ensures grows { OnOk result (Grows searches.old.items.items searches.new.items.items) }
    ensures serves { IfOk result (λ at. Serves book.now searches.new.items.items at name.now flaw.now) }
{
    let sources = sources_of(alloc, book, chart, name, flaw)?;
    let key = sources_key(alloc, &sources)?;
    if let Some(at) = searches.find(&key, &sources) {
        return Ok(at);
    }
    let marks = seen_marks(alloc, book, chart, &sources)?;
    let at = searches.keep(key, sources, marks)?;
    Ok(at)
}

// Whether it is plain that the step at a place finds a declaration: the book has one, or no run reaches the step.
fn is_found_anyhow(book: &Book, chart: &Chart, name: &Name, place: u32) -> bool
    requires { IsChartOf book.now chart.now }
    ensures { IsTrue result → (seen : Option AVar) → Sees book.now name.now place seen → is_some seen ≡ true }
{
    book.variables.declares(name) || !chart.reach.has(place)
}

// The same of the flaw that there may be no declaration.
fn is_never_missing(book: &Book, chart: &Chart, name: &Name, flaw: &Flaw, place: u32) -> bool
    requires { IsChartOf book.now chart.now }
    ensures { IsTrue result → ¬ SeesFlaw book.now name.now flaw.now place }
{
    match flaw {
        Flaw::Missing => is_found_anyhow(book, chart, name, place),
        _ => false,
    }
}

// So many steps that declare a name are looked at, before all steps are searched.
const FEW: usize = 8;

// Whether none of the places is that of a step that declares the name with the flaw.
fn none_flawed(book: &Book, places: &[u32], name: &Name, flaw: &Flaw) -> bool
    requires { All (λ place. place < length book.now.steps) places.now }
    ensures { IsTrue result → (place : ℕ) → Contains places.now place → ¬ HasOwnFlaw book.now name.now flaw.now place }
{
    for place in places {
        if has_own_flaw(book, *place, name, flaw) {
            return false;
        }
    }
    true
}

// Whether a place is one of these, or each way of a run to it leads through a branch of a step at one of them.
fn is_behind(nests: &Nests, controls: &[u32], place: u32) -> bool
    ensures { IsTrue result → IsBehind nests.now controls.now place }
{
    for control in controls {
        if *control == place {
            return true;
        }
        if nests.encloses(*control, place) {
            return true;
        }
    }
    false
}

// Whether it is plain that the step at a place does not see the flaw: few steps declare the name, none of them with the flaw, and one of
// them hides what the book has of it.
fn is_plainly_hidden(book: &Book, chart: &Chart, name: &Name, flaw: &Flaw, place: u32) -> bool
    requires { IsChartOf book.now chart.now }
    ensures { IsTrue result → ¬ SeesFlaw book.now name.now flaw.now place }
{
    let places = chart.declarers.find(name);
    if places.len() > FEW {
        return false;
    }
    if !is_behind(&chart.nests, places, place) {
        return false;
    }
    none_flawed(book, places, name, flaw)
}

/// Whether the step at a place may see something of the name that has the flaw. What is plain takes no search. What was searched for is
/// kept in the memory, so that one search serves all steps, and all names that the same steps declare in the same way.
pub fn sees_flaw(
    alloc: Global,
    book: &Book,
    chart: &Chart,
    memory: &mut Memory,
    name: &Name,
    flaw: &Flaw,
    place: u32,
) -> Result<bool, AllocError>
    requires chart { IsChartOf book.now chart.now }
    requires memory { Remembers book.now memory.old }
    ensures sees { IfOk result (λ sees. IsTrue sees ↔ SeesFlaw book.now name.now flaw.now place) }
    ensures memory { OnOk result (Remembers book.now memory.new) }
{
    if is_never_missing(book, chart, name, flaw, place) {
        return Ok(false);
    }
    if is_plainly_hidden(book, chart, name, flaw, place) {
        return Ok(false);
    }
    let key = key_of(alloc, name, flaw)?;
    if let Some(sees) = memory.recalled(&key, name, flaw, place) {
        return Ok(sees);
    }
    let search = search_for(alloc, book, chart, &mut memory.searches, name, flaw)?;
    let sees = memory.searches.has(search, place);
    let name = copy_name(name)?;
    let flaw = copy_of(flaw)?;
    memory.keep(key, name, flaw, search)?;
    Ok(sees)
}
