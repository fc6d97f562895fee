// Which steps declare a name.
ghost use Rattle.std.specs.Prelude.{◌≡◌, [], IsTrue, false, IfOk, OnOk};
ghost use Rattle.cacao_check_regions.specs.Declarers.{places_under, AreDeclarersOf, Puts, Adds, AddsEach};

use base_graphs::Places;
use cacao_book::Book;
use cacao_vars::{Name, Var};
use std::alloc::{AllocError, Global};
use std::collections::BTreeMap;
use std::marker::Model;

/// The places of the steps that declare a name, for each name that a step declares.
#[derive(Drop)]
pub struct Declarers {
    places: BTreeMap<Name, Places>,
}

impl Model for Declarers {
    ghost use Rattle.std.specs.Prelude.{List, ℕ};

    ghost Value = { List (List ℕ × List ℕ) };

    ghost view = { λ declarers. declarers.places.entries };
}

// Adds a place under a name that is there; false where it is not.
fn add_under(
    places: &mut BTreeMap<Name, Places>,
    name: &Name,
    place: u32,
) -> Result<bool, AllocError>
    ensures added { IfOk result (λ found. IsTrue found → Puts places.old.entries places.new.entries name.now place) }
    ensures absent { IfOk result (λ found. found ≡ false → places_under places.old.entries name.now ≡ []) }
    ensures unchanged { IfOk result (λ found. found ≡ false → places.new.entries ≡ places.old.entries) }
{
    let Some(these) = places.get_mut(name) else {
        return Ok(false);
    };
    these.push(place)?;
    Ok(true)
}

// Puts a place under a name that is not there.
fn put_first(
    alloc: Global,
    places: &mut BTreeMap<Name, Places>,
    name: &Name,
    place: u32,
) -> Result<(), AllocError>
    requires { places_under places.old.entries name.now ≡ [] }
    ensures { OnOk result (Puts places.old.entries places.new.entries name.now place) }
{
    let name = name.clone()?;
    let mut these = Places::new(alloc);
    these.push(place)?;
    places.insert(name, these)?;
    Ok(())
}

// Adds a place under a name.
fn add_to(
    alloc: Global,
    places: &mut BTreeMap<Name, Places>,
    name: &Name,
    place: u32,
) -> Result<(), AllocError>
    ensures { OnOk result (Adds places.old.entries places.new.entries name.now place) }
{
    if add_under(places, name, place)? {
        return Ok(());
    }
    put_first(alloc, places, name, place)?;
    Ok(())
}

impl Declarers {
    /// No places. It takes no memory.
    pub(crate) fn new(alloc: Global) -> Declarers
        ensures { result ≡ [] }
    {
        Declarers {
            places: BTreeMap::new(alloc),
        }
    }

    /// The places of the steps that declare a name. It takes no memory.
    pub(crate) fn find(&self, name: &Name) -> &[u32]
        ensures { result.now ≡ places_under self.now name.now }
    {
        match self.places.get(name) {
            Some(places) => places.as_slice(),
            None => &[],
        }
    }

    // Adds the place of a step that declares a name.
    fn add(&mut self, alloc: Global, name: &Name, place: u32) -> Result<(), AllocError>
        ensures { OnOk result (Adds self.old self.new name.now place) }
    {
        add_to(alloc, &mut self.places, name, place)?;
        Ok(())
    }

    /// Adds the place of a step that declares these names.
    pub(crate) fn add_all(
        &mut self,
        alloc: Global,
        vars: &[Var],
        place: u32,
    ) -> Result<(), AllocError>
        ensures { OnOk result (AddsEach self.old self.new vars.now place) }
    {
        for var in vars {
            self.add(alloc, &var.name, place)?;
        }
        Ok(())
    }
}

/// The places of the steps of a book by the names that they declare.
pub(crate) fn declarers_of(alloc: Global, book: &Book) -> Result<Declarers, AllocError>
    ensures { IfOk result (AreDeclarersOf book.now) }
{
    let mut declarers = Declarers::new(alloc);
    for (place, step) in book.steps.as_slice().iter().enumerate() {
        declarers.add_all(alloc, step.variables.as_slice(), place as u32)?;
    }
    Ok(declarers)
}
