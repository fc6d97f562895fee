// Tables of the links of a book's steps, by what was read of them.
ghost use Rattle.std.specs.Prelude.{◌≡◌, ◌++◌, map, option_to_list, IfOk, OnOk};
ghost use Rattle.cacao_check_regions.specs.Charts.{next_row};

use base_graphs::Places;
use cacao_check_steps::Parts;
use std::alloc::{AllocError, Global};

// Adds a place, if there is one.
fn add_place(place: Option<u32>, places: &mut Places) -> Result<(), AllocError>
    ensures { OnOk result (places.new ≡ places.old ++ option_to_list place) }
{
    if let Some(place) = place {
        places.push(place)?;
    }
    Ok(())
}

// The places to which a step goes on.
fn next_row(alloc: Global, parts: &Parts) -> Result<Places, AllocError>
    ensures { IfOk result (λ places. places ≡ next_row parts.now) }
{
    let mut places = Places::new(alloc);
    add_place(parts.completion, &mut places)?;
    add_place(parts.success, &mut places)?;
    add_place(parts.failure, &mut places)?;
    Ok(places)
}

/// For each step, the places to which it goes on.
pub(crate) fn next_table(alloc: Global, parts: &[Parts]) -> Result<Vec<Places>, AllocError>
    ensures { IfOk result (λ rows. rows.items ≡ map next_row parts.now) }
{
    let mut rows = Vec::new(alloc);
    for one in parts {
        rows.push(next_row(alloc, one)?)?;
    }
    Ok(rows)
}

// The places at which the branches of a step begin.
fn head_row(alloc: Global, parts: &Parts) -> Result<Places, AllocError>
    ensures { IfOk result (λ places. places ≡ parts.now.heads) }
{
    let mut places = Places::new(alloc);
    places.append(parts.heads.as_slice())?;
    Ok(places)
}

/// For each step, the places at which its branches begin.
pub(crate) fn head_table(alloc: Global, parts: &[Parts]) -> Result<Vec<Places>, AllocError>
    ensures { IfOk result (λ rows. rows.items ≡ map (λ one. one.heads) parts.now) }
{
    let mut rows = Vec::new(alloc);
    for one in parts {
        rows.push(head_row(alloc, one)?)?;
    }
    Ok(rows)
}
