// The links of steps as places.
ghost use Rattle.std.specs.Prelude.{◌≡◌, ◌<◌, ◌≤◌, ◌++◌, length, map, filter_map, option_to_list, IfOk, OnOk, Option};
ghost use Rattle.cacao_book.specs.Steps.{IsInKeyOrder, place_of};
ghost use Rattle.cacao_check_steps.specs.Links.{head_keys, start_places};

use base_graphs::Places;
use cacao_book::{Book, Case, Step, StepKind, find_place};
use cacao_json::Text;
use std::alloc::{AllocError, Global};

// Adds the place of the step with a key, if there is one.
fn add_key(steps: &[Step], key: &Text, places: &mut Places) -> Result<(), AllocError>
    requires order { IsInKeyOrder steps.now }
    requires few { length steps.now ≤ 4096 }
    ensures { OnOk result (places.new ≡ places.old ++ option_to_list (place_of steps.now key.now)) }
{
    if let Some(place) = find_place(steps, key.text()) {
        places.push(place as u32)?;
    }
    Ok(())
}

// Adds the place to which a link leads, if there is one.
fn add_link(steps: &[Step], link: &Option<Text>, places: &mut Places) -> Result<(), AllocError>
    requires order { IsInKeyOrder steps.now }
    requires few { length steps.now ≤ 4096 }
    ensures { OnOk result (places.new ≡ places.old ++ filter_map (place_of steps.now) (option_to_list link.now)) }
{
    if let Some(key) = link {
        add_key(steps, key, places)?;
    }
    Ok(())
}

// Adds the places of the steps with these keys.
fn add_keys(steps: &[Step], keys: &[Text], places: &mut Places) -> Result<(), AllocError>
    requires order { IsInKeyOrder steps.now }
    requires few { length steps.now ≤ 4096 }
    ensures { OnOk result (places.new ≡ places.old ++ filter_map (place_of steps.now) keys.now) }
{
    for key in keys {
        add_key(steps, key, places)?;
    }
    Ok(())
}

// Adds the places to which the cases of a switch lead.
fn add_cases(steps: &[Step], cases: &[Case], places: &mut Places) -> Result<(), AllocError>
    requires order { IsInKeyOrder steps.now }
    requires few { length steps.now ≤ 4096 }
    ensures { OnOk result (places.new ≡ places.old ++ filter_map (place_of steps.now) (map (λ one. one.step) cases.now)) }
{
    for one in cases {
        add_key(steps, &one.step, places)?;
    }
    Ok(())
}

/// The places at which the branches of a step of this kind begin.
pub(crate) fn head_row(alloc: Global, steps: &[Step], kind: &StepKind) -> Result<Places, AllocError>
    requires order { IsInKeyOrder steps.now }
    requires few { length steps.now ≤ 4096 }
    ensures { IfOk result (λ places. places ≡ filter_map (place_of steps.now) (head_keys kind.now)) }
{
    let mut places = Places::new(alloc);
    match kind {
        StepKind::Parallel { next } => add_keys(steps, next.as_slice(), &mut places)?,
        StepKind::If {
            on_true,
            on_false,
            ..
        } => {
            add_key(steps, on_true, &mut places)?;
            add_link(steps, on_false, &mut places)?;
        }
        StepKind::While { on_true, .. } => add_key(steps, on_true, &mut places)?,
        StepKind::Switch { cases, .. } => add_cases(steps, cases.as_slice(), &mut places)?,
        _ => {}
    }
    Ok(places)
}

/// The places at which a run of the book begins.
pub fn start_row(alloc: Global, book: &Book) -> Result<Places, AllocError>
    ensures { IfOk result (λ places. places ≡ start_places book.now) }
{
    let steps = book.steps.as_slice();
    let mut places = Places::new(alloc);
    add_key(steps, &book.start, &mut places)?;
    add_link(steps, &book.exception, &mut places)?;
    Ok(places)
}
