// What a run marks at the steps of its playbooks.
ghost use Rattle.std.specs.Prelude.{◌≡◌, ◌==◌, ◌∷◌, ◌++◌, ℕ, IfOk, OnOk, codes, decimal};
ghost use Rattle.cacao_view_graph.specs.Tallies.{HasTally, IfTallied, IsMarkOf};

use crate::note::Note;
use crate::spot::Spot;
use crate::tally::Tally;
use base_lines::{add, add_decimal};
use std::alloc::{AllocError, Global};

/// Where a run walked, a step for each time, and what is noted at steps, in order.
#[derive(Drop)]
pub struct Marks {
    pub walked: Vec<Spot>,
    pub notes: Vec<Note>,
}

/// What is marked at a step: lines that stand behind its other words, and whether it is pale.
#[derive(Drop)]
pub(crate) struct Mark {
    pub text: Vec<u8>,
    pub pale: bool,
}

/// Adds how often a step was walked, and what is noted there.
fn add_tally(out: &mut Vec<u8>, tally: &Tally) -> Result<(), AllocError>
    ensures { OnOk result (out.new.items ≡ out.old.items
        ++ (codes "\nwalked " ++ (decimal tally.now.walks ++ 10 ∷ tally.now.text.items))) }
{
    add(out, b"\nwalked ")?;
    add_decimal(out, tally.walks as u64)?;
    add(out, b"\n")?;
    add(out, tally.text.as_slice())
}

/// What a run marks at a step.
fn mark_of(alloc: Global, tally: &Tally) -> Result<Mark, AllocError>
    ensures text { IfOk result (λ mark. mark.text.items ≡ codes "\nwalked " ++ (decimal tally.now.walks ++ 10 ∷ tally.now.text.items)) }
    ensures pale { IfOk result (λ mark. mark.pale ≡ (tally.now.walks == 0)) }
{
    let mut text = Vec::new(alloc);
    add_tally(&mut text, tally)?;
    Ok(Mark {
        text,
        pale: tally.walks == 0,
    })
}

/// What is marked at a step of the playbook of which these tallies are, where there is a run.
pub(crate) fn mark_at(
    alloc: Global,
    marks: &Option<Marks>,
    tallies: &[Tally],
    step: usize,
) -> Result<Mark, AllocError>
    requires { HasTally marks.now step tallies.now }
    ensures { IfOk result (λ mark. (book : ℕ) → IfTallied marks.now book step tallies.now → IsMarkOf marks.now book step mark) }
{
    match marks {
        Some(_) => mark_of(alloc, &tallies[step]),
        None => Ok(Mark {
            text: Vec::new(alloc),
            pale: false,
        }),
    }
}
