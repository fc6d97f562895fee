// The names of conditions.
ghost use Rattle.std.specs.Prelude.{◌≡◌, [], IfOk, OnOk};
ghost use Rattle.std.specs.List.{list_any};
ghost use Rattle.std.specs.Str.{bytes_eq};
ghost use Rattle.cacao_cond.specs.Trees.{tree_of, all_of_tree, prime_tree};
ghost use Rattle.cacao_cond.specs.Names.{named, named_all, named_prime, with_name, with_names, HasNoTwin, HasNamesOf};

use crate::trees::{AllOf, Cond, Prime};
use cacao_vars::{Name, Names};
use std::alloc::{AllocError, Global};

fn is_listed(names: &[Name], name: &Name) -> bool
    ensures { result ≡ list_any (λ n. bytes_eq n name.now) names.now }
{
    names.iter().any(|listed| *listed == *name)
}

fn add_name(name: &Name, names: &mut Names) -> Result<(), AllocError>
    ensures { OnOk result (names.new ≡ with_name names.old name.now) }
{
    if is_listed(names.as_slice(), name) {
        return Ok(());
    }
    names.push(name.clone()?)
}

/// The names of a condition, each once.
pub fn names(alloc: Global, cond: &Cond) -> Result<Names, AllocError>
    ensures once { IfOk result HasNoTwin }
    ensures exact { IfOk result (HasNamesOf (tree_of cond.now)) }
    // In the order in which they first stand.
    ensures listed { IfOk result (λ names. names ≡ with_names [] (named (tree_of cond.now))) }
{
    names_in_order(alloc, cond)
}

fn names_in_order(alloc: Global, cond: &Cond) -> Result<Names, AllocError>
    ensures { IfOk result (λ names. names ≡ with_names [] (named (tree_of cond.now))) }
{
    let mut found = Names::new(alloc);
    add_any(cond, &mut found)?;
    Ok(found)
}

#[cycle(naming)]
#[tactic(auto, using(crate::proofs::NameLemmas::with_names_append))]
fn add_any(cond: &Cond, names: &mut Names) -> Result<(), AllocError>
    ensures { OnOk result (names.new ≡ with_names names.old (named (tree_of cond.now))) }
{
    match cond {
        Cond::Last(part) => add_all(part, names),
        Cond::Or(part, rest) => {
            add_all(part, names)?;
            add_any(rest, names)
        }
    }
}

#[cycle(naming)]
#[tactic(auto, using(crate::proofs::NameLemmas::with_names_append))]
fn add_all(all: &AllOf, names: &mut Names) -> Result<(), AllocError>
    ensures { OnOk result (names.new ≡ with_names names.old (named_all (all_of_tree all.now))) }
{
    match all {
        AllOf::Last(prime) => add_prime(prime, names),
        AllOf::And(prime, rest) => {
            add_prime(prime, names)?;
            add_all(rest, names)
        }
    }
}

#[cycle(naming)]
fn add_prime(prime: &Prime, names: &mut Names) -> Result<(), AllocError>
    ensures { OnOk result (names.new ≡ with_names names.old (named_prime (prime_tree prime.now))) }
{
    match prime {
        Prime::Group(cond) => add_any(cond, names),
        Prime::Compare { name, .. } => add_name(name, names),
        Prime::Among { name, .. } => add_name(name, names),
    }
}
