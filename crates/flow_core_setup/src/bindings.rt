// Bindings of filters to agents and targets, and of texts to variables, read from a tree.
ghost use Rattle.std.specs.Prelude.{◌≡◌, ◌⊎◌, ◌↔◌, IsTrue, IsSomeAnd, IfSome, IfOk, IfErr, OnOk, All, codes, map, option_map, unwrap_or, nat_abs};
ghost use Rattle.serde_json.specs.Find.{as_object};
ghost use Rattle.cacao_json.specs.Tree.{data_of, pair_data};
ghost use Rattle.cacao_ids.specs.Ids.{IsId};
ghost use Rattle.cacao_vars.specs.Names.{IsName};
ghost use Rattle.cacao_vars.specs.Declarations.{declared};
ghost use Rattle.cacao_book_shape.specs.Members.{MayHave, ObjectWith, TextFits, IsShort, members_in, members_at, whole, text_of as text_of_data};
ghost use Rattle.cacao_book_shape.specs.Orders.{IsRising};
ghost use Rattle.cacao_check.specs.Fits.{FitsKind};
ghost use Rattle.flow_core_rules.specs.Bindings.{IsFilter, B1, BindRule, KeepsBind, agents_in, variables_in};
ghost use Rattle.flow_core_setup.specs.SetupGivens.{AreInOrder};
ghost use Rattle.flow_core_setup.specs.SetupReading.{RefusesBindings};

use crate::setup_errors::SetupError;
use cacao_check::value_fits;
use cacao_ids::Id;
use cacao_json::{Pair, Pairs, Text, Tree, member, text_of, whole_of};
use cacao_vars::{Name, Vars, Word};
use std::alloc::{AllocError, Global};

// How many bytes the text of a variable may have, and the number of the last filter.
const MOST_TEXT: usize = 4_096;

const LAST_FILTER: i64 = 16;

/// The filters that bindings bind to agents and targets, and the texts that they bind to variables, each in the order of names.
#[derive(Drop)]
pub(crate) struct Bound {
    pub(crate) agents: Vec<(Text, u8)>,
    pub(crate) variables: Vec<(Name, Word)>,
}

// The members of an object. None where the value is none.
fn members_of(value: &Tree) -> Option<&Pairs>
    ensures { option_map (λ pairs. pairs.now) result ≡ as_object (data_of value.now) }
{
    match value {
        Tree::Members(pairs) => Some(pairs),
        _ => None,
    }
}

// The members as they stand in the tree.
fn pairs(members: &Pairs) -> &[Pair]
    ensures members { members_in members.now ≡ map pair_data result.now }
    ensures rising { IsRising (members_in members.now) }
{
    members.as_slice()
}

// The members of the object under a name, in order; none where there is no object.
fn members_under<'a>(tree: &'a Tree, name: &str) -> &'a [Pair]
    ensures members { map pair_data result.now ≡ members_at name.now (data_of tree.now) }
    ensures rising { IsRising (members_at name.now (data_of tree.now)) }
{
    let Some(value) = member(tree, name) else {
        return &[];
    };
    match members_of(value) {
        Some(members) => pairs(members),
        None => &[],
    }
}

// ---- the rule on the form

fn is_part(name: &str) -> bool
    ensures { IsTrue result ↔ ((name.now ≡ codes "agents") ⊎ (name.now ≡ codes "variables")) }
{
    name == "agents" || name == "variables"
}

fn is_part_member(pair: &Pair) -> bool
    ensures { IsTrue result ↔ (((pair_data pair.now).0 ≡ codes "agents") ⊎ ((pair_data pair.now).0 ≡ codes "variables")) }
{
    is_part(pair.name.text())
}

fn are_parts(members: &[Pair]) -> bool
    ensures { IsTrue result ↔ All (λ m. (m.0 ≡ codes "agents") ⊎ (m.0 ≡ codes "variables")) (map pair_data members.now) }
{
    for pair in members {
        if !is_part_member(pair) {
            return false;
        }
    }
    true
}

// Whether a value is an object that has at most `agents` and `variables`.
fn has_parts(value: &Tree) -> bool
    ensures { IsTrue result ↔ ObjectWith (λ name _. (name ≡ codes "agents") ⊎ (name ≡ codes "variables")) (data_of value.now) }
{
    let Some(members) = members_of(value) else {
        return false;
    };
    let members = pairs(members);
    are_parts(members)
}

fn is_filter(value: &Tree) -> bool
    ensures { IsTrue result ↔ IsFilter (data_of value.now) }
{
    match whole_of(value) {
        Some(number) => 1 <= number && number <= LAST_FILTER,
        None => false,
    }
}

fn is_id(alloc: Global, text: &str) -> Result<bool, AllocError>
    ensures { IfOk result (λ fits. IsTrue fits ↔ IsId text.now) }
{
    let id = Id::read(alloc, text)?;
    Ok(id.is_some())
}

// Whether a member binds a filter to an identifier.
fn binds_filter(alloc: Global, pair: &Pair) -> Result<bool, AllocError>
    ensures { IfOk result (λ fits. IsTrue fits ↔ (IsId (pair_data pair.now).0 × IsFilter (pair_data pair.now).1)) }
{
    let has_id = is_id(alloc, pair.name.text())?;
    Ok(has_id && is_filter(&pair.tree))
}

fn bind_filters(alloc: Global, members: &[Pair]) -> Result<bool, AllocError>
    ensures { IfOk result (λ fits. IsTrue fits ↔ All (λ m. IsId m.0 × IsFilter m.1) (map pair_data members.now)) }
{
    for pair in members {
        if !binds_filter(alloc, pair)? {
            return Ok(false);
        }
    }
    Ok(true)
}

fn is_filter_table(alloc: Global, value: &Tree) -> Result<bool, AllocError>
    ensures { IfOk result (λ fits. IsTrue fits ↔ ObjectWith (λ name filter. IsId name × IsFilter filter) (data_of value.now)) }
{
    let Some(members) = members_of(value) else {
        return Ok(false);
    };
    let fits = bind_filters(alloc, pairs(members))?;
    Ok(fits)
}

fn may_bind_filters(alloc: Global, tree: &Tree) -> Result<bool, AllocError>
    ensures { IfOk result (λ fits. IsTrue fits ↔ MayHave (codes "agents") (ObjectWith (λ name filter. IsId name × IsFilter filter)) (data_of tree.now)) }
{
    let Some(value) = member(tree, "agents") else {
        return Ok(true);
    };
    let fits = is_filter_table(alloc, value)?;
    Ok(fits)
}

fn is_short_text(value: &Tree) -> bool
    ensures { IsTrue result ↔ TextFits (IsShort 4096) (data_of value.now) }
{
    match text_of(value) {
        Some(text) => text.text().len() <= MOST_TEXT,
        None => false,
    }
}

// Whether a member binds a text to a variable.
fn binds_text(pair: &Pair) -> bool
    ensures { IsTrue result ↔ (IsName (pair_data pair.now).0 × TextFits (IsShort 4096) (pair_data pair.now).1) }
{
    Name::fits(pair.name.text()) && is_short_text(&pair.tree)
}

fn bind_texts(members: &[Pair]) -> bool
    ensures { IsTrue result ↔ All (λ m. IsName m.0 × TextFits (IsShort 4096) m.1) (map pair_data members.now) }
{
    for pair in members {
        if !binds_text(pair) {
            return false;
        }
    }
    true
}

fn is_text_table(value: &Tree) -> bool
    ensures { IsTrue result ↔ ObjectWith (λ name text. IsName name × TextFits (IsShort 4096) text) (data_of value.now) }
{
    let Some(members) = members_of(value) else {
        return false;
    };
    bind_texts(pairs(members))
}

fn may_bind_texts(tree: &Tree) -> bool
    ensures { IsTrue result ↔ MayHave (codes "variables") (ObjectWith (λ name text. IsName name × TextFits (IsShort 4096) text)) (data_of tree.now) }
{
    match member(tree, "variables") {
        Some(value) => is_text_table(value),
        None => true,
    }
}

fn is_well_formed(alloc: Global, tree: &Tree) -> Result<bool, AllocError>
    ensures { IfOk result (λ kept. IsTrue kept ↔ B1 (data_of tree.now)) }
{
    let has_parts = has_parts(tree);
    let has_agents = may_bind_filters(alloc, tree)?;
    let has_variables = may_bind_texts(tree);
    Ok(has_parts && has_agents && has_variables)
}

// ---- what is bound

// The number of a filter.
fn filter_number(value: &Tree) -> u8
    requires { IsFilter (data_of value.now) }
    ensures { result ≡ unwrap_or (option_map nat_abs (whole (data_of value.now))) 0 }
{
    match whole_of(value) {
        Some(number) => number as u8,
        None => 0,
    }
}

fn read_agent(alloc: Global, pair: &Pair) -> Result<(Text, u8), AllocError>
    requires { IsFilter (pair_data pair.now).1 }
    ensures { IfOk result (λ bound. bound ≡ ((pair_data pair.now).0, unwrap_or (option_map nat_abs (whole (pair_data pair.now).1)) 0)) }
{
    let name = Text::from_str(alloc, pair.name.text())?;
    Ok((name, filter_number(&pair.tree)))
}

fn read_agents(alloc: Global, tree: &Tree) -> Result<Vec<(Text, u8)>, AllocError>
    requires { B1 (data_of tree.now) }
    ensures agents { IfOk result (λ agents. agents.items ≡ agents_in (data_of tree.now)) }
    ensures order { IfOk result (λ agents. AreInOrder agents.items) }
{
    let mut agents = Vec::new(alloc);
    for pair in members_under(tree, "agents") {
        agents.push(read_agent(alloc, pair)?)?;
    }
    Ok(agents)
}

// The text, and the empty one where the value is none.
fn text_or_empty(value: &Tree) -> &str
    ensures { result.now ≡ text_of_data (data_of value.now) }
{
    match text_of(value) {
        Some(text) => text.text(),
        None => "",
    }
}

fn read_variable(alloc: Global, pair: &Pair) -> Result<(Name, Word), AllocError>
    requires { IsName (pair_data pair.now).0 }
    ensures { IfOk result (λ bound. bound ≡ ((pair_data pair.now).0, text_of_data (pair_data pair.now).1)) }
{
    let name = Name::new(alloc, pair.name.text())?;
    let text = Word::new(alloc, text_or_empty(&pair.tree))?;
    Ok((name, text))
}

fn read_variables(alloc: Global, tree: &Tree) -> Result<Vec<(Name, Word)>, AllocError>
    requires { B1 (data_of tree.now) }
    ensures { IfOk result (λ variables. variables.items ≡ variables_in (data_of tree.now)) }
{
    let mut variables = Vec::new(alloc);
    for pair in members_under(tree, "variables") {
        variables.push(read_variable(alloc, pair)?)?;
    }
    Ok(variables)
}

// ---- the rules on variables

// Whether a variable is declared as external.
fn is_external(vars: &Vars, name: &Name) -> bool
    ensures { IsTrue result ↔ IsSomeAnd (declared vars.now name.now) (λ var. IsTrue var.external) }
{
    match vars.find(name) {
        Some(var) => var.external,
        None => false,
    }
}

fn are_external(vars: &Vars, variables: &[(Name, Word)]) -> bool
    ensures { IsTrue result ↔ All (λ entry. IsSomeAnd (declared vars.now entry.0) (λ var. IsTrue var.external)) variables.now }
{
    for bound in variables {
        if !is_external(vars, &bound.0) {
            return false;
        }
    }
    true
}

// Whether a text fits the kind of a variable, if it is declared.
fn fits_variable(vars: &Vars, name: &Name, text: &Word) -> bool
    ensures { IsTrue result ↔ IfSome (declared vars.now name.now) (λ var. FitsKind var.kind text.now) }
{
    match vars.find(name) {
        Some(var) => value_fits(&var.kind, text.text()),
        None => true,
    }
}

fn fit_variables(vars: &Vars, variables: &[(Name, Word)]) -> bool
    ensures { IsTrue result ↔ All (λ entry. IfSome (declared vars.now entry.0) (λ var. FitsKind var.kind entry.1)) variables.now }
{
    for bound in variables {
        if !fits_variable(vars, &bound.0, &bound.1) {
            return false;
        }
    }
    true
}

/// What the tree of bindings binds, or the least of the rules B1 to B3 that it breaks, where the first playbook declares these
/// variables.
pub(crate) fn read_bound(alloc: Global, tree: &Tree, vars: &Vars) -> Result<Bound, SetupError>
    ensures agents { IfOk result (λ bound. bound.agents.items ≡ agents_in (data_of tree.now)) }
    ensures order { IfOk result (λ bound. AreInOrder bound.agents.items) }
    ensures variables { IfOk result (λ bound. bound.variables.items ≡ variables_in (data_of tree.now)) }
    ensures kept { OnOk result ((rule : BindRule) → KeepsBind FitsKind vars.now (data_of tree.now) rule) }
    ensures broken { IfErr result (RefusesBindings vars.now (data_of tree.now)) }
{
    if !is_well_formed(alloc, tree)? {
        return Err(SetupError::Bind { rule: 1 });
    }
    let agents = read_agents(alloc, tree)?;
    let variables = read_variables(alloc, tree)?;
    if !are_external(vars, variables.as_slice()) {
        return Err(SetupError::Bind { rule: 2 });
    }
    if !fit_variables(vars, variables.as_slice()) {
        return Err(SetupError::Bind { rule: 3 });
    }
    Ok(Bound { agents, variables })
}
