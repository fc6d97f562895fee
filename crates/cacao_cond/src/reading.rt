// The reader of conditions.
ghost use Rattle.std.specs.Prelude.{◌≡◌, false, ◌*◌, ◌≤◌, ◌<◌, Some, None, IfOk, IsErrOf, length};
ghost use Rattle.cacao_cond.specs.Trees.{AnyTree, constants_of, tree_of, all_of_tree, prime_tree};
ghost use Rattle.cacao_cond.specs.Grammar.{Spells};
ghost use Rattle.cacao_cond.specs.Reading.{Gives, quoted, text_of, constant_at, constants_at, compared_at, among_at, comparison_at, or_behind, and_behind, group_behind, named_at, any_at, all_at, prime_at, condition_at};
ghost use Rattle.cacao_vars.specs.Names.{IsName};

use crate::errors::CondError;
use crate::tokens;
use crate::trees::{AllOf, Cond, Constant, Constants, Op, Prime};
use cacao_vars::{Name, Word};
use std::alloc::Global;

// The text up to the closing quotation mark.
fn read_quoted(alloc: Global, text: &[u8]) -> Result<(Vec<u8>, &[u8]), CondError>
    ensures { Gives (λ r. (r.0.items, r.1.now)) result (quoted false text.now) }
{
    let mut word = Vec::new(alloc);
    let mut is_escaped = false;
    for (place, byte) in text.iter().enumerate() {
        if is_escaped {
            if *byte != b'\'' && *byte != b'\\' {
                return Err(CondError::Grammar);
            }
            word.push(*byte)?;
            is_escaped = false;
        } else if *byte == b'\'' {
            return Ok((word, &text[place + 1..]));
        } else if *byte == b'\\' {
            is_escaped = true;
        } else {
            word.push(*byte)?;
        }
    }
    Err(CondError::Grammar)
}

// The constant of these characters, if they are a text.
fn text_constant(word: Vec<u8>, rest: &[u8]) -> Result<(Constant, &[u8]), CondError>
    ensures { Gives (λ r. (r.0, r.1.now)) result (text_of (word.items, rest.now)) }
{
    match String::from_utf8(word) {
        Ok(word) => Ok((Constant::Text(Word::from_string(word)), rest)),
        Err(_) => Err(CondError::Grammar),
    }
}

// The constant at the front.
fn read_constant(alloc: Global, text: &[u8]) -> Result<(Constant, &[u8]), CondError>
    ensures { Gives (λ r. (r.0, r.1.now)) result (constant_at text.now) }
{
    if tokens::begins_with(b'\'', text) {
        let (word, rest) = read_quoted(alloc, &text[1..])?;
        return text_constant(word, rest);
    }
    if text.starts_with(b"true") {
        return Ok((Constant::Flag(true), &text[4..]));
    }
    if text.starts_with(b"false") {
        return Ok((Constant::Flag(false), &text[5..]));
    }
    match tokens::whole(text) {
        Some((value, rest)) => Ok((Constant::Whole(value), rest)),
        None => Err(CondError::Grammar),
    }
}

// One or more constants with commas between them.
fn read_constants(
    alloc: Global,
    levels: usize,
    text: &[u8],
) -> Result<(Constants, &[u8]), CondError>
    ensures { Gives (λ r. (constants_of r.0, r.1.now)) result (constants_at levels text.now) }
{
    if levels == 0 {
        return Err(CondError::Grammar);
    }
    let (first, rest) = read_constant(alloc, text)?;
    match tokens::behind_word(b",", tokens::skip(rest)) {
        None => Ok((Constants::Last(first), rest)),
        Some(rest) => {
            let (others, rest) = read_constants(alloc, levels - 1, tokens::skip(rest))?;
            Ok((Constants::More(first, Box::new(alloc, others)?), rest))
        }
    }
}

// A text of 2,048 bytes can open 2,048 parentheses, and the stack is 8 MiB. So each function on the way into a parenthesis
// calls the next one and hands what it read to another function, and keeps little on the stack meanwhile.

// One or more parts with `OR` between them.
#[cycle(reading)]
fn read_any(alloc: Global, levels: usize, text: &[u8]) -> Result<(Cond, &[u8]), CondError>
    ensures { Gives (λ r. (tree_of r.0, r.1.now)) result (any_at levels text.now) }
{
    if levels == 0 {
        return Err(CondError::Grammar);
    }
    let (first, rest) = read_all(alloc, levels - 1, text)?;
    read_or(alloc, levels - 1, first, rest)
}

// Behind a part: `OR` and others, or nothing more.
#[cycle(reading)]
fn read_or(
    alloc: Global,
    levels: usize,
    first: AllOf,
    text: &[u8],
) -> Result<(Cond, &[u8]), CondError>
    ensures { Gives (λ r. (tree_of r.0, r.1.now)) result (or_behind (any_at levels) (all_of_tree first, text.now)) }
{
    match tokens::behind_connective(b"OR", text) {
        None => Ok((Cond::Last(first), text)),
        Some(rest) => {
            let (others, rest) = read_any(alloc, levels, rest)?;
            Ok((Cond::Or(first, Box::new(alloc, others)?), rest))
        }
    }
}

// One or more parts with `AND` between them.
#[cycle(reading)]
fn read_all(alloc: Global, levels: usize, text: &[u8]) -> Result<(AllOf, &[u8]), CondError>
    ensures { Gives (λ r. (all_of_tree r.0, r.1.now)) result (all_at levels text.now) }
{
    if levels == 0 {
        return Err(CondError::Grammar);
    }
    let (first, rest) = read_prime(alloc, levels - 1, text)?;
    read_and(alloc, levels - 1, first, rest)
}

// Behind a part: `AND` and others, or nothing more.
#[cycle(reading)]
fn read_and(
    alloc: Global,
    levels: usize,
    first: Prime,
    text: &[u8],
) -> Result<(AllOf, &[u8]), CondError>
    ensures { Gives (λ r. (all_of_tree r.0, r.1.now)) result (and_behind (all_at levels) (prime_tree first, text.now)) }
{
    match tokens::behind_connective(b"AND", text) {
        None => Ok((AllOf::Last(first), text)),
        Some(rest) => {
            let (others, rest) = read_all(alloc, levels, rest)?;
            Ok((AllOf::And(first, Box::new(alloc, others)?), rest))
        }
    }
}

// A condition in parentheses, or a comparison.
#[cycle(reading)]
fn read_prime(alloc: Global, levels: usize, text: &[u8]) -> Result<(Prime, &[u8]), CondError>
    ensures { Gives (λ r. (prime_tree r.0, r.1.now)) result (prime_at levels text.now) }
{
    if levels == 0 {
        return Err(CondError::Grammar);
    }
    if tokens::begins_with(b'(', text) {
        let (inner, rest) = read_any(alloc, levels - 1, tokens::skip(&text[1..]))?;
        return close(alloc, inner, rest);
    }
    read_named(alloc, levels - 1, text)
}

// Behind a condition in parentheses: the closing one.
fn close(alloc: Global, inner: Cond, text: &[u8]) -> Result<(Prime, &[u8]), CondError>
    ensures { Gives (λ r. (prime_tree r.0, r.1.now)) result (group_behind (tree_of inner, text.now)) }
{
    match tokens::behind_word(b")", tokens::skip(text)) {
        Some(rest) => Ok((Prime::Group(Box::new(alloc, inner)?), rest)),
        None => Err(CondError::Grammar),
    }
}

// A comparison, from its name on.
fn read_named(alloc: Global, levels: usize, text: &[u8]) -> Result<(Prime, &[u8]), CondError>
    ensures { Gives (λ r. (prime_tree r.0, r.1.now)) result (named_at levels text.now) }
{
    match tokens::reference(text) {
        Some((name, rest)) => read_comparison(alloc, levels, name, rest),
        None => Err(CondError::Grammar),
    }
}

/// The condition that a text spells, of at most 2,048 bytes. `Grammar` comes where it spells none, also where it
/// is no UTF-8.
pub fn read_cond(alloc: Global, text: &[u8]) -> Result<Cond, CondError>
    requires { length text.now ≤ 2048 }
    ensures spelled { IfOk result (λ cond. Spells (tree_of cond) text.now) }
    ensures grammar { IsErrOf result CondError.Grammar → (tree : AnyTree) → ¬ (Spells tree text.now) }
    ensures only { (tree : AnyTree) → Spells tree text.now → IfOk result (λ cond. tree_of cond ≡ tree) }
{
    read_condition(alloc, text)
}

// The same by the steps of `Reading`. The calls count down from three times the length, which is enough for each text of
// the grammar.
fn read_condition(alloc: Global, text: &[u8]) -> Result<Cond, CondError>
    requires { length text.now ≤ 2048 }
    ensures { Gives tree_of result (condition_at (3 * length text.now) text.now) }
{
    let (cond, rest) = read_any(alloc, 3 * text.len(), tokens::skip(text))?;
    if !tokens::skip(rest).is_empty() {
        return Err(CondError::Grammar);
    }
    Ok(cond)
}

// Behind a name: an operator and a constant, or `IN` and constants in parentheses.
fn read_comparison<'a>(
    alloc: Global,
    levels: usize,
    name: &str,
    text: &'a [u8],
) -> Result<(Prime, &'a [u8]), CondError>
    requires { IsName name.now }
    ensures { Gives (λ r. (prime_tree r.0, r.1.now)) result (comparison_at levels (name.now, text.now)) }
{
    match tokens::operator(tokens::skip(text)) {
        Some((op, rest)) => read_compared(alloc, name, op, rest),
        None => read_among(alloc, levels, name, text),
    }
}

// Behind a name and an operator: a constant.
fn read_compared<'a>(
    alloc: Global,
    name: &str,
    op: Op,
    text: &'a [u8],
) -> Result<(Prime, &'a [u8]), CondError>
    requires { IsName name.now }
    ensures { Gives (λ r. (prime_tree r.0, r.1.now)) result (compared_at name.now op text.now) }
{
    let (constant, rest) = read_constant(alloc, tokens::skip(text))?;
    let name = Name::new(alloc, name)?;
    Ok((Prime::Compare { name, op, constant }, rest))
}

// Behind a name: `IN` and constants in parentheses.
fn read_among<'a>(
    alloc: Global,
    levels: usize,
    name: &str,
    text: &'a [u8],
) -> Result<(Prime, &'a [u8]), CondError>
    requires { IsName name.now }
    ensures { Gives (λ r. (prime_tree r.0, r.1.now)) result (among_at levels name.now text.now) }
{
    let Some(rest) = tokens::opening(text) else {
        return Err(CondError::Grammar);
    };
    let (constants, rest) = read_constants(alloc, levels, rest)?;
    let Some(rest) = tokens::behind_word(b")", tokens::skip(rest)) else {
        return Err(CondError::Grammar);
    };
    let name = Name::new(alloc, name)?;
    Ok((Prime::Among { name, constants }, rest))
}
