// The least moments of blocks of numbers.
ghost use Rattle.std.specs.Prelude.{◌≡◌, ℕ, ◌+◌, ◌*◌, ◌/◌, ◌<◌, ◌≤◌, nat_le, List, length, Option, slice_index_or, slice_set, Some, None, false, is_some, IfSome, OnOk, if◌then◌else◌};
ghost use Rattle.std.specs.Bool.{OnTrue};
ghost use Rattle.base_dues.specs.Pairs.{is_by, IsFirstBy};
ghost use Rattle.base_dues.specs.Least.{sooner, IsLeast, AreLeast, IsFirstWithin};

use crate::moments::Moments;
use std::alloc::AllocError;

// The lesser of two moments, where there are any.
fn sooner(one: Option<u64>, other: Option<u64>) -> Option<u64>
    ensures { result ≡ sooner one other }
{
    match (one, other) {
        (None, _) => other,
        (_, None) => one,
        (Some(m), Some(n)) => Some(m.min(n)),
    }
}

// Whether there is a moment, and it is at most this one.
fn is_by(due: Option<u64>, moment: u64) -> bool
    ensures { result ≡ is_by moment due }
{
    match due {
        Some(m) => m <= moment,
        None => false,
    }
}

// The least moment of the numbers from one on and below another.
pub(crate) fn least_in(moments: &Moments, from: usize, to: usize) -> Option<u64>
    requires { from ≤ to }
    ensures { IsLeast moments.now from to result }
{
    let mut least = None;
    for number in from..to {
        least = sooner(least, moments.get(number));
    }
    least
}

// The first number from one on and below another whose moment is at most this one.
fn first_by(moments: &Moments, from: usize, to: usize, moment: u64) -> Option<usize>
    requires { from ≤ to }
    ensures { IsFirstWithin moments.now from to moment result }
{
    for number in from..to {
        if is_by(moments.get(number), moment) {
            return Some(number);
        }
    }
    None
}

// The first of these moments that is at most this one.
pub(crate) fn first_of_all(moments: &Moments, moment: u64) -> Option<usize>
    ensures number { IsFirstBy moment (λ n. slice_index_or moments.now n None) result }
    ensures within { IfSome result (λ n. n < length moments.now) }
{
    first_by(moments, 0, moments.len(), moment)
}

// The first number whose moment is at most this one, by the first block whose least moment is.
pub(crate) fn first_below(
    moments: &Moments,
    least: &Moments,
    moment: u64,
    found: Option<usize>,
) -> Option<usize>
    requires tells { AreLeast moments.now least.now }
    requires few { length least.now ≤ 4294967296 }
    requires found { IsFirstBy moment (λ n. slice_index_or least.now n None) found }
    requires there { IfSome found (λ n. n < length least.now) }
    ensures number { IsFirstBy moment (λ n. slice_index_or moments.now n None) result }
    ensures within { IfSome result (λ n. n < length moments.now) }
{
    match found {
        Some(block) => first_by(moments, 32 * block, 32 * block + 32, moment),
        None => None,
    }
}

// The least of these moments.
pub(crate) fn least_of_all(least: &Moments) -> Option<u64>
    ensures { IsLeast least.now 0 (length least.now) result }
{
    least_in(least, 0, least.len())
}

// Whether a moment is no later than the one before it.
fn is_no_later(due: Option<u64>, before: Option<u64>) -> bool
    ensures { OnTrue result (sooner before due ≡ due) }
{
    match (before, due) {
        (None, _) => true,
        (Some(_), None) => false,
        (Some(before), Some(due)) => due <= before,
    }
}

// Whether a moment is later than the least one of its block.
fn is_later(due: Option<u64>, least: Option<u64>) -> bool
    ensures { OnTrue result ((m : ℕ) → least ≡ Some m → is_by m due ≡ false) }
{
    match (due, least) {
        (Some(due), Some(least)) => least < due,
        _ => false,
    }
}

// Gives a number another moment, or none. The least moment of its block is told. The block is looked through only where the
// moment before was the least one and the new one is later.
pub(crate) fn put(
    moments: &mut Moments,
    least: &Moments,
    number: usize,
    due: Option<u64>,
) -> Option<u64>
    requires within { number < length moments.old }
    requires tells { AreLeast moments.old least.now }
    requires small { length moments.old ≤ 4294967296 }
    ensures moments { moments.new ≡ slice_set moments.old number due }
    ensures block { number / 32 < length least.now }
    ensures tells { AreLeast moments.new (slice_set least.now (number / 32) result) }
{
    let block = number / 32;
    let before = moments.get(number);
    moments.set(number, due);
    let was = least.get(block);
    if is_no_later(due, before) {
        return sooner(was, due);
    }
    if is_later(before, was) {
        return sooner(was, due);
    }
    least_in(moments, 32 * block, 32 * block + 32)
}

// Adds a block for one number more, where the last one is full.
pub(crate) fn add_block(moments: &Moments, least: &mut Moments) -> Result<(), AllocError>
    requires tells { AreLeast moments.now least.old }
    requires few { length least.old ≤ 4294967296 }
    requires small { length moments.now ≤ 4294967296 }
    ensures tells { AreLeast moments.now least.new }
    ensures few { length least.new ≤ 4294967296 }
    ensures above { (above : List (Option ℕ)) → AreLeast least.old above → length least.old < 32 * length above
        → AreLeast least.new above }
    ensures ok { OnOk result (length moments.now < 32 * length least.new) }
{
    if moments.len() < 32 * least.len() {
        return Ok(());
    }
    least.push_none()?;
    Ok(())
}

// How many numbers have a moment, after one got another.
pub(crate) fn recount(count: usize, before: Option<u64>, after: Option<u64>) -> usize
    requires fits { count < 4294967296 }
    requires counted { (if is_some before then 1 else 0) ≤ count }
    ensures { result + (if is_some before then 1 else 0) ≡ count + (if is_some after then 1 else 0) }
{
    match (before, after) {
        (Some(_), None) => count - 1,
        (None, Some(_)) => count + 1,
        _ => count,
    }
}

// Whether no other number has a moment, where one got this moment, or lost its own, and so many have one then.
pub(crate) fn is_alone(count: usize, due: Option<u64>) -> bool
    ensures { OnTrue result (count ≡ (if is_some due then 1 else 0)) }
{
    match due {
        Some(_) => count == 1,
        None => count == 0,
    }
}

// The one number that has a moment, where that is at most this one.
pub(crate) fn only_by(number: u32, due: u64, moment: u64) -> Option<u32>
    ensures { result ≡ (if nat_le due moment then Some number else None) }
{
    if due <= moment { Some(number) } else { None }
}
