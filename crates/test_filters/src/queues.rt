// Rows of a set of dues, each on what the rows before left: `new`, `put MOMENT NUMBER`, `take NUMBER`, `count` and `many COUNT`.
use crate::answers::{none, number_of, number_or_none, place_of, unknown};
use base_dues::{Dues, dues_are_one};
use std::alloc::{AllocError, Global};
use test_rows::Row;

/// The moment until which a number is looked for, in milliseconds.
const BY: u64 = 30;

/// A set of dues.
#[derive(Drop)]
pub(crate) struct Queue {
    dues: Dues,
}

fn number_text(alloc: Global, number: Option<u32>) -> Result<String, AllocError> {
    match number {
        Some(number) => format!(in alloc; "{number}"),
        None => none(alloc),
    }
}

fn pair_text(alloc: Global, pair: Option<(u64, u32)>) -> Result<String, AllocError> {
    match pair {
        Some((moment, number)) => format!(in alloc; "{moment} {number}"),
        None => none(alloc),
    }
}

impl Queue {
    /// The empty set.
    pub(crate) fn new(alloc: Global) -> Queue {
        Queue {
            dues: Dues::new(alloc),
        }
    }

    fn put(&mut self, moment: u64, number: u32) -> Result<(), AllocError> {
        if number < u32::MAX {
            self.dues.reserve(number + 1)?;
            self.dues.insert(moment, number);
        }
        Ok(())
    }

    fn first(&self, alloc: Global) -> Result<String, AllocError> {
        pair_text(alloc, self.dues.first())
    }

    /// The least pair, the least number in time, and the moment of this number.
    fn after_put(&self, alloc: Global, number: u32) -> Result<String, AllocError> {
        let first = self.first(alloc)?;
        let by = number_text(alloc, self.dues.least_by(BY))?;
        let moment = number_or_none(alloc, self.dues.get(number))?;
        format!(in alloc; "first {first}, by 30 {by}, moment {moment}")
    }

    /// The least pair, how many there are, and the moment of this number.
    fn after_take(&self, alloc: Global, number: u32) -> Result<String, AllocError> {
        let first = self.first(alloc)?;
        let count = self.dues.len();
        let moment = number_or_none(alloc, self.dues.get(number))?;
        format!(in alloc; "first {first}, count {count}, moment {moment}")
    }

    fn count(&self, alloc: Global) -> Result<String, AllocError> {
        let first = self.first(alloc)?;
        let count = self.dues.len();
        let empty = if self.dues.is_empty() { ", empty" } else { "" };
        format!(in alloc; "first {first}, count {count}{empty}")
    }

    /// Puts in so many numbers, with moments that do not rise.
    fn put_many(&mut self, count: u32) -> Result<(), AllocError> {
        for number in 0..count {
            self.put(u64::from(number) * 7_919 % 200_003, number)?;
        }
        Ok(())
    }

    /// Takes out the first of the pairs so many times: how many of them are greater than the one before.
    fn take_many(&mut self, count: u32) -> u32 {
        let mut before = (0, 0);
        let mut rising = 0u32;
        for taken in 0..count {
            let Some(pair) = self.dues.first() else {
                return rising;
            };
            if taken == 0 || before < pair {
                rising = rising.saturating_add(1);
            }
            before = pair;
            self.dues.remove(pair.1);
        }
        rising
    }

    /// Puts in so many numbers and takes them out, the first pair each time: how many there were, and how many rose.
    fn many(&mut self, alloc: Global, count: u32) -> Result<String, AllocError> {
        self.put_many(count)?;
        let held = self.dues.len();
        let rising = self.take_many(count);
        let left = self.dues.len();
        format!(in alloc; "{held} held, {rising} rising, {left} left")
    }

    /// What a row answers.
    pub(crate) fn answer(&mut self, alloc: Global, row: &Row) -> Result<String, AllocError> {
        match row.text(0) {
            "new" => {
                self.dues = Dues::new(alloc);
                self.count(alloc)
            }
            "put" => {
                let number = place_of(row.text(2));
                self.put(number_of(row.text(1)), number)?;
                self.after_put(alloc, number)
            }
            "take" => {
                let number = place_of(row.text(1));
                self.dues.remove(number);
                self.after_take(alloc, number)
            }
            "count" => {
                self.dues.law();
                dues_are_one();
                self.count(alloc)
            }
            "many" => self.many(alloc, place_of(row.text(1))),
            _ => unknown(alloc),
        }
    }
}
