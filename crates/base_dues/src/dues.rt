// A set of numbers with moments.
ghost use Rattle.std.specs.Prelude.{◌≡◌, ℕ, ◌+◌, ◌<◌, ◌≤◌, ◌==◌, [], length, OnOk, Some, None, slice_get, if◌then◌else◌};
ghost use Rattle.base_dues.specs.Pairs.{at, with_due, without, least_by, IsFirstBy, IsQueue};

use crate::least::{
    add_block, first_below, first_of_all, is_alone, least_of_all, only_by, put, recount,
};
use crate::moments::Moments;
use std::alloc::{AllocError, Global};
use std::marker::Model;

/// A set of numbers (of tasks or of issues), each with a moment in milliseconds. Contracts see it as the list of its pairs of
/// a moment and a number in rising order, by moment and then by number, with each number at most once, and its room: numbers
/// below it are put in without memory.
pub struct Dues {
    moments: Moments,
    // The least moment of each block of 32 numbers, of each 32 of these blocks, and of each 32 of those.
    low: Moments,
    middle: Moments,
    high: Moments,
    count: usize,
    // The number that last was the only one to have a moment.
    only: u32,
}

// (by hand, and not by derive: so a drop is one call in the proofs of all who own one)
impl Drop for Dues {
    fn drop(self) {
        let Self {
            moments: _,
            low: _,
            middle: _,
            high: _,
            count: _,
            only: _,
        } = self;
    }
}

impl Model for Dues {
    ghost use Rattle.std.specs.Prelude.{length};
    ghost use Rattle.base_dues.specs.Pairs.{Queue, listed};
    ghost use Rattle.base_dues.specs.Least.{IsKept};

    ghost Value = { Queue };

    ghost view = { λ d. record { pairs = listed d.moments; room = length d.moments } };

    ghost invariant = { λ d. IsKept d.moments d.low d.middle d.high d.count };
}

impl Dues {
    /// The empty set. It takes no memory.
    pub fn new(alloc: Global) -> Dues
        ensures pairs { result.pairs ≡ [] }
        ensures room { result.room ≡ 0 }
    {
        Dues {
            moments: Moments::new(alloc),
            low: Moments::new(alloc),
            middle: Moments::new(alloc),
            high: Moments::new(alloc),
            count: 0,
            only: 0,
        }
    }

    // Takes the room for one number more.
    fn add_number(&mut self) -> Result<(), AllocError>
        requires { self.old.room + 1 < 4294967296 }
        ensures pairs { self.new.pairs ≡ self.old.pairs }
        ensures room { self.old.room ≤ self.new.room }
        ensures ok { OnOk result (self.new.room ≡ self.old.room + 1) }
    {
        add_block(&self.middle, &mut self.high)?;
        add_block(&self.low, &mut self.middle)?;
        add_block(&self.moments, &mut self.low)?;
        self.moments.push_none()?;
        Ok(())
    }

    // Takes the room for the numbers below this one.
    fn add_numbers(&mut self, numbers: u32) -> Result<(), AllocError>
        ensures pairs { self.new.pairs ≡ self.old.pairs }
        ensures room { self.old.room ≤ self.new.room }
        ensures ok { OnOk result (numbers ≤ self.new.room) }
    {
        while self.moments.len() < numbers as usize {
            self.add_number()?;
        }
        Ok(())
    }

    /// Takes the room for the numbers below this one. The sum of what it takes is linear in the greatest number.
    pub fn reserve(&mut self, numbers: u32) -> Result<(), AllocError>
        ensures pairs { self.new.pairs ≡ self.old.pairs }
        ensures room { self.old.room ≤ self.new.room }
        ensures ok { OnOk result (numbers ≤ self.new.room) }
    {
        // (a test without a loop, which a caller has in line)
        if numbers as usize <= self.moments.len() {
            return Ok(());
        }
        self.add_numbers(numbers)
    }

    /// What holds of every set: its pairs rise, each number stands once, and all are below the room. The function does
    /// nothing; its contract is the law.
    pub fn law(&self)
        ensures queue { IsQueue self.now.pairs }
        ensures within { (n : ℕ) → self.now.room ≤ n → at self.now.pairs n ≡ None }
    {
        let _ = &self.moments;
    }

    // Gives a number another moment, or none. Where no other number has one no level is looked through.
    fn give(&mut self, number: u32, due: Option<u64>)
        requires { number < self.old.room }
        ensures each { (n : ℕ) → at self.new.pairs n ≡ (if n == number then due else at self.old.pairs n) }
        ensures queue { IsQueue self.new.pairs }
        ensures was { IsQueue self.old.pairs }
        ensures room { self.new.room ≡ self.old.room }
    {
        let place = number as usize;
        self.count = recount(self.count, self.moments.get(place), due);
        let block = place / 32;
        let group = block / 32;
        if is_alone(self.count, due) {
            self.moments.set(place, due);
            self.low.set(block, due);
            self.middle.set(group, due);
            self.high.set(group / 32, due);
            self.only = number;
            return;
        }
        let low = put(&mut self.moments, &self.low, place, due);
        let middle = put(&mut self.low, &self.middle, block, low);
        let high = put(&mut self.middle, &self.high, group, middle);
        self.high.set(group / 32, high);
    }

    /// Gives a number this moment, whatever it had. It takes no memory.
    pub fn insert(&mut self, moment: u64, number: u32)
        requires { number < self.old.room }
        ensures pairs { self.new.pairs ≡ with_due (without self.old.pairs number) (moment, number) }
        ensures each { (n : ℕ) → at self.new.pairs n ≡ (if n == number then Some moment else at self.old.pairs n) }
        ensures room { self.new.room ≡ self.old.room }
    {
        self.give(number, Some(moment));
    }

    /// Takes a number out, where it is in the set. It takes no memory.
    pub fn remove(&mut self, number: u32)
        ensures pairs { self.new.pairs ≡ without self.old.pairs number }
        ensures each { (n : ℕ) → at self.new.pairs n ≡ (if n == number then None else at self.old.pairs n) }
        ensures room { self.new.room ≡ self.old.room }
    {
        if number as usize >= self.moments.len() {
            return;
        }
        self.give(number, None);
    }

    /// The moment of a number, where it is in the set.
    pub fn get(&self, number: u32) -> Option<u64>
        ensures { result ≡ at self.now.pairs number }
    {
        self.moments.get(number as usize)
    }

    /// The least pair: the least moment, and the least number with it.
    pub fn first(&self) -> Option<(u64, u32)>
        ensures { result ≡ slice_get self.now.pairs 0 }
    {
        let moment = least_of_all(&self.high)?;
        let number = self.least_by(moment)?;
        Some((moment, number))
    }

    /// The least number whose moment is at most this one. Where one number alone has a moment no level is looked through.
    pub fn least_by(&self, moment: u64) -> Option<u32>
        ensures number { result ≡ least_by self.now.pairs moment }
        ensures each { IsFirstBy moment (at self.now.pairs) result }
    {
        if self.count == 1 {
            if let Some(due) = self.moments.get(self.only as usize) {
                return only_by(self.only, due, moment);
            }
        }
        let group = first_of_all(&self.high, moment);
        let block = first_below(&self.middle, &self.high, moment, group);
        let low = first_below(&self.low, &self.middle, moment, block);
        let number = first_below(&self.moments, &self.low, moment, low)?;
        Some(number as u32)
    }

    /// How many numbers are in the set.
    pub fn len(&self) -> usize
        ensures { result ≡ length self.now.pairs }
    {
        self.count
    }

    pub fn is_empty(&self) -> bool
        ensures { result ≡ (length self.now.pairs == 0) }
    {
        self.count == 0
    }
}
