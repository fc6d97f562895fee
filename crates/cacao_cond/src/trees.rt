// Conditions as trees.
use cacao_vars::{Name, Word};

/// The operator of a comparison.
#[derive(Clone, Copy, PartialEq, Eq)]
pub enum Op {
    Equal,
    Unequal,
    Less,
    AtMost,
    More,
    AtLeast,
}

/// What a variable is compared with.
#[derive(Drop)]
pub enum Constant {
    Whole(i64),
    Flag(bool),
    Text(Word),
}

/// One or more constants.
#[derive(Drop)]
pub enum Constants {
    Last(Constant),
    More(Constant, Box<Constants>),
}

/// A condition: one or more parts, of which one has to hold.
#[cycle(cond)]
#[derive(Drop)]
pub enum Cond {
    Last(AllOf),
    Or(AllOf, Box<Cond>),
}

/// One or more parts, which all have to hold.
#[cycle(cond)]
#[derive(Drop)]
pub enum AllOf {
    Last(Prime),
    And(Prime, Box<AllOf>),
}

/// A condition in parentheses, or a comparison of a variable with one constant or with several.
#[cycle(cond)]
#[derive(Drop)]
pub enum Prime {
    Group(Box<Cond>),
    Compare {
        name: Name,
        op: Op,
        constant: Constant,
    },
    Among {
        name: Name,
        constants: Constants,
    },
}
