// Conditions as texts.
ghost use Rattle.std.specs.Prelude.{◌≡◌, ◌++◌, IfOk, OnOk, codes};
ghost use Rattle.cacao_vars.specs.Names.{IsName};
ghost use Rattle.cacao_cond.specs.Grammar.{Spells, escaped};
ghost use Rattle.cacao_cond.specs.Trees.{constants_of, tree_of, all_of_tree, prime_tree};
ghost use Rattle.cacao_cond.specs.Printing.{printed_op, printed_constant, printed_compared, printed_among, printed_constants, printed, printed_all, printed_prime, IsFitConstant, AreFit, IsFit, IsFitAll, IsFitPrime};

use crate::trees::{AllOf, Cond, Constant, Constants, Op, Prime};
use cacao_vars::Name;
use itoa::Buffer;
use std::alloc::{AllocError, Global};
use std::marker::Model;

/// The text of a condition, seen as its bytes.
#[derive(Drop)]
pub struct CondText {
    bytes: Vec<u8>,
}

impl Model for CondText {
    ghost use Rattle.std.specs.Prelude.{List, ℕ};

    ghost Value = { List ℕ };

    ghost view = { λ text. text.bytes.items };
}

impl CondText {
    /// The bytes of the text. It takes no memory.
    pub fn as_slice(&self) -> &[u8]
        ensures { result.now ≡ self.now }
    {
        self.bytes.as_slice()
    }
}

/// The text of a condition: one space on each side of an operator, of `IN`, `AND` and `OR`, a comma and a space
/// between constants, and no other space.
pub fn print_cond(alloc: Global, cond: &Cond) -> Result<CondText, AllocError>
    ensures exact { IfOk result (λ text. text ≡ printed (tree_of cond.now)) }
    ensures spelled { IfOk result (λ text. Spells (tree_of cond.now) text) }
{
    let mut bytes = Vec::new(alloc);
    print_any(cond, &mut bytes)?;
    Ok(CondText { bytes })
}

fn sign(op: Op) -> &'static [u8]
    ensures { result.now ≡ printed_op op }
{
    match op {
        Op::Equal => b"=",
        Op::Unequal => b"!=",
        Op::Less => b"<",
        Op::AtMost => b"<=",
        Op::More => b">",
        Op::AtLeast => b">=",
    }
}

fn print_escaped(text: &[u8], out: &mut Vec<u8>) -> Result<(), AllocError>
    ensures { OnOk result (out.new.items ≡ out.old.items ++ escaped text.now) }
{
    for byte in text {
        if *byte == b'\'' || *byte == b'\\' {
            out.push(b'\\')?;
        }
        out.push(*byte)?;
    }
    Ok(())
}

fn print_constant(constant: &Constant, out: &mut Vec<u8>) -> Result<(), AllocError>
    ensures text { OnOk result (out.new.items ≡ out.old.items ++ printed_constant constant.now) }
    ensures fit { OnOk result (IsFitConstant constant.now) }
{
    match constant {
        Constant::Whole(value) => {
            let mut buffer = Buffer::new();
            out.extend_from_slice(buffer.format(*value).as_bytes())
        }
        Constant::Flag(true) => out.extend_from_slice(b"true"),
        Constant::Flag(false) => out.extend_from_slice(b"false"),
        Constant::Text(word) => {
            let text = word.text();
            out.push(b'\'')?;
            print_escaped(text.as_bytes(), out)?;
            out.push(b'\'')?;
            Ok(())
        }
    }
}

fn print_constants(constants: &Constants, out: &mut Vec<u8>) -> Result<(), AllocError>
    ensures text { OnOk result (out.new.items ≡ out.old.items ++ printed_constants (constants_of constants.now)) }
    ensures fit { OnOk result (AreFit (constants_of constants.now)) }
{
    match constants {
        Constants::Last(constant) => print_constant(constant, out),
        Constants::More(constant, rest) => {
            print_constant(constant, out)?;
            out.extend_from_slice(b", ")?;
            print_constants(rest, out)
        }
    }
}

fn print_compared(
    name: &Name,
    op: Op,
    constant: &Constant,
    out: &mut Vec<u8>,
) -> Result<(), AllocError>
    ensures text { OnOk result (out.new.items ≡ out.old.items ++ printed_compared name.now op constant.now) }
    ensures fit { OnOk result (IsName name.now × IsFitConstant constant.now) }
{
    out.extend_from_slice(name.text().as_bytes())?;
    out.extend_from_slice(b":value ")?;
    out.extend_from_slice(sign(op))?;
    out.extend_from_slice(b" ")?;
    print_constant(constant, out)
}

fn print_opening(name: &Name, out: &mut Vec<u8>) -> Result<(), AllocError>
    ensures text { OnOk result (out.new.items ≡ out.old.items ++ (name.now ++ codes ":value IN (")) }
    ensures fit { OnOk result (IsName name.now) }
{
    out.extend_from_slice(name.text().as_bytes())?;
    out.extend_from_slice(b":value IN (")?;
    Ok(())
}

fn print_among(name: &Name, constants: &Constants, out: &mut Vec<u8>) -> Result<(), AllocError>
    ensures text { OnOk result (out.new.items ≡ out.old.items ++ printed_among name.now (constants_of constants.now)) }
    ensures fit { OnOk result (IsName name.now × AreFit (constants_of constants.now)) }
{
    print_opening(name, out)?;
    print_constants(constants, out)?;
    out.extend_from_slice(b")")?;
    Ok(())
}

#[cycle(printing)]
fn print_any(cond: &Cond, out: &mut Vec<u8>) -> Result<(), AllocError>
    ensures text { OnOk result (out.new.items ≡ out.old.items ++ printed (tree_of cond.now)) }
    ensures fit { OnOk result (IsFit (tree_of cond.now)) }
{
    match cond {
        Cond::Last(part) => print_all(part, out),
        Cond::Or(part, rest) => {
            print_all(part, out)?;
            out.extend_from_slice(b" OR ")?;
            print_any(rest, out)
        }
    }
}

#[cycle(printing)]
fn print_all(all: &AllOf, out: &mut Vec<u8>) -> Result<(), AllocError>
    ensures text { OnOk result (out.new.items ≡ out.old.items ++ printed_all (all_of_tree all.now)) }
    ensures fit { OnOk result (IsFitAll (all_of_tree all.now)) }
{
    match all {
        AllOf::Last(prime) => print_prime(prime, out),
        AllOf::And(prime, rest) => {
            print_prime(prime, out)?;
            out.extend_from_slice(b" AND ")?;
            print_all(rest, out)
        }
    }
}

#[cycle(printing)]
fn print_prime(prime: &Prime, out: &mut Vec<u8>) -> Result<(), AllocError>
    ensures text { OnOk result (out.new.items ≡ out.old.items ++ printed_prime (prime_tree prime.now)) }
    ensures fit { OnOk result (IsFitPrime (prime_tree prime.now)) }
{
    match prime {
        Prime::Group(cond) => {
            out.extend_from_slice(b"(")?;
            print_any(cond, out)?;
            out.extend_from_slice(b")")?;
            Ok(())
        }
        Prime::Compare { name, op, constant } => print_compared(name, *op, constant, out),
        Prime::Among { name, constants } => print_among(name, constants, out),
    }
}
