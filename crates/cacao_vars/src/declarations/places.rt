// Where a declaration belongs.
ghost use Rattle.std.specs.Prelude.{◌≡◌, ◌≤◌, length, insert};
ghost use Rattle.std.specs.Option.{option_copied};
ghost use Rattle.cacao_vars.specs.declared.declarations.Var.{Var};
ghost use Rattle.cacao_vars.specs.Declarations.{IsInNameOrder, declared, placed};

use super::Var;
use crate::variable_names::Name;

// The declaration of the name with these bytes.
pub fn find_in<'a>(vars: &'a [Var], name: &[u8]) -> Option<&'a Var>
    requires { IsInNameOrder vars.now }
    ensures { option_copied result ≡ declared vars.now name.now }
{
    match vars.binary_search_by(|var| var.name.text().as_bytes().cmp(name)) {
        Ok(place) => Some(&vars[place]),
        Err(_) => None,
    }
}

// The place of a name: before the first that comes after it.
pub fn place_of(vars: &[Var], name: &Name) -> usize
    ensures within { result ≤ length vars.now }
    ensures place { (new : Var) → new.name ≡ name.now → placed vars.now new ≡ insert vars.now result new }
{
    for (place, var) in vars.iter().enumerate() {
        if *name < var.name {
            return place;
        }
    }
    vars.len()
}
