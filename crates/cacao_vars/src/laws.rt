// Laws over the definitions that the contracts of this crate speak by.
ghost use Rattle.cacao_vars.specs.References.{ReferencesGoOn};
ghost use Rattle.cacao_vars.specs.Scopes.{WritesOneValue, ScopesOpen};

/// A write sets the value of its name wherever that has the same home, and no other value.
pub fn writes_one_value()
    ensures { WritesOneValue }
{}

/// A scope that is opened leaves what each name has in the others, and has what it declares, else what the scope around
/// it has.
pub fn scopes_open()
    ensures { ScopesOpen }
{}

/// The references of a text are its first one, and those of what stands behind it.
pub fn references_go_on()
    ensures { ReferencesGoOn }
{}
