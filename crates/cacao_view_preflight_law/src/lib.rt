//! What the program that only looks tells of a run before its first record, beside the run itself. The definitions stand in `specs/`; here
//! is the law. A law is the contract of a function that does nothing.
#![tactic(auto)]

ghost use Rattle.cacao_view_preflight_law.specs.Foretold.{ForetellsRuns};

/// Over the same files, a run without answers ends as `preflight` says, with its line and its status, before anything is done; and where
/// `preflight` refuses nothing, its session is held.
pub fn preflight_law()
    ensures foretold { ForetellsRuns }
{}
