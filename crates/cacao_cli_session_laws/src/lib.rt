//! What the end of a session and the files, the clock and the parcels tell of each other on return. The definitions stand in
//! `specs/`, the lemmas in `proofs/`; clauses of the crates above cite them.
#![tactic(auto)]
