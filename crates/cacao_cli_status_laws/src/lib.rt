//! What each status of a call tells of the words, the files, the disk and the session, and they of it. The definitions stand in
//! `specs/`, the lemmas in `proofs/`; the clauses of the program's one call cite them.
#![tactic(auto)]
