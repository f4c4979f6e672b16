//! Words and lemmas on lists that belong to no other crate: no code.
//!
//! The words are in `specs/Lists`, the lemmas in the files of `proofs/`, each named for its
//! subject. `proofs/CallerLemmas` has those for other crates. It stands on no other crate. Begin with `specs/Lists`.
#![tactic(auto)]
