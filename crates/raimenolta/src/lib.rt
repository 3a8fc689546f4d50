// The library for callers in other languages. A function answers the number of the refusal, 0 for done; each table is lent
// as a pointer and a length, each slot as a pointer. include/raimenolta.h declares them for C.
#![tactic(auto)]

pub mod decks;
pub mod drawings;
pub mod editors;
pub mod sheets;
