// A new rule's row over the table reached (document 02, request 8), in numbers of two words.
#![tactic(auto)]

pub mod begin;
pub mod settle;

pub use settle::draft;
