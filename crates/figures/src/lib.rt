// Figures in a text: rows of parts (specs/Layouts.antt), and the account check, which is an open job: it takes every input and refuses by
// document 01's number. Each function promises that its result is a definition of specs/, for every input that its `requires` lets in.
// Stands on the digits of `text`, and on `laws`.
#![tactic(auto)]

pub mod accounts;
pub mod parts;
