// What one line says: kinds of lines, classes of identifiers, layouts of fields. Each function promises that its result is a definition
// of specs/, for every input. Nothing here looks past byte 64 of a line. What a field says with its continuations is defined here too
// (specs/Tails.antt); `judging` keeps it.
// Stands on `figures`, on the strings of `text`, on `ItemNo` and `Amount` of `headings`, and on `laws`.
#![tactic(auto)]

pub mod classes;
pub mod kinds;
pub mod readings;
