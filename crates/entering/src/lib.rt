// Entering an accepted file in the register of numbers used, and a new register: the open jobs of document 02, A2 and A9.
// Promised, with no `requires`: `Enters` and `Blanks` of specs/Jobs, each of which one answer and one target meet; and what is written
// is a register again. Stands on `listing` for checking, `register` for the bytes, and `adding` for the numbers of an accepted
// file.
#![tactic(auto)]

pub mod blanking;
pub mod entering;
