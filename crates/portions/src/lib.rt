// The state of a file that comes in portions, and whether it can go on: any numbers may come from a caller. The file's lines are judged as
// they come, so no more is held than what the pass knows between two lines, the first 256 pairs, and what is kept of the line that has not
// ended. `portions_opening`, `portions_adding` and `answering` have the three open jobs on it; a state that is not open (closed, or with
// numbers that no call leaves) answers 18 and stays as it is. Read specs/States.antt: what a state holds is said by the file that came
// (`Holds`). Stands on `going` for the body in pieces.
#![tactic(auto)]

use going::Going;

pub mod usable;

// A file of which a part has come: what is known of its body, the terms, how many bytes came (those behind the end mark too, but no
// more than 10,000,001 are counted), whether an end mark is among them, and whether more may come.
#[derive(Clone, Copy)]
pub struct Portions {
    pub going: Going,
    pub code: u32,
    pub day: u32,
    pub bytes: u32,
    pub seen: bool,
    pub takes: bool,
}
