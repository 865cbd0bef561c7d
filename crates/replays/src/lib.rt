// What a replay and the view writer answer (document 01, "Files"). What they do is the definitions in specs/.
#![tactic(auto)]

use formats::FileAnswer;
use rules::Machine;

// What a replay answers: counts and state stand beside every number (document 01), so no Result.
#[derive(Clone, Copy)]
pub struct Replayed {
    pub answer: FileAnswer,
    pub place: usize,
    pub taken: u32,
    pub accesses: u32,
    pub refused: u32,
    pub machine: Machine,
}

// The counts of a replay under way.
#[derive(Clone, Copy)]
pub struct Counts {
    pub taken: u32,
    pub accesses: u32,
    pub refused: u32,
}

// What the view writer answers, each with document 01's number, which `write_number` of specs/Writes gives.
#[derive(Clone, Copy, PartialEq, Eq)]
pub enum WriteAnswer {
    Done = 0,
    NotShaped = 1,
    TooShort = 17,
}

// What the view writer answers, with the bytes written, 0 on a refusal (document 01): so no Result.
#[derive(Clone, Copy)]
pub struct Written {
    pub answer: WriteAnswer,
    pub bytes: usize,
}
