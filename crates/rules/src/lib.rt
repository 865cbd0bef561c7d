// The state of the machine of document 01, and what its calls answer. The rules themselves are the definitions in specs/.
#![tactic(auto)]

// Where a process stands, with what that stage needs (rule 2).
#[derive(Clone, Copy, PartialEq, Eq)]
pub enum Stage {
    Absent,
    Running { level: u32, made: u32, found: u32 },
    Finished { level: u32, view: u32 },
    Crashed { level: u32, made: u32, found: u32 },
}

#[derive(Clone, Copy)]
pub struct Process {
    pub stage: Stage,
    pub value: u32,
}

#[derive(Clone, Copy)]
pub struct Machine {
    pub n: u32,
    // row x at x - 1: the set of processes whose register there is filled; a set, as a process holds what it found (rule 5), and no Option a register
    pub filled: [u32; 32],
    // row x, register i at 32(x - 1) + (i - 1); 0 beside an empty register
    pub values: [u32; 1024],
    pub processes: [Process; 32],
}

// What a call answers, each with document 01's number, which `number_of` of specs/Calls gives.
#[derive(Clone, Copy, PartialEq, Eq)]
pub enum Answer {
    Done = 0,
    NotShaped = 1,
    NoProcess = 2,
    EnteredBefore = 3,
    NeverEntered = 4,
    HasCrashed = 5,
    HasFinished = 6,
    NoLevelBelow = 7,
    OutOfRange = 8,
}

// What a call answers, and the state, which a refused call hands back too (document 01): so no Result.
#[derive(Clone, Copy)]
pub struct Called {
    pub machine: Machine,
    pub answer: Answer,
}

// A stage by name alone.
#[derive(Clone, Copy, PartialEq, Eq)]
pub enum Standing {
    Absent,
    Running,
    Finished,
    Crashed,
}

// What a look answers. The view is a set, with the value of its process i at i - 1; 0 elsewhere, and all 0 where there is no view. A refused look gives
// absent, 0, 0 and no view (document 01): so no Result.
#[derive(Clone, Copy)]
pub struct Sight {
    pub answer: Answer,
    pub standing: Standing,
    pub level: u32,
    pub accesses: u32,
    pub view: u32,
    pub values: [u32; 32],
}
