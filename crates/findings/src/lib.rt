// What the checker of views answers. The findings themselves, in document 01's order, are the definitions in specs/.
#![tactic(auto)]

// What the checker finds, each with document 01's number, which `finding_number` of specs/Findings gives.
#[derive(Clone, Copy, PartialEq, Eq)]
pub enum Finding {
    LacksItself = 20,
    Apart = 21,
    Unlike = 22,
    Disagree = 23,
}

// A finding and the processes that it names: 20 names one, and j is 0.
#[derive(Clone, Copy)]
pub struct Found {
    pub finding: Finding,
    pub i: u32,
    pub j: u32,
}

// The verdict of a file: document 01's four numbers, of a refused file's answer or of a finding; 0 where none.
#[derive(Clone, Copy)]
pub struct FileVerdict {
    pub number: u32,
    pub place: usize,
    pub i: u32,
    pub j: u32,
}
