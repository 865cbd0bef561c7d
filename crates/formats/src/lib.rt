// What both kinds of file hold and what a file call answers (document 01, "Files"). The formats themselves are the definitions in specs/.
#![tactic(auto)]

// What a file call answers, each with its number, which `file_number` of specs/Numbers gives. A record cut off by the end of the file breaks off in its mark,
// after one byte, or in its body.
#[derive(Clone, Copy, PartialEq, Eq)]
pub enum FileAnswer {
    Whole = 0,
    OutOfRange = 8,
    NotHeader = 9,
    OtherMark = 10,
    MarkCut = 11,
    BodyCut = 24,
    HeaderAgain = 12,
    BudgetSpent = 13,
    NoProcess = 14,
    SecondView = 15,
    NamesAbove = 16,
}

// What stands at a record's place: nothing, one byte, or a mark. An end is 9 to a header and the end to a later record, so this is no Result.
#[derive(Clone, Copy)]
pub enum Mark {
    End,
    Cut,
    Header,
    Enter,
    Step,
    Crash,
    View,
    Other,
}

// A later record of an order file.
#[derive(Clone, Copy)]
pub enum Order {
    Enter { process: u32, value: u32 },
    Step { process: u32 },
    Crash { process: u32 },
}

// A later record of a view file, up to its values.
#[derive(Clone, Copy)]
pub struct ViewRecord {
    pub process: u32,
    pub set: u32,
}

// The views of a file.
#[derive(Clone, Copy)]
pub struct Views {
    pub n: u32,
    // the set of processes that have a view
    pub own: u32,
    // process i's view at i - 1: the set of processes that it names, as a file has it; so the values stand beside
    pub seen: [u32; 32],
    // the value that process i's view gives to process j at 32(i - 1) + (j - 1); 0 beside a process that it does not name
    pub values: [u32; 1024],
}

// What reading a view file answers. A refused file gives n = 0 and no views (document 01): so no Result.
#[derive(Clone, Copy)]
pub struct ViewsRead {
    pub answer: FileAnswer,
    pub place: usize,
    pub views: Views,
}
