// The shape test of document 01 ("A state is well shaped if .."), of a machine that is lent, so that no register is copied.
#![tactic(auto)]

ghost use Rattle.std.specs.Prelude.{◌≡◌, cond, false, ◌*◌, ◌-◌, ◌≤◌, get_or, leb, MatchOption};
ghost use Rattle.rules.specs.Shape.{goes, ends, shaped_process, shaped_records, shaped};
ghost use Rattle.rules.specs.Stands.{row_of};
ghost use Rattle.shape.specs.Coded.Columns.{lowest_at, lowest_row, LowestRows, cells_good, ByRow, ReadOff, writers_of, row_good, rows_good};

use rules::{Machine, Process, Stage};

// The lowest row that a process has written after `made` accesses at its level, 33 if there is none.
fn lowest_at(level: u32, made: u32) -> u32
    ensures { result ≡ lowest_at level made }
{
    if 32 < level {
        return 33;
    }
    if made == 0 { level + 1 } else { level }
}

// The lowest row that a process at this stage has written.
fn lowest(stage: Stage) -> u32
    ensures { result ≡ lowest_row stage }
{
    match stage {
        Stage::Absent => 33,
        Stage::Running { level, made, .. } | Stage::Crashed { level, made, .. } => lowest_at(
            level, made,
        ),
        Stage::Finished { level, .. } => lowest_at(level, 1),
    }
}

// What stands in a register of a row that a process has written if `low`, the lowest that it has, is `reach` or below.
fn wanted(low: u32, own: u32, reach: u32) -> u32
    ensures { result ≡ cond (leb low reach) own 0 }
{
    if low <= reach { own } else { 0 }
}

// The registers filled in row x; none above row 32.
fn row(m: &Machine, x: u32) -> u32
    ensures { result ≡ row_of m.now x }
{
    m.filled
        .get(x.saturating_sub(1) as usize)
        .copied()
        .unwrap_or(0)
}

// A running or crashed process stands as it may. Of its accesses at its level the first is the write, the others have read.
fn goes_well(m: &Machine, level: u32, made: u32, found: u32) -> bool
    ensures { result ≡ goes m.now.n (row_of m.now) level made found }
{
    (1..=m.n).contains(&level)
        && made <= m.n
        && sets::within(found, sets::first(made.saturating_sub(1)))
        && sets::within(found, row(m, level))
}

// A finished process stands as it may.
fn ended_well(m: &Machine, level: u32, view: u32) -> bool
    ensures { result ≡ ends m.now.n (row_of m.now) level view }
{
    (1..=m.n).contains(&level) && sets::size(view) == level && sets::within(view, row(m, level))
}

// The record of process i stands as it may, against the rows' sets.
#[tactic(auto, unfolding(rules::specs::Shape::shaped_process))]
fn process_good(m: &Machine, i: u32, process: Process) -> bool
    ensures { result ≡ shaped_process m.now.n (row_of m.now) i process }
{
    match process.stage {
        Stage::Absent => process.value == 0,
        Stage::Running { level, made, found } | Stage::Crashed { level, made, found } => {
            i <= m.n && goes_well(m, level, made, found)
        }
        Stage::Finished { level, view } => i <= m.n && ended_well(m, level, view),
    }
}

// What one pass over the records gives, where each of them stands as it may. `low` and `own` are an array each, since a row is compared with all of one and
// all of the other.
#[derive(Clone, Copy)]
struct Columns {
    // For process i, at i - 1: the lowest row that it has written, 33 if none.
    low: [u32; 32],
    // For process i, at i - 1: its value.
    own: [u32; 32],
    // For row x, at x: the processes whose lowest row it is.
    buckets: [u32; 34],
    ghost lowest_rows: { LowestRows low },
    ghost by_row: { ByRow (λ k. get_or low k 0) 32 buckets },
}

impl Columns {
    // One loop for all of it, so that each record is copied once.
    #[tactic(auto, using(crate::proofs::Passes::passed_not, crate::proofs::Passes::passed_all))]
    fn read_off(m: &Machine) -> Option<Self>
        ensures { MatchOption result (shaped_records m.now.n m.now.filled m.now.processes ≡ false) (λ C. ReadOff m.now C.low C.own) }
    {
        let mut low = [0; 32];
        let mut own = [0; 32];
        let mut buckets = [0; 34];
        for i in 0..32usize {
            let process = m.processes[i];
            let id = (i + 1) as u32;
            if !process_good(m, id, process) {
                return None;
            }
            let x = lowest(process.stage);
            low[i] = x;
            own[i] = process.value;
            let at = x as usize;
            buckets[at] = sets::plus(buckets[at], id);
        }
        Some(Columns { low, own, buckets })
    }

    // The registers of row x, all of them compared, so that the loop has no way out; it has been written by those whose lowest row is `reach` or below.
    #[tactic(auto, using(crate::proofs::Passes::cells))]
    fn cells_good(&self, m: &Machine, x: u32, reach: u32) -> bool
        requires { (1 ≤ x) × (x ≤ 32) }
        ensures { result ≡ cells_good m.now.values (32 * (x - 1)) self.now.low self.now.own reach }
    {
        let base = (32 * (x - 1)) as usize;
        let mut ok = true;
        for i in 0..32usize {
            let good = m.values[base + i] == wanted(self.low[i], self.own[i], reach);
            ok = good & ok;
        }
        ok
    }

    // Row x, which `written` have written.
    #[tactic(auto, using(crate::proofs::Rows::set_numbers))]
    fn row_good(&self, m: &Machine, x: u32, written: u32) -> bool
        requires some { 1 ≤ x }
        requires most { x ≤ 32 }
        requires writers { written ≡ writers_of self.now.low x }
        ensures { result ≡ row_good m.now.n m.now.values self.now.low self.now.own (row_of m.now x) x }
    {
        if x <= m.n {
            row(m, x) == written && self.cells_good(m, x, x)
        } else {
            row(m, x) == 0 && self.cells_good(m, x, 0)
        }
    }

    // Every row, with no way out either; those who have written it are those who have written the row below, and those whose lowest row it is.
    #[tactic(auto, using(crate::proofs::Passes::rows))]
    fn rows_good(&self, m: &Machine) -> bool
        ensures { result ≡ rows_good m.now.n m.now.filled m.now.values self.now.low self.now.own }
    {
        let mut ok = true;
        let mut written = 0;
        for i in 0..32usize {
            written |= self.buckets[i + 1];
            let good = self.row_good(m, (i + 1) as u32, written);
            ok = good & ok;
        }
        ok
    }
}

// Machine m is well shaped.
#[tactic(auto, using(crate::proofs::Rows::shaped_rows), unfolding(rules::specs::Shape::shaped))]
pub fn shaped(m: &Machine) -> bool
    ensures { result ≡ shaped m.now }
{
    if !(1..=32).contains(&m.n) {
        return false;
    }
    match Columns::read_off(m) {
        None => false,
        Some(columns) => columns.rows_good(m),
    }
}
