// The checker of views, and the verdict of a view file (document 01, "Order of the checker's findings").
#![tactic(auto)]

ghost use Rattle.std.specs.Prelude.{◌≡◌, ◌≤◌};
ghost use Rattle.formats.specs.Views.{seen_by, value_by};
ghost use Rattle.text.specs.Parts.{joined};
ghost use Rattle.findings.specs.Findings.{view_in, agree, breaks};
ghost use Rattle.findings.specs.Findings.{of_one, of_ones, of_pair, of_pairs, first_finding, check_of};
ghost use Rattle.findings.specs.Verdict.{verdict_of};

use findings::{FileVerdict, Finding, Found};
use formats::{FileAnswer, Views};

// The processes that i's view names; `row` of `shape` reads a machine so.
fn seen(v: &Views, i: u32) -> u32
    ensures { result ≡ seen_by v.now i }
{
    let at = i.saturating_sub(1) as usize;
    v.seen.get(at).copied().unwrap_or(0)
}

// The value that i's view gives to process k.
fn value(v: &Views, i: u32, k: u32) -> u32
    requires { (1 ≤ i) × (i ≤ 32) × (1 ≤ k) × (k ≤ 32) }
    ensures { result ≡ value_by v.now i k }
{
    v.values[32 * (i as usize - 1) + (k as usize - 1)]
}

// The views of i and j give no process different values. This runs 32 times a pair, so the range is half open: `1..=32` tests at each step if it is spent.
fn agree(v: &Views, i: u32, j: u32) -> bool
    requires { (1 ≤ i) × (i ≤ 32) × (1 ≤ j) × (j ≤ 32) }
    ensures { result ≡ agree (view_in v.now i) (view_in v.now j) }
{
    let both = seen(v, i) & seen(v, j);
    (1..33).all(|k| !sets::has(both, k) || value(v, i, k) == value(v, j, k))
}

// What the views of i and j break first: 23, 21, 22. Where they agree, one's pairs are in the other's exactly if its processes are.
#[tactic(auto, using(findings::proofs::Agreement::breaks_agreeing, findings::proofs::Agreement::breaks_disagreeing))]
fn breaks(v: &Views, i: u32, j: u32) -> Option<Finding>
    requires { (1 ≤ i) × (i ≤ 32) × (1 ≤ j) × (j ≤ 32) }
    ensures { result ≡ first_finding (breaks (view_in v.now i) (view_in v.now j) i j) }
{
    if !agree(v, i, j) {
        return Some(Finding::Disagree);
    }
    let (x, y) = (seen(v, i), seen(v, j));
    let facing = sets::has(x, j) && sets::has(y, i);
    let (one, other) = (sets::within(x, y), sets::within(y, x));
    if !one && !other {
        Some(Finding::Apart)
    } else if facing && !(one && other) {
        Some(Finding::Unlike)
    } else {
        None
    }
}

// 20, of a process that has a view.
#[tactic(auto, unfolding(findings::specs::Findings::of_one))]
fn of_one(v: &Views, i: u32) -> Option<Found>
    ensures { result ≡ first_finding (of_one v.now i) }
{
    let finding = Finding::LacksItself;
    (sets::has(v.own, i) && !sets::has(seen(v, i), i)).then_some(Found { finding, i, j: 0 })
}

// The first finding of two processes that both have a view.
#[tactic(auto, using(findings::proofs::First::first_map), unfolding(findings::specs::Findings::of_pair))]
fn of_pair(v: &Views, i: u32, j: u32) -> Option<Found>
    ensures { result ≡ first_finding (of_pair v.now i j) }
{
    if sets::has(v.own, i) && sets::has(v.own, j) {
        breaks(v, i, j).map(|finding| Found { finding, i, j })
    } else {
        None
    }
}

// The first finding of i with the processes above it.
fn of_pairs(v: &Views, i: u32) -> Option<Found>
    requires { i ≤ 32 }
    ensures { result ≡ first_finding (of_pairs v.now i) }
{
    (i + 1..=32).find_map(|j| of_pair(v, i, j))
}

// 20, for the lowest process that has such a view.
fn of_ones(v: &Views) -> Option<Found>
    ensures { result ≡ first_finding (of_ones v.now) }
{
    (1..=32).find_map(|i| of_one(v, i))
}

// The first finding of all pairs, by i and then by j.
fn of_all_pairs(v: &Views) -> Option<Found>
    ensures { result ≡ first_finding (joined 1 32 (of_pairs v.now)) }
{
    (1..=32).find_map(|i| of_pairs(v, i))
}

// The checker: the first finding in document 01's order, if there is one.
#[tactic(auto, using(findings::proofs::First::firsts), unfolding(findings::specs::Findings::check_of, findings::specs::Findings::findings))]
pub fn check(v: &Views) -> Option<Found>
    ensures { result ≡ check_of v.now }
{
    of_ones(v).or_else(|| of_all_pairs(v))
}

// The verdict of a file: number, place, i and j, with the file's own numbers first.
#[tactic(auto, unfolding(findings::specs::Verdict::verdict_of))]
pub fn verdict(s: &[u8]) -> FileVerdict
    ensures { result ≡ verdict_of s.now }
{
    let r = reader::read(s);
    // with no finding the number is the file's own: 0 of a whole file
    let none = FileVerdict {
        number: r.answer as u32,
        place: r.place,
        i: 0,
        j: 0,
    };
    if r.answer != FileAnswer::Whole {
        return none;
    }
    match check(&r.views) {
        Some(f) => FileVerdict {
            number: f.finding as u32,
            place: r.place,
            i: f.i,
            j: f.j,
        },
        None => none,
    }
}
