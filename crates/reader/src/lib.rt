// The view reader: number, place, n and the views of a view file (document 01, "Files"). Functions take a file and a place, as in `files`.
#![tactic(auto)]

ghost use Rattle.std.specs.Prelude.{◌≡◌, ◌+◌, ◌≤◌, length};
ghost use Rattle.formats.specs.Views.{none_of};
ghost use Rattle.formats.specs.ViewFile.{tested_at, values_read, with_view, refused_at, read_from, read_of};

use formats::{FileAnswer, ViewRecord, Views, ViewsRead};

// The record at a place, after the views read so far: 24 for its fixed bytes, 14, 15, 16, then 24 for its values, or the view's process and set.
#[tactic(auto, unfolding(formats::specs::ViewFile::tested_at))]
fn tested_at(s: &[u8], at: usize, v: &Views) -> Result<Option<ViewRecord>, FileAnswer>
    ensures { result ≡ tested_at s.now at v.now.n v.now.own }
{
    let Some(r) = files::view_at(s, at)? else {
        return Ok(None);
    };
    if !(1..=v.n).contains(&r.process) {
        Err(FileAnswer::NoProcess)
    } else if sets::has(v.own, r.process) {
        Err(FileAnswer::SecondView)
    } else if !sets::within(r.set, sets::first(v.n)) {
        Err(FileAnswer::NamesAbove)
    } else if !files::body_fits(s, at, 5 + 4 * (sets::size(r.set) as usize)) {
        Err(FileAnswer::BodyCut)
    } else {
        Ok(Some(r))
    }
}

// No views, of n processes.
fn none_of(n: u32) -> Views
    ensures { result ≡ none_of n }
{
    Views {
        n,
        own: 0,
        seen: [0; 32],
        values: [0; 1024],
    }
}

// Refused at the record that stands at a place: n = 0 and no views.
fn refused(s: &[u8], a: FileAnswer, at: usize) -> ViewsRead
    ensures { result ≡ refused_at s.now a at }
{
    ViewsRead {
        answer: a,
        place: files::place_of(a, at, s.len()),
        views: none_of(0),
    }
}

// Stores the values of a view's members, which stand from a place on, ascending, as those of its process, which 14 has tested.
fn values_read(s: &[u8], from: usize, r: ViewRecord, values: &mut [u32; 1024])
    requires { (from ≤ length s.now) × (1 ≤ r.process) × (r.process ≤ 32) }
    ensures { values.new ≡ values_read s.now from r.process r.set 32 values.old }
{
    let row = 32 * (r.process - 1);
    let mut place = from;
    for j in 0..32 {
        if sets::has(r.set, j + 1) {
            values[(row + j) as usize] = files::word_at(s, place);
            place += 4;
        }
    }
}

// Puts one more beside the views, whose record stands at a place.
fn with_view(s: &[u8], at: usize, v: &mut Views, r: ViewRecord)
    requires { (at + 7 ≤ length s.now) × (1 ≤ r.process) × (r.process ≤ 32) }
    ensures { v.new ≡ with_view s.now at v.old r.process r.set }
{
    v.own = sets::plus(v.own, r.process);
    v.seen[(r.process - 1) as usize] = r.set;
    values_read(s, at + 7, r, &mut v.values);
}

// The records after the header, whose n is 1 to 32; a header is a number, as document 01 has it, and not a type of its own.
fn read_records(s: &[u8], n: u32) -> ViewsRead
    requires { (3 ≤ length s.now) × (n ≤ 32) }
    ensures { result ≡ read_from (length s.now) s.now 3 (none_of n) }
{
    let mut views = none_of(n);
    let mut at = 3;
    // no range counts the place: it moves by what each record is wide
    loop {
        match tested_at(s, at, &views) {
            Ok(Some(r)) => {
                with_view(s, at, &mut views, r);
                at += 7 + 4 * (sets::size(r.set) as usize);
            }
            Ok(None) => {
                return ViewsRead {
                    answer: FileAnswer::Whole,
                    place: s.len(),
                    views,
                };
            }
            Err(a) => return refused(s, a, at),
        }
    }
}

// The view reader: number, place, n and the views of a file, with the numbers 8 to 12, 14 to 16 and 24.
#[tactic(auto, using(formats::proofs::Reading::opened), unfolding(formats::specs::ViewFile::read_of))]
pub fn read(s: &[u8]) -> ViewsRead
    ensures { result ≡ read_of s.now }
{
    match files::header_of(s) {
        Ok(n) => read_records(s, n),
        Err(a) => refused(s, a, 0),
    }
}
