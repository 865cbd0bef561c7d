// What both kinds of file share (document 01, "Files"): marks, little-endian numbers, records, and the numbers that a file call answers with. Each function
// takes a file and a place in it, as the definitions do.
#![tactic(auto)]

ghost use Rattle.std.specs.Prelude.{◌≡◌};
ghost use Rattle.formats.specs.Numbers.{file_number, place_of};
ghost use Rattle.formats.specs.Records.{word_at, mark_of, mark_at, fits, header_of, order_at, view_at};

use formats::{FileAnswer, Mark, Order, ViewRecord};

// The little-endian number of four bytes at a place, where bytes past the end count as 0.
pub fn word_at(s: &[u8], at: usize) -> u32
    ensures { result ≡ word_at s.now at }
{
    let rest = s.get(at..).unwrap_or(&[]);
    let byte = |k: usize| rest.get(k).copied().unwrap_or(0);
    u32::from_le_bytes([byte(0), byte(1), byte(2), byte(3)])
}

// The mark that two bytes are.
#[tactic(auto, unfolding(formats::specs::Records::mark_of))]
fn mark_of(x: u8, y: u8) -> Mark
    ensures { result ≡ mark_of x y }
{
    match (x, y) {
        (b'M', b'N') => Mark::Header,
        (b'E', b'N') => Mark::Enter,
        (b'S', b'T') => Mark::Step,
        (b'C', b'R') => Mark::Crash,
        (b'V', b'W') => Mark::View,
        _ => Mark::Other,
    }
}

// What stands at a record's place.
#[tactic(auto, unfolding(formats::specs::Records::mark_at))]
fn mark_at(s: &[u8], at: usize) -> Mark
    ensures { result ≡ mark_at s.now at }
{
    match s.get(at..) {
        Some([x, y, ..]) => mark_of(*x, *y),
        Some([_]) => Mark::Cut,
        _ => Mark::End,
    }
}

// The first record: 9, 11, 24 and 8, or the number of processes.
#[tactic(auto, unfolding(formats::specs::Records::header_of))]
pub fn header_of(s: &[u8]) -> Result<u32, FileAnswer>
    ensures { result ≡ header_of s.now }
{
    match mark_at(s, 0) {
        Mark::Header => match s.get(2) {
            Some(n) if (1..=32).contains(n) => Ok(u32::from(*n)),
            Some(_) => Err(FileAnswer::OutOfRange),
            None => Err(FileAnswer::BodyCut),
        },
        Mark::Cut => Err(FileAnswer::MarkCut),
        _ => Err(FileAnswer::NotHeader),
    }
}

// The record at a place has its mark and so many bytes after it. No sum wraps, whatever the place.
pub fn body_fits(s: &[u8], at: usize, body: usize) -> bool
    ensures { result ≡ fits s.now at body }
{
    match s.get(at..) {
        Some([_, _, rest @ ..]) => body <= rest.len(),
        _ => false,
    }
}

// The later record of an order file at a place: 11, 12, 10 and 24, or the order. Four arms are those of view_at, whose result has another type.
#[tactic(auto, unfolding(formats::specs::Records::order_at))]
pub fn order_at(s: &[u8], at: usize) -> Result<Option<Order>, FileAnswer>
    ensures { result ≡ order_at s.now at }
{
    match (mark_at(s, at), s.get(at..)) {
        (Mark::End, _) => Ok(None),
        (Mark::Cut, _) => Err(FileAnswer::MarkCut),
        (Mark::Header, _) => Err(FileAnswer::HeaderAgain),
        (Mark::View | Mark::Other, _) => Err(FileAnswer::OtherMark),
        (Mark::Enter, Some([_, _, process, a, b, c, d, ..])) => Ok(Some(Order::Enter {
            process: u32::from(*process),
            value: u32::from_le_bytes([*a, *b, *c, *d]),
        })),
        (Mark::Step, Some([_, _, process, ..])) => Ok(Some(Order::Step {
            process: u32::from(*process),
        })),
        (Mark::Crash, Some([_, _, process, ..])) => Ok(Some(Order::Crash {
            process: u32::from(*process),
        })),
        _ => Err(FileAnswer::BodyCut),
    }
}

// The later record of a view file at a place: 11, 12, 10 and 24, or the view's process and set.
#[tactic(auto, unfolding(formats::specs::Records::view_at))]
pub fn view_at(s: &[u8], at: usize) -> Result<Option<ViewRecord>, FileAnswer>
    ensures { result ≡ view_at s.now at }
{
    match mark_at(s, at) {
        Mark::End => Ok(None),
        Mark::Cut => Err(FileAnswer::MarkCut),
        Mark::Header => Err(FileAnswer::HeaderAgain),
        Mark::View => match s.get(at..) {
            Some([_, _, process, a, b, c, d, ..]) => Ok(Some(ViewRecord {
                process: u32::from(*process),
                set: u32::from_le_bytes([*a, *b, *c, *d]),
            })),
            _ => Err(FileAnswer::BodyCut),
        },
        _ => Err(FileAnswer::OtherMark),
    }
}

// The number of an answer.
pub fn number(a: FileAnswer) -> u32
    ensures { result ≡ file_number a }
{
    a as u32
}

// The place that is answered with it, of a file that ends at `end`: the record's own, and of a body cut off that of the first missing byte.
pub fn place_of(a: FileAnswer, at: usize, end: usize) -> usize
    ensures { result ≡ place_of a at end }
{
    match a {
        FileAnswer::BodyCut => end,
        _ => at,
    }
}
