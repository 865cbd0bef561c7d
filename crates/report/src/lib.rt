// The printed output of both programs (document 01, "Printed output"): each line is written on a page, and the page into a lent buffer.
// Each function asks for the room of a text of its own, so no type carries that for all.
#![tactic(auto)]

ghost use Rattle.std.specs.Prelude.{◌≡◌, [], ◌∷◌, ◌++◌, ◌+◌, ◌*◌, ◌≤◌, length, false};
ghost use Rattle.text.specs.Decimal.{decimal};
ghost use Rattle.output.specs.Lines.{field, fields, line, verdict_line, verdict_text, stage_word, pair, pairs_from, view, sight_line};
ghost use Rattle.output.specs.Lines.{process_line, partaking, last_line, run_line, replay_text};
ghost use Rattle.rules.specs.Shape.{Shaped};
ghost use Rattle.text.specs.Parts.{joined};
ghost use Rattle.text.specs.Stores.{over};

use arrayvec::ArrayString;
use findings::FileVerdict;
use itoa::Buffer;
use replays::Replayed;
use rules::{Machine, Sight, Stage, Standing};

// The most bytes that both programs take, and what they print for more.
const MOST: usize = 65535;

const TOO_LONG: &str = "too long\n";

// The most bytes of a line: a process's, with 32 pairs. A page holds one line: a page of a whole text would be as large as the lent
// buffer, and to be set and copied on every run.
const LINE: usize = 485;

// A number in decimal digits.
#[tactic(auto, using(text::proofs::Decimal::printed_decimal))]
fn put_number<const N: usize>(page: &mut ArrayString<N>, n: usize)
    requires { length page.old.bytes + length (decimal n) ≤ N }
    ensures { page.new.bytes ≡ page.old.bytes ++ decimal n }
{
    let mut digits = Buffer::new();
    page.push_str(digits.format(n));
}

// A space, and a number after it.
fn put_field<const N: usize>(page: &mut ArrayString<N>, n: usize)
    requires { length page.old.bytes + length (field n) ≤ N }
    ensures { page.new.bytes ≡ page.old.bytes ++ field n }
{
    page.push(' ');
    put_number(page, n);
}

// A line of a word and numbers, each after a space.
fn put_line<const N: usize>(page: &mut ArrayString<N>, word: &str, numbers: &[usize])
    requires { length page.old.bytes + length (line (word.now ∷ fields numbers.now ∷ [])) ≤ N }
    ensures { page.new.bytes ≡ page.old.bytes ++ line (word.now ∷ fields numbers.now ∷ []) }
{
    page.push_str(word);
    for n in numbers {
        put_field(page, *n);
    }
    page.push('\n');
}

// The verdict's line.
#[tactic(auto, unfolding(output::specs::Lines::verdict_line))]
fn put_verdict<const N: usize>(page: &mut ArrayString<N>, v: &FileVerdict)
    requires { length page.old.bytes + length (verdict_line v.now) ≤ N }
    ensures { page.new.bytes ≡ page.old.bytes ++ verdict_line v.now }
{
    put_line(
        page,
        "verdict",
        &[v.number as usize, v.place, v.i as usize, v.j as usize],
    );
}

// A stage's word, after a space. No Display: `write!` to a page gives a Result that no contract says is Ok, and no text here may fail.
fn stage_word(s: Standing) -> &'static str
    ensures { result.now ≡ stage_word s }
{
    match s {
        Standing::Absent => " absent",
        Standing::Running => " running",
        Standing::Finished => " finished",
        Standing::Crashed => " crashed",
    }
}

// A process and its value, after a comma if a pair stands before.
#[tactic(auto, unfolding(output::specs::Lines::pair))]
fn put_pair<const N: usize>(page: &mut ArrayString<N>, later: bool, i: u32, v: u32)
    requires { length page.old.bytes + length (pair later i v) ≤ N }
    ensures { page.new.bytes ≡ page.old.bytes ++ pair later i v }
{
    if later {
        page.push(',');
    }
    put_number(page, i as usize);
    page.push(':');
    put_number(page, v as usize);
}

// The pairs of a view, ascending.
fn put_pairs<const N: usize>(page: &mut ArrayString<N>, view: u32, values: &[u32; 32])
    requires { length page.old.bytes + length (pairs_from false view values.now 1 32) ≤ N }
    ensures { page.new.bytes ≡ page.old.bytes ++ pairs_from false view values.now 1 32 }
{
    let mut later = false;
    for i in 1..=32 {
        if sets::has(view, i) {
            put_pair(page, later, i, values[i as usize - 1]);
            later = true;
        }
    }
}

// How many processes take part. That n is at most 32 is asked for: number 1 is answered on every machine, so the type can't carry it.
fn partaking(m: &Machine) -> usize
    requires { m.now.n ≤ 32 }
    ensures { result ≡ partaking m.now }
{
    m.processes[..m.n as usize]
        .iter()
        .filter(|p| p.stage != Stage::Absent)
        .count()
}

// A view, or `-` of a process that has not finished.
fn put_view<const N: usize>(page: &mut ArrayString<N>, s: &Sight)
    requires { length page.old.bytes + length (view s.now.standing s.now.view s.now.values) ≤ N }
    ensures { page.new.bytes ≡ page.old.bytes ++ view s.now.standing s.now.view s.now.values }
{
    match s.standing {
        Standing::Finished => put_pairs(page, s.view, &s.values),
        _ => page.push('-'),
    }
}

// A process's line.
#[tactic(auto, unfolding(output::specs::Lines::sight_line))]
fn put_sight<const N: usize>(page: &mut ArrayString<N>, i: u32, s: &Sight)
    requires { length page.old.bytes + length (sight_line i s.now) ≤ N }
    ensures { page.new.bytes ≡ page.old.bytes ++ sight_line i s.now }
{
    page.push('p');
    put_field(page, i as usize);
    page.push_str(stage_word(s.standing));
    put_field(page, s.level as usize);
    put_field(page, s.accesses as usize);
    page.push(' ');
    put_view(page, s);
    // as a text: after so many pieces a char's room is beyond the search
    page.push_str("\n");
}

// The line of a process of the machine.
#[tactic(auto, using(crate::proofs::Processes::look_line))]
fn put_process<const N: usize>(page: &mut ArrayString<N>, m: &Machine, i: u32)
    requires room { length page.old.bytes + 485 ≤ N }
    requires shaped { Shaped m.now }
    requires known { (1 ≤ i) × (i ≤ m.now.n) }
    ensures line { page.new.bytes ≡ page.old.bytes ++ process_line m.now i }
    ensures short { length page.new.bytes ≤ length page.old.bytes + 485 }
{
    put_sight(page, i, &sight::look(*m, i));
}

// Writes a text at the start of a buffer; answers how many bytes that is, behind which the buffer stays.
fn write_text(text: &str, out: &mut [u8]) -> usize
    requires { length text.now ≤ length out.old }
    ensures value { result ≡ length text.now }
    ensures out_after { out.new ≡ over text.now out.old }
{
    let bytes = text.as_bytes();
    out[..bytes.len()].copy_from_slice(bytes);
    bytes.len()
}

// Writes a page at the start of a buffer, and clears it for the next line; answers as write_text.
fn hand_over<const N: usize>(page: &mut ArrayString<N>, out: &mut [u8]) -> usize
    requires { length page.old.bytes ≤ length out.old }
    ensures value { result ≡ length page.old.bytes }
    ensures out_after { out.new ≡ over page.old.bytes out.old }
    ensures cleared { page.new.bytes ≡ [] }
{
    let length = write_text(page.as_str(), out);
    page.clear();
    length
}

// The lines of the processes, ascending, each handed over before the next; answers how many bytes that is.
fn put_processes<const N: usize>(page: &mut ArrayString<N>, m: &Machine, out: &mut [u8]) -> usize
    requires blank { page.old.bytes ≡ [] }
    requires line_room { 485 ≤ N }
    requires room { 485 * m.now.n ≤ length out.old }
    requires shaped { Shaped m.now }
    ensures value { result ≡ length (joined 1 m.now.n (process_line m.now)) }
    ensures short { result ≤ 485 * m.now.n }
    ensures out_after { out.new ≡ over (joined 1 m.now.n (process_line m.now)) out.old }
    ensures cleared { page.new.bytes ≡ [] }
{
    let mut at = 0;
    for i in 1..=m.n {
        put_process(page, m, i);
        at += hand_over(page, &mut out[at..]);
    }
    at
}

// The first line.
#[tactic(auto, unfolding(output::specs::Lines::run_line))]
fn put_run<const N: usize>(page: &mut ArrayString<N>, r: &Replayed)
    requires { length page.old.bytes + length (run_line r.now) ≤ N }
    ensures { page.new.bytes ≡ page.old.bytes ++ run_line r.now }
{
    let number = files::number(r.answer) as usize;
    put_line(
        page,
        "run",
        &[
            number,
            r.place,
            r.taken as usize,
            r.accesses as usize,
            r.refused as usize,
        ],
    );
}

// The last line; n as for partaking.
#[tactic(auto, unfolding(output::specs::Lines::last_line))]
fn put_last<const N: usize>(page: &mut ArrayString<N>, m: &Machine)
    requires room { length page.old.bytes + length (last_line m.now) ≤ N }
    requires few { m.now.n ≤ 32 }
    ensures { page.new.bytes ≡ page.old.bytes ++ last_line m.now }
{
    put_line(page, "participants", &[partaking(m)]);
}

// What the program `verdict` prints of its input; answers how many bytes that is. The guard stands in both texts: to share it,
// a function would take the writing of a text as a closure, with clauses about what that asks for and leaves.
#[tactic(auto, using(crate::proofs::Fits::verdict_length), unfolding(output::specs::Lines::verdict_text))]
pub fn verdict_text(bytes: &[u8], out: &mut [u8; 64]) -> usize
    ensures value { (result ≡ length (verdict_text bytes.now)) × (result ≤ length out.new) }
    ensures out_after { out.new ≡ over (verdict_text bytes.now) out.old }
{
    if bytes.len() > MOST {
        return write_text(TOO_LONG, out);
    }
    let mut page = ArrayString::<64>::new();
    put_verdict(&mut page, &checker::verdict(bytes));
    hand_over(&mut page, out)
}

// What the program `replay` prints of its input; answers how many bytes that is.
#[tactic(auto, using(crate::proofs::Fits::replay_fits), unfolding(output::specs::Lines::replay_text))]
pub fn replay_text(bytes: &[u8], out: &mut [u8; 16384]) -> usize
    ensures value { (result ≡ length (replay_text bytes.now)) × (result ≤ length out.new) }
    ensures out_after { out.new ≡ over (replay_text bytes.now) out.old }
{
    if bytes.len() > MOST {
        return write_text(TOO_LONG, out);
    }
    let r = orders::replay(bytes, 65535);
    let mut page = ArrayString::<LINE>::new();
    put_run(&mut page, &r);
    let run = hand_over(&mut page, out);
    let processes = run + put_processes(&mut page, &r.machine, &mut out[run..]);
    put_last(&mut page, &r.machine);
    processes + hand_over(&mut page, &mut out[processes..])
}
