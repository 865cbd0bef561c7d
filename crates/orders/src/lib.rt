// The replay of an order file and the writer of a view file (document 01, "Files"), over the machine's calls.
#![tactic(auto)]

ghost use Rattle.std.specs.Prelude.{◌≡◌, ◌≤◌, length};
ghost use Rattle.rules.specs.Shape.{Shaped};
ghost use Rattle.rules.specs.Calls.{fresh, enter_of, step_of, crash_of};
ghost use Rattle.history.specs.Runs.{answer};
ghost use Rattle.text.specs.Parts.{joined};
ghost use Rattle.text.specs.Stores.{over};
ghost use Rattle.replays.specs.Replays.{call_of, width, replayed, orders_from, replay_of};
ghost use Rattle.replays.specs.Coded.Turns.{none, counted, next_order, ends, CountsFit};
ghost use Rattle.replays.specs.Writes.{write_of, buffer_of};
ghost use Rattle.orders.specs.Coded.Places.{member_bytes, record_bytes, machine_bytes};

use formats::{FileAnswer, Order};
use replays::{Counts, Replayed, WriteAnswer, Written};
use rules::{Answer, Machine, Stage};

// The calls of the machine on a state that is lent. A function each: with the three in one match the state that they hand back is copied once more an order.
fn enter(m: &mut Machine, p: u32, v: u32) -> Answer
    ensures answer { result ≡ (enter_of m.old p v).answer }
    ensures machine { m.new ≡ (enter_of m.old p v).machine }
{
    let called = machine::enter(*m, p, v);
    *m = called.machine;
    called.answer
}

fn step(m: &mut Machine, p: u32) -> Answer
    ensures answer { result ≡ (step_of m.old p).answer }
    ensures machine { m.new ≡ (step_of m.old p).machine }
{
    let called = machine::step(*m, p);
    *m = called.machine;
    called.answer
}

fn crash(m: &mut Machine, p: u32) -> Answer
    ensures answer { result ≡ (crash_of m.old p).answer }
    ensures machine { m.new ≡ (crash_of m.old p).machine }
{
    let called = machine::crash(*m, p);
    *m = called.machine;
    called.answer
}

// The call that an order asks for, made on the machine.
fn obey(m: &mut Machine, order: Order) -> Answer
    ensures answer { result ≡ (answer m.old (call_of order)).answer }
    ensures machine { m.new ≡ (answer m.old (call_of order)).machine }
{
    match order {
        Order::Enter { process, value } => enter(m, process, value),
        Order::Step { process } => step(m, process),
        Order::Crash { process } => crash(m, process),
    }
}

// How many bytes the record of an order has.
fn width(order: Order) -> usize
    ensures { result ≡ width order }
{
    match order {
        Order::Enter { .. } => 7,
        Order::Step { .. } | Order::Crash { .. } => 3,
    }
}

// One order more, which the machine has answered.
fn counted(counts: Counts, order: Order, a: Answer) -> Counts
    requires { CountsFit counts }
    ensures { result ≡ counted counts (call_of order) a }
{
    let accepted = a == Answer::Done;
    let stepped = accepted && matches!(order, Order::Step { .. });
    Counts {
        taken: counts.taken + 1,
        accesses: counts.accesses + u32::from(stepped),
        refused: counts.refused + u32::from(!accepted),
    }
}

// No order taken yet.
fn none() -> Counts
    ensures { result ≡ none }
{
    Counts {
        taken: 0,
        accesses: 0,
        refused: 0,
    }
}

// A machine of n processes, none of which has entered: that of `machine`, for an n in range.
#[tactic(auto, unfolding(rules::specs::Calls::new_of))]
fn fresh(n: u32) -> Machine
    requires { (1 ≤ n) × (n ≤ 32) }
    ensures { result ≡ fresh n }
{
    machine::new(n).machine
}

// What is next at a place: if bytes are left and the budget is spent, 13 before any look at the record.
fn next_order(s: &[u8], at: usize, spent: bool) -> Result<Option<Order>, FileAnswer>
    ensures { result ≡ next_order s.now at spent }
{
    if !spent {
        files::order_at(s, at)
    } else if at < s.len() {
        Err(FileAnswer::BudgetSpent)
    } else {
        Ok(None)
    }
}

// Where the replay of a file ends.
fn ends(s: &[u8], a: FileAnswer, at: usize, counts: Counts, m: Machine) -> Replayed
    ensures { result ≡ ends s.now a at counts m }
{
    Replayed {
        answer: a,
        place: files::place_of(a, at, s.len()),
        taken: counts.taken,
        accesses: counts.accesses,
        refused: counts.refused,
        machine: m,
    }
}

// The orders after the header of a file of n processes, 1 to 32, as the header's test left it. An order that the machine refuses is counted and skipped: the
// state is as it was.
fn replay_orders(s: &[u8], n: u32, budget: u32) -> Replayed
    requires { (3 ≤ length s.now) × (1 ≤ n) × (n ≤ 32) }
    ensures { result ≡ replayed s.now n (orders_from budget s.now 3) }
{
    let mut m = fresh(n);
    let mut counts = none();
    let mut at = 3;
    // no range counts the place: it moves by what each record is wide
    loop {
        match next_order(s, at, counts.taken == budget) {
            Ok(Some(order)) => {
                let a = obey(&mut m, order);
                counts = counted(counts, order, a);
                at += width(order);
            }
            Ok(None) => return ends(s, FileAnswer::Whole, s.len(), counts, m),
            Err(a) => return ends(s, a, at, counts, m),
        }
    }
}

// The replay of an order file over a fresh machine, with a budget of orders.
#[tactic(auto, using(formats::proofs::Reading::opened), unfolding(replays::specs::Replays::replay_of))]
pub fn replay(s: &[u8], budget: u32) -> Replayed
    ensures { result ≡ replay_of s.now budget }
{
    match files::header_of(s) {
        Ok(n) => replay_orders(s, n, budget),
        Err(a) => ends(s, a, 0, none(), fresh(1)),
    }
}

// The length of the view file of a machine.
#[tactic(auto, using(crate::proofs::Places::counts), unfolding(crate::specs::Coded::Places::machine_bytes))]
fn file_len(m: &Machine) -> usize
    ensures { result ≡ length (machine_bytes m.now) }
{
    let mut bytes = 3;
    for p in 1..=32usize {
        if let Stage::Finished { view, .. } = m.processes[p - 1].stage {
            bytes += 7 + 4 * sets::size(view) as usize;
        }
    }
    bytes
}

// The values of a view, out of the row of its level, ascending, at the start of a buffer; answers their length.
#[tactic(auto, using(crate::proofs::Places::parts))]
fn put_values(buffer: &mut [u8], values: &[u32; 1024], level: u32, view: u32) -> usize
    requires room { length (joined 1 32 (member_bytes values.now level view)) ≤ length buffer.old }
    requires in_rows { (1 ≤ level) × (level ≤ 32) }
    ensures bytes { result ≡ length (joined 1 32 (member_bytes values.now level view)) }
    ensures buffer_after { buffer.new ≡ over (joined 1 32 (member_bytes values.now level view)) buffer.old }
{
    let row = &values[32 * (level as usize - 1)..];
    let mut at = 0;
    for member in 1..=32 {
        if sets::has(view, member) {
            buffer[at..at + 4].copy_from_slice(&row[member as usize - 1].to_le_bytes());
            at += 4;
        }
    }
    at
}

// The record of process p, which finished at a level with a view, at the start of a buffer; answers its length.
#[tactic(auto, unfolding(crate::specs::Coded::Places::record_bytes))]
fn put_record(buffer: &mut [u8], values: &[u32; 1024], p: u8, level: u32, view: u32) -> usize
    requires room { length (record_bytes values.now p level view) ≤ length buffer.old }
    requires in_rows { (1 ≤ level) × (level ≤ 32) }
    ensures bytes { result ≡ length (record_bytes values.now p level view) }
    ensures buffer_after { buffer.new ≡ over (record_bytes values.now p level view) buffer.old }
{
    buffer[..3].copy_from_slice(&[b'V', b'W', p]);
    buffer[3..7].copy_from_slice(&view.to_le_bytes());
    7 + put_values(&mut buffer[7..], values, level, view)
}

// The view file of a machine, at the start of a buffer: `MN`, then the finished processes in ascending order.
#[tactic(auto, using(crate::proofs::Places::parts), unfolding(crate::specs::Coded::Places::machine_bytes))]
fn put_file(buffer: &mut [u8], m: &Machine)
    requires room { length (machine_bytes m.now) ≤ length buffer.old }
    requires shaped { Shaped m.now }
    ensures { buffer.new ≡ over (machine_bytes m.now) buffer.old }
{
    buffer[..3].copy_from_slice(&[b'M', b'N', m.n as u8]);
    let mut at = 3;
    for p in 1..=32 {
        if let Stage::Finished { level, view } = m.processes[p as usize - 1].stage {
            at += put_record(&mut buffer[at..], &m.values, p, level, view);
        }
    }
}

// The view writer: refuses 1 and 17, and then writes nothing.
#[tactic(auto, using(crate::proofs::Stored::stored), unfolding(replays::specs::Writes::write_of, replays::specs::Writes::buffer_of))]
pub fn write_views(m: Machine, buffer: &mut [u8]) -> Written
    ensures value { result ≡ write_of m (length buffer.old) }
    ensures buffer_after { buffer.new ≡ buffer_of m buffer.old }
{
    if !shape::shaped(&m) {
        return Written {
            answer: WriteAnswer::NotShaped,
            bytes: 0,
        };
    }
    let bytes = file_len(&m);
    if buffer.len() < bytes {
        return Written {
            answer: WriteAnswer::TooShort,
            bytes: 0,
        };
    }
    put_file(buffer, &m);
    Written {
        answer: WriteAnswer::Done,
        bytes,
    }
}
