// Stores states on both sides of each clause of "A state is well shaped if ..", number by number, makes every call on them and prints what they
// answer: 1 to the first of a pair, another number to its neighbour. The pairs are those of specs/Shapes of rules, in that order. The gate compares
// what is printed with the stored output. A line of the script is fourteen bytes, `X AA BB C D E` and a line end: a letter and five numbers.
// What can't be printed is left out.
#![tactic(auto)]

ghost use Rattle.std.specs.Prelude.{◌<◌};

use rules::{Machine, Process, Stage};

// The system's number of standard input.
const STDIN: i32 = 0;

// One decimal digit; any other byte is 0. `trial` has the same line: a crate for it is no plainer.
fn digit(b: u8) -> u32
    ensures { result < 10 }
{
    char::from(b).to_digit(10).unwrap_or(0)
}

fn two_digits(tens: u8, ones: u8) -> u32
    ensures { result < 100 }
{
    10 * digit(tens) + digit(ones)
}

// What enter, step, crash, finishing alone and look answer for process p, and the view writer with room for every view of these states.
fn try_all(rt: &impl Print, m: Machine, p: u32) {
    let answers = [
        machine::enter(m, p, 5).answer,
        machine::step(m, p).answer,
        machine::crash(m, p).answer,
        alone::finish(m, p).answer,
        sight::look(m, p).answer,
    ];
    for answer in answers {
        let _ = print!(rt; " {}", answer as u32);
    }
    let _ = println!(rt; " {}", orders::write_views(m, &mut [0; 64]).answer as u32);
}

// No process has entered; n may be any number.
fn fresh(n: u32) -> Machine {
    Machine {
        n,
        ..machine::new(1).machine
    }
}

// The set of row x.
fn with_row(mut m: Machine, x: u32, s: u32) -> Machine {
    if (1..=32).contains(&x) {
        m.filled[(x - 1) as usize] = s;
    }
    m
}

// What is stored at row x, register i.
fn with_cell(mut m: Machine, x: u32, i: u32, v: u32) -> Machine {
    if (1..=32).contains(&x) && (1..=32).contains(&i) {
        m.values[(32 * (x - 1) + (i - 1)) as usize] = v;
    }
    m
}

fn with_process(mut m: Machine, p: u32, stage: Stage, value: u32) -> Machine {
    if (1..=32).contains(&p) {
        m.processes[(p - 1) as usize] = Process { stage, value };
    }
    m
}

// The stage that a process's letter stores. Only these letters are matched twice, in `obey` and here: an enum of letters is no plainer.
fn stage_of(letter: u8, level: u32, made: u32, found: u32) -> Stage {
    match letter {
        b'r' => Stage::Running { level, made, found },
        b'f' => Stage::Finished { level, view: found },
        b'c' => Stage::Crashed { level, made, found },
        _ => Stage::Absent,
    }
}

// One line of the script, and the state after it, with what the line stores: n; a row's set; a register's number; a process, absent, running, finished or
// crashed. A line of any other letter is a heading. A letter is matched here, where its call is made, so an enum of letters is no plainer.
fn obey(rt: &impl Print, m: Machine, line: &[u8; 14]) -> Machine {
    let [letter, _, a, a_ones, _, b, b_ones, _, c, _, d, _, e, _] = *line;
    let (a, b, c, d, e) = (
        two_digits(a, a_ones),
        two_digits(b, b_ones),
        digit(c),
        digit(d),
        digit(e),
    );
    let _ = rt.write_all(line);
    match letter {
        b't' => {
            try_all(rt, m, a);
            m
        }
        b'n' => fresh(a),
        b'w' => with_row(m, a, b),
        b'v' => with_cell(m, a, b, c),
        b'a' | b'r' | b'f' | b'c' => with_process(m, a, stage_of(letter, b, c, d), e),
        _ => m,
    }
}

fn main(rt: HostRuntime) {
    let mut buffer = [0; 65536];
    // a read that fails is the script's end
    let got = io::read_full(STDIN, &mut buffer);
    let mut m = fresh(1);
    for line in buffer[..got].as_chunks().0 {
        m = obey(&rt, m, line);
    }
}
