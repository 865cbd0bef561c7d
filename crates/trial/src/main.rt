// Runs a script of calls on the compiled machine and prints what they answer: document 01's machine examples, and its printed run with each step in a
// slot of the executor. The gate compares that with the stored output. A line of the script is seven bytes, `X NN V` and a line end: a letter, a process
// number (or n), a value of one digit. What can't be printed is left out.
#![tactic(auto)]

ghost use Rattle.std.specs.Prelude.{◌<◌};

use rules::{Called, Machine, Process, Sight, Stage, Standing};

// The system's number of standard input.
const STDIN: i32 = 0;

// One decimal digit; any other byte is 0. `shape_trial` has the same line: a crate for it is no plainer.
fn digit(b: u8) -> u32
    ensures { result < 10 }
{
    char::from(b).to_digit(10).unwrap_or(0)
}

// P8's state, which no run reaches: both at level 1, both written there, 1 has read register 1 and found it filled.
fn crowded() -> Called {
    let mut called = machine::new(2);
    let m = &mut called.machine;
    for row in 0..2 {
        m.filled[row] = 0b11;
        m.values[32 * row] = 7;
        m.values[32 * row + 1] = 9;
    }
    m.processes[0] = running(2, 1, 7);
    m.processes[1] = running(1, 0, 9);
    called
}

// A process at level 1.
fn running(made: u32, found: u32, value: u32) -> Process {
    let stage = Stage::Running {
        level: 1,
        made,
        found,
    };
    Process { stage, value }
}

// The call that a letter of the script names; any other letter asks for P8's state. It is matched here,
// where its call is made (`l`, which hands back no machine, in `obey`), so an enum of letters is no plainer.
fn call(m: Machine, letter: u8, p: u32, v: u32) -> Called {
    match letter {
        b'n' => machine::new(p),
        b'e' => machine::enter(m, p, v),
        b's' => machine::step(m, p),
        b'c' => machine::crash(m, p),
        b'f' => alone::finish(m, p),
        b'x' => executor::in_slot(m, p),
        _ => crowded(),
    }
}

// A stage's word; `report` has its own, by contract, private to it. No Display, since Standing is another crate's type.
fn word(standing: Standing) -> &'static str {
    match standing {
        Standing::Absent => "absent",
        Standing::Running => "running",
        Standing::Finished => "finished",
        Standing::Crashed => "crashed",
    }
}

// What a look answers, and the pairs of its view.
fn print_look(rt: &impl Print, s: &Sight) {
    let _ = print!(rt;
        "{} {} {} {}",
        s.answer as u32,
        word(s.standing),
        s.level,
        s.accesses
    );
    for (i, value) in (1..).zip(s.values) {
        if sets::has(s.view, i) {
            let _ = print!(rt; " {i}:{value}");
        }
    }
    let _ = println!(rt;);
}

// One line of the script, and the machine after it.
fn obey(rt: &impl Print, m: Machine, line: &[u8; 7]) -> Machine {
    let [letter, _, tens, ones, _, value, _] = *line;
    let p = 10 * digit(tens) + digit(ones);
    let _ = rt.write_all(&line[..6]);
    let _ = print!(rt; "  ");
    if letter == b'l' {
        print_look(rt, &sight::look(m, p));
        return m;
    }
    let c = call(m, letter, p, digit(value));
    let _ = println!(rt; "{}", c.answer as u32);
    c.machine
}

// `shape_trial` has these lines over another size and another first machine.
fn main(rt: HostRuntime) {
    let mut buffer = [0; 4096];
    // a read that fails is the script's end
    let got = io::read_full(STDIN, &mut buffer);
    let mut m = machine::new(1).machine;
    for line in buffer[..got].as_chunks().0 {
        m = obey(&rt, m, line);
    }
}
