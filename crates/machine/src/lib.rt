// The machine of document 01, one one-shot immediate snapshot for n processes, and the calls that an order makes, one register access at a time.
#![tactic(auto)]

ghost use Rattle.std.specs.Prelude.{◌≡◌};
ghost use Rattle.rules.specs.Calls.{new_of, fresh, enter_of, crash_of, step_of};

use moves::{Move, Runner};
use rules::{Answer, Called, Machine, Process, Stage};

// A machine of n processes, none of which has entered.
fn fresh(n: u32) -> Machine
    ensures { result ≡ fresh n }
{
    Machine {
        n,
        filled: [0; 32],
        values: [0; 1024],
        processes: [Process {
            stage: Stage::Absent,
            value: 0,
        }; 32],
    }
}

// A new machine of n processes; 8 outside 1 to 32.
#[tactic(auto, unfolding(rules::specs::Calls::new_of))]
pub fn new(n: u32) -> Called
    ensures { result ≡ new_of n }
{
    let (n, answer) = if (1..=32).contains(&n) {
        (n, Answer::Done)
    } else {
        (1, Answer::OutOfRange)
    };
    Called {
        machine: fresh(n),
        answer,
    }
}

// Process p enters with value v (rule 3); refuses 1, 2, 3.
#[tactic(auto, using(moves::proofs::Laws::most), unfolding(rules::specs::Calls::enter_of))]
pub fn enter(mut m: Machine, p: u32, v: u32) -> Called
    ensures { result ≡ enter_of m p v }
{
    let answer = match moves::find(&m, p) {
        Err(answer) => answer,
        Ok(
            Process {
                stage: Stage::Absent,
                ..
            },
        ) => {
            m.processes[(p - 1) as usize] = Process {
                stage: Stage::Running {
                    level: m.n,
                    made: 0,
                    found: 0,
                },
                value: v,
            };
            Answer::Done
        }
        Ok(_) => Answer::EnteredBefore,
    };
    Called { machine: m, answer }
}

// Process p crashes where it stands (rule 6); refuses 1, 2, 4, 5, 6.
#[tactic(auto, using(moves::proofs::Laws::in_place), unfolding(rules::specs::Calls::crash_of))]
pub fn crash(mut m: Machine, p: u32) -> Called
    ensures { result ≡ crash_of m p }
{
    let answer = match moves::find_running(&m, p) {
        Err(answer) => answer,
        Ok(
            Runner {
                level,
                made,
                found,
                value,
            },
        ) => {
            m.processes[(p - 1) as usize] = Process {
                stage: Stage::Crashed { level, made, found },
                value,
            };
            Answer::Done
        }
    };
    Called { machine: m, answer }
}

// One register access of process p (rules 4 and 5); refuses 1, 2, 4, 5, 6, 7. One way out, which costs a copy of the state less; inlined, since for a call
// that stays one the compiler first clears the place of its result.
#[tactic(auto, using(moves::proofs::Laws::step_laws))]
#[inline(always)]
pub fn step(mut m: Machine, p: u32) -> Called
    ensures { result ≡ step_of m p }
{
    let answer = match moves::next_move(&m, p) {
        Err(answer) => answer,
        Ok(Move::Write(runner)) => {
            // as write_own of `alone`: one function for both would be public
            let at = (p - 1) as usize;
            let row = (runner.level - 1) as usize;
            m.filled[row] = sets::plus(m.filled[row], p);
            m.values[32 * row + at] = runner.value;
            m.processes[at] = Process {
                stage: Stage::Running {
                    level: runner.level,
                    made: 1,
                    found: runner.found,
                },
                value: runner.value,
            };
            Answer::Done
        }
        Ok(Move::Turn(process)) => {
            m.processes[(p - 1) as usize] = process;
            Answer::Done
        }
    };
    Called { machine: m, answer }
}
