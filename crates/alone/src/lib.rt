// Finishing alone (document 01, rule 8): the algorithm's own recursion.
#![tactic(auto)]

ghost use Rattle.std.specs.Prelude.{◌≡◌, ◌≤◌};
ghost use Rattle.rules.specs.Calls.{finish_of};
ghost use Rattle.rules.specs.Coded.Level.{gathered};
ghost use Rattle.alone.specs.Coded.Descent.{written, descent};

use moves::Runner;
use rules::{Answer, Called, Machine, Process, Stage};

// Where the recursion ends: the level at which the process finishes, and its view there.
#[derive(Clone, Copy)]
struct Landing {
    level: u32,
    view: u32,
}

// What the reads that are left find in a row, nobody else moving: all of it after the write, or what was found and the registers from `made` on.
#[tactic(auto, using(crate::proofs::Descent::gathers))]
fn gather(row: u32, made: u32, found: u32) -> u32
    ensures { result ≡ gathered row made found }
{
    if made == 0 {
        return row;
    }
    found | sets::upwards(row, made)
}

// The first access at a level (rule 4), if it is yet to make: process p's own register in the row of that level is filled with its value.
// That p and the level are 1 to 32 the call has tested: it answers on every machine, so no type carries it.
fn write_own(m: &mut Machine, p: u32, runner: Runner)
    requires { (1 ≤ runner.level) × (runner.level ≤ 32) × (1 ≤ p) × (p ≤ 32) }
    ensures { m.new ≡ written m.old p runner }
{
    if runner.made == 0 {
        let row = (runner.level - 1) as usize;
        m.filled[row] = sets::plus(m.filled[row], p);
        m.values[32 * row + (p - 1) as usize] = runner.value;
    }
}

// The call at a level: writes the own register of its row if it has not, reads what is left of the row, and finishes there or calls itself at the
// level below. None: at level 1 with a count other than 1.
#[tactic(auto, using(crate::proofs::Descent::level_laws))]
fn descend(m: &mut Machine, p: u32, runner: Runner) -> Option<Landing>
    requires { (runner.level ≤ 32) × (1 ≤ p) × (p ≤ 32) }
    ensures lands { result ≡ (descent runner.level m.old p runner).landing }
    ensures leaves { m.new ≡ (descent runner.level m.old p runner).machine }
{
    let level = runner.level;
    if level == 0 {
        return None;
    }
    write_own(m, p, runner);
    let view = gather(m.filled[(level - 1) as usize], runner.made, runner.found);
    if u32::count_ones(view) == level {
        return Some(Landing { level, view });
    }
    descend(
        m,
        p,
        Runner {
            level: level - 1,
            made: 0,
            found: 0,
            value: runner.value,
        },
    )
}

// Process p's own steps until it finishes (rule 8); refuses as its first refused step would, the state as at entry.
#[tactic(auto, using(moves::proofs::Laws::in_place, crate::proofs::Descent::refused_finish))]
pub fn finish(m: Machine, p: u32) -> Called
    ensures { result ≡ finish_of m p }
{
    let runner = match moves::find_running(&m, p) {
        Ok(runner) => runner,
        Err(answer) => return Called { machine: m, answer },
    };
    let mut left = m;
    match descend(&mut left, p, runner) {
        Some(Landing { level, view }) => {
            left.processes[(p - 1) as usize] = Process {
                stage: Stage::Finished { level, view },
                value: runner.value,
            };
            Called {
                machine: left,
                answer: Answer::Done,
            }
        }
        None => Called {
            machine: m,
            answer: Answer::NoLevelBelow,
        },
    }
}
