// What a call finds before it changes the machine: the process asked for, who moves, and what its step does.
#![tactic(auto)]

ghost use Rattle.std.specs.Prelude.{◌≡◌, ◌≤◌};
ghost use Rattle.rules.specs.Calls.{reading};
ghost use Rattle.moves.specs.Coded.Asked.{asked_of, runner_of};
ghost use Rattle.moves.specs.Coded.Moves.{after_read, move_of};

use rules::{Answer, Machine, Process, Stage};

// The process asked for; refuses 1 and 2, which come before all else.
#[tactic(auto, using(crate::proofs::Laws::most))]
pub fn find(m: &Machine, p: u32) -> Result<Process, Answer>
    ensures { result ≡ asked_of m.now p }
{
    if !shape::shaped(m) {
        return Err(Answer::NotShaped);
    }
    if !(1..=m.n).contains(&p) {
        return Err(Answer::NoProcess);
    }
    Ok(m.processes[(p - 1) as usize])
}

// A process as it runs: at a level after `made` accesses, with the registers that it found filled there, and its value. That the level is 1 to 32 is the
// machine's shape, and no ghost field here: the definitions that build a runner would have to prove it.
#[derive(Clone, Copy)]
pub struct Runner {
    pub level: u32,
    pub made: u32,
    pub found: u32,
    pub value: u32,
}

// The process asked for, where it runs; refuses 1, 2, 4, 5, 6.
pub fn find_running(m: &Machine, p: u32) -> Result<Runner, Answer>
    ensures { result ≡ runner_of m.now p }
{
    let Process { stage, value } = find(m, p)?;
    match stage {
        Stage::Absent => Err(Answer::NeverEntered),
        Stage::Running { level, made, found } => Ok(Runner {
            level,
            made,
            found,
            value,
        }),
        Stage::Finished { .. } => Err(Answer::HasFinished),
        Stage::Crashed { .. } => Err(Answer::HasCrashed),
    }
}

// What a step does: a process that runs writes, or its record becomes this one by what it reads.
#[derive(Clone, Copy)]
pub enum Move {
    Write(Runner),
    Turn(Process),
}

// A read finds what stands there at that step (rule 4).
#[tactic(auto, unfolding(rules::specs::Calls::reading))]
fn read(row: u32, j: u32, found: u32) -> u32
    ensures { result ≡ reading row j found }
{
    if sets::has(row, j) {
        sets::plus(found, j)
    } else {
        found
    }
}

// The stage after the read of register `made` in a row whose filled registers are `row` (rules 4 and 5); refuses 7.
#[tactic(auto, using(sets::proofs::Laws::size_ones))]
fn after_read(n: u32, row: u32, runner: Runner) -> Result<Stage, Answer>
    requires { 1 ≤ runner.level }
    ensures { result ≡ after_read n row runner }
{
    let Runner {
        level,
        made,
        found,
        ..
    } = runner;
    let found = read(row, made, found);
    if made < n {
        Ok(Stage::Running {
            level,
            made: made + 1,
            found,
        })
    } else if u32::count_ones(found) == level {
        Ok(Stage::Finished { level, view: found })
    } else if level == 1 {
        Err(Answer::NoLevelBelow)
    } else {
        Ok(Stage::Running {
            level: level - 1,
            made: 0,
            found: 0,
        })
    }
}

// The move of process p: the first of its n + 1 accesses at a level writes (rule 4); refuses 1, 2, 4, 5, 6, 7.
#[tactic(auto, using(crate::proofs::Laws::in_place))]
pub fn next_move(m: &Machine, p: u32) -> Result<Move, Answer>
    ensures { result ≡ move_of m.now p }
{
    let runner = find_running(m, p)?;
    if runner.made == 0 {
        return Ok(Move::Write(runner));
    }
    let row = m.filled[(runner.level - 1) as usize];
    let stage = after_read(m.n, row, runner)?;
    Ok(Move::Turn(Process {
        stage,
        value: runner.value,
    }))
}
