// The look at a process: what its record says, its accesses, and its view.
#![tactic(auto)]

ghost use Rattle.std.specs.Prelude.{◌≡◌, ◌+◌, ◌-◌, ◌*◌, ◌≤◌};
ghost use Rattle.rules.specs.Calls.{look_of, standing_of, blindly, row_values};

use rules::{Answer, Machine, Sight, Stage, Standing};

// A look that shows no view.
fn blind(answer: Answer, standing: Standing, level: u32, accesses: u32) -> Sight
    ensures { result ≡ blindly answer standing level accesses }
{
    Sight {
        answer,
        standing,
        level,
        accesses,
        view: 0,
        values: [0; 32],
    }
}

// Rule 7.
fn accesses(n: u32, level: u32, made: u32) -> u32
    requires few { n ≤ 32 }
    requires high { level ≤ n }
    requires most { made ≤ n + 1 }
    ensures { result ≡ (n + 1) * (n - level) + made }
{
    (n + 1) * (n - level) + made
}

// The values of a view, out of the row of its level, 1 to 32 by the shape. (Of `array::from_fn` a contract ties an element to the closure only by a chain of
// calls.)
#[tactic(auto, using(crate::proofs::Values::values_all))]
fn view_values(m: &Machine, level: u32, view: u32) -> [u32; 32]
    requires low { 1 ≤ level }
    requires high { level ≤ 32 }
    ensures { result ≡ row_values m.now.values level view 1 32 }
{
    let base = (32 * (level - 1)) as usize;
    let mut values = [0; 32];
    for i in 0..32usize {
        values[i] = if sets::has(view, (i + 1) as u32) {
            m.values[base + i]
        } else {
            0
        };
    }
    values
}

// How the record of a process says that it stands; a From would stand beside Stage, and public.
fn standing(stage: Stage) -> Standing
    ensures { result ≡ standing_of stage }
{
    match stage {
        Stage::Absent => Standing::Absent,
        Stage::Running { .. } => Standing::Running,
        Stage::Finished { .. } => Standing::Finished,
        Stage::Crashed { .. } => Standing::Crashed,
    }
}

// What a process's record says, and its view; refuses 1, 2.
#[tactic(auto, using(crate::proofs::Looks::looks), unfolding(rules::specs::Calls::look_of))]
pub fn look(m: Machine, p: u32) -> Sight
    ensures { result ≡ look_of m p }
{
    let process = match moves::find(&m, p) {
        Ok(process) => process,
        Err(answer) => return blind(answer, Standing::Absent, 0, 0),
    };
    match process.stage {
        Stage::Absent => blind(Answer::Done, Standing::Absent, 0, 0),
        Stage::Running { level, made, .. } | Stage::Crashed { level, made, .. } => blind(
            Answer::Done,
            standing(process.stage),
            level,
            accesses(m.n, level, made),
        ),
        Stage::Finished { level, view } => Sight {
            answer: Answer::Done,
            standing: Standing::Finished,
            level,
            accesses: accesses(m.n, level, m.n + 1),
            view,
            values: view_values(&m, level, view),
        },
    }
}
