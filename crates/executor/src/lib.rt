// The slot of document 01: "The task executor owns one machine and lends it for the length of a slot".
#![tactic(auto)]

ghost use Rattle.std.specs.Prelude.{◌≡◌};
ghost use Rattle.rules.specs.Calls.{step_of};

use rules::{Answer, Called, Machine};

// One step of process p: the slot changes the machine that is lent and returns the answer.
pub fn slot(m: &mut Machine, p: u32) -> Answer
    ensures { (result ≡ (step_of m.old p).answer) × (m.new ≡ (step_of m.old p).machine) }
{
    let after = machine::step(*m, p);
    *m = after.machine;
    after.answer
}

// The same by value, for every other caller: the machine handed in is lent to the slot, and handed back as the slot leaves it.
pub fn in_slot(m: Machine, p: u32) -> Called
    ensures { result ≡ step_of m p }
{
    let mut lent = m;
    let answer = slot(&mut lent, p);
    Called {
        machine: lent,
        answer,
    }
}
