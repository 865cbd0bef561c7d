// A set of processes in one 32-bit number, bit i - 1 for process i: what a process holds of the registers that it found filled, and
// what a view file gives for a view.
#![tactic(auto)]

ghost use Rattle.std.specs.Prelude.{◌≡◌};
ghost use Rattle.sets.specs.Members.{known, has, size};
ghost use Rattle.sets.specs.Sets.{plus, first, within, upwards};

// A set can hold process i.
fn known(i: u32) -> bool
    ensures { result ≡ known i }
{
    1 <= i && i <= 32
}

// Process i is in the set s. A number outside 1 to 32 is in no set.
pub fn has(s: u32, i: u32) -> bool
    ensures { result ≡ has s i }
{
    known(i) && (s >> (i - 1)) % 2 == 1
}

// The set s with process i in it. A number outside 1 to 32 changes nothing.
pub fn plus(s: u32, i: u32) -> u32
    ensures { result ≡ plus s i }
{
    if known(i) { s | (1 << (i - 1)) } else { s }
}

// The processes 1 to k. A k above 32 gives all 32.
pub fn first(k: u32) -> u32
    ensures { result ≡ first k }
{
    if 32 < k {
        return u32::MAX;
    }
    ((1u64 << k) - 1) as u32
}

// Every process of s is in t.
pub fn within(s: u32, t: u32) -> bool
    ensures { result ≡ within s t }
{
    s & t == s
}

// How many processes are in s.
pub fn size(s: u32) -> u32
    ensures { result ≡ size s }
{
    s.count_ones()
}

// The processes of s from the number `from` on.
pub fn upwards(s: u32, from: u32) -> u32
    ensures { result ≡ upwards s from }
{
    if from < 1 {
        return s;
    }
    if 32 < from {
        return 0;
    }
    (s >> (from - 1)) << (from - 1)
}
