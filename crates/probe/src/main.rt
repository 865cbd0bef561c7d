// Replays an order file with a budget and writes the views of the state that it leaves, on the compiled code, for `scripts/compare`. Input: the budget
// (4 bytes) and the room for the view file (2 bytes), little-endian, then the order file. It prints the run's line, what the view writer answers, and
// then the whole of the buffer that was lent, each byte of which was a dot before. What can't be printed is left out.
#![tactic(auto)]

fn probe(rt: &impl Print, orders: &[u8], budget: u32, buffer: &mut [u8]) {
    let r = orders::replay(orders, budget);
    // a Display beside the type would be a public impl with a contract and edits, for two programs; so too for the views
    let _ = println!(rt;
        "run {} {} {} {} {}",
        r.answer as u32, r.place, r.taken, r.accesses, r.refused
    );
    let w = orders::write_views(r.machine, buffer);
    let _ = println!(rt; "views {} {}", w.answer as u32, w.bytes);
    let _ = rt.write_all(buffer);
}

fn main(rt: HostRuntime) {
    let mut input = [0; 65536];
    let Some([a, b, c, d, low, high, orders @ ..]) = streams::read_input(&rt, &mut input) else {
        return;
    };
    let budget = u32::from_le_bytes([*a, *b, *c, *d]);
    let room = u16::from_le_bytes([*low, *high]);
    let mut space = [b'.'; 65536];
    probe(&rt, orders, budget, &mut space[..usize::from(room)])
}
