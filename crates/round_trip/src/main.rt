// Order files replayed by the compiled code: document 01's examples of budget 0, and the printed run, whose views are written and then judged. It
// prints each replay's line, what the view writer answers and the verdict. The gate compares that with the stored output.
// What can't be printed is left out.
#![tactic(auto)]

use replays::{Replayed, Written};

// Document 01's printed run, of 47 bytes.
const PRINTED_RUN: &[u8] =
    b"MN\x02EN\x01\x07\x00\x00\x00EN\x02\x09\x00\x00\x00ST\x01ST\x01ST\x01ST\x02ST\x02ST\x02ST\x01ST\x01ST\x01ST\x02";

// These two lines, and that of a verdict, stand in `probe` and `judge` too: a crate for three formats is no plainer, and
// a Display beside the type would be a public impl with a contract and edits, for two programs.
fn show_run(rt: &impl Print, r: &Replayed) {
    let _ = println!(rt;
        "run {} {} {} {} {}",
        r.answer as u32, r.place, r.taken, r.accesses, r.refused
    );
}

fn show_written(rt: &impl Print, w: &Written) {
    let _ = println!(rt; "views {} {}", w.answer as u32, w.bytes);
}

fn main(rt: HostRuntime) {
    // budget 0 and nothing after the header, and one byte after it
    show_run(&rt, &orders::replay(b"MN\x02", 0));
    show_run(&rt, &orders::replay(b"MN\x02\x00", 0));
    let r = orders::replay(PRINTED_RUN, 65535);
    show_run(&rt, &r);
    // its views in a buffer exactly as long, and in one a byte shorter
    let mut exact = [0; 29];
    show_written(&rt, &orders::write_views(r.machine, &mut exact));
    let v = checker::verdict(&exact);
    let _ = println!(rt; "verdict {} {} {} {}", v.number, v.place, v.i, v.j);
    show_written(&rt, &orders::write_views(r.machine, &mut [0; 28]));
}
