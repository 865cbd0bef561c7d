// Reads an order file from standard input, replays it and prints the run (document 01, "Printed output"). Where standard input cannot be read
// it prints nothing. `verdict` differs in a function and a size: one function for both would require that the closure it takes may be called.
#![tactic(auto)]

fn main(rt: HostRuntime) {
    let mut input = [0; 65536];
    if let Some(orders) = streams::read_input(&rt, &mut input) {
        let mut text = [0; 16384];
        let length = report::replay_text(orders, &mut text);
        streams::write_output(&rt, &text[..length]);
    }
}
