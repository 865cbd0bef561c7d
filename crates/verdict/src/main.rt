// Reads a view file from standard input and prints its verdict (document 01, "Printed output"). Where standard input cannot be read
// it prints nothing. `replay` differs in a function and a size: one function for both would require that the closure it takes may be called.
#![tactic(auto)]

fn main(rt: HostRuntime) {
    let mut input = [0; 65536];
    if let Some(views) = streams::read_input(&rt, &mut input) {
        let mut text = [0; 64];
        let length = report::verdict_text(views, &mut text);
        streams::write_output(&rt, &text[..length]);
    }
}
