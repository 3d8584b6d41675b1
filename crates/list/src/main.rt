// Prints the listing of a catalogue that comes in on standard input.
#![tactic(auto)]

use programs::Program;

fn main(rt: HostRuntime) {
    let program = Program::new("list", rt.stderr());
    if program.says_usage(
        &rt,
        "usage: list < CATALOGUE\nprints a line for each circuit, or for a refused catalogue the refusal's number and the places",
    ) {
        return;
    }
    // one byte more than the longest catalogue, so that a longer file is seen to be longer
    let mut file = [0u8; 10753];
    if let Some(catalogue) = program.read(&mut rt.stdin(), &mut file) {
        let mut text = [0u8; 15898];
        let n = listing::list(catalogue, &mut text);
        program.print(&rt.stdout(), &text[..n]);
    }
}
