// Exports a catalogue from standard input as comma-separated text; for a refused catalogue it prints the one line of its refusal.
#![tactic(auto)]

use programs::{InWords, Program};

fn export<E: Print>(program: &Program<E>, out: &impl Print, catalogue: &[u8]) {
    let mut text = [0u8; 23552];
    match exporting::export(catalogue, &mut text) {
        Ok(n) => program.print(out, &text[..n]),
        Err(why) => program.refuse(
            out,
            why.number(),
            why.places(),
            InWords {
                what: "record",
                why,
            },
        ),
    }
}

fn main(rt: HostRuntime) {
    let program = Program::new("export", rt.stderr());
    if program.says_usage(
        &rt,
        "usage: export < CATALOGUE > TEXT\nprints a line for each circuit, as 7,12,\"03E5           \",15; for a refused catalogue one line instead, the refusal's number and the places, and says it in words here",
    ) {
        return;
    }
    // one byte more than the longest catalogue, so that a longer file is seen to be longer
    let mut file = [0u8; 10753];
    if let Some(catalogue) = program.read(&mut rt.stdin(), &mut file) {
        export(&program, &rt.stdout(), catalogue);
    }
}
