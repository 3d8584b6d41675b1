// The pairs of a file's records: the first two with one trace, and how many pairs were compared to find them.
// The definitions stand in specs/Pairs.antt. The catalogue's check rests on this crate.
#![tactic(auto)]

ghost use Rattle.std.specs.Prelude.{◌≡◌, ◌≤◌, ◌<◌};
ghost use Rattle.records.specs.Record.{most_records, plain};
ghost use Rattle.pairs.specs.Pairs.{pairs_from, one_trace, visit};
ghost use Rattle.pairs.specs.Inner.{visited_of};

use records::{File, Refusal};

// The first two records with one trace, as a refusal, or nothing; and how many pairs were compared.
#[derive(Clone, Copy)]
pub struct Visited {
    pub repeat: Result<(), Refusal>,
    pub pairs: usize,
}

// Whether two records of a file have one trace.
fn one_trace(file: File, i: usize, j: usize) -> bool
    requires { (i < file.count) × (j < file.count) }
    ensures { result ≡ one_trace (plain file.entry.kind) file.entry.bytes.now i j }
{
    trace_message::same(file.record(i).trace(), file.record(j).trace())
}

// The earliest later record of a file that repeats a trace, with the first record that has it: the scan over record pairs, later by later,
// is left from inside at the first equal pair. Each pair that is compared is counted, the equal one too.
pub fn first_repeat(file: File) -> Visited
    requires { file.count ≤ most_records }
    ensures { result ≡ visited_of (visit (plain file.entry.kind) file.entry.bytes.now (pairs_from 0 file.entry.count)) }
{
    let mut pairs = 0;
    for j in 0..file.count {
        for i in 0..j {
            pairs += 1;
            if one_trace(file, i, j) {
                return Visited {
                    repeat: Err(Refusal::Repeated(j + 1, i + 1)),
                    pairs,
                };
            }
        }
    }
    Visited {
        repeat: Ok(()),
        pairs,
    }
}
