// A unit's bytes, written: the header, and the run of container bytes after it. The definitions stand in specs/Unit.antt. The unit source rests on this crate.
#![tactic(auto)]

ghost use Rattle.std.specs.Prelude.{◌≡◌, ◌++◌, ◌-◌, ◌≤◌, length, take, drop};
ghost use Rattle.unit.specs.Unit.{group_of, head_of, run_of};
ghost use Rattle.unit.specs.Inner.{Head, Pour};

// A group of the header: its first byte, and the others.
fn group(dst: &mut [u8], first: u8, others: u8)
    requires { 1 ≤ length dst.old }
    ensures { dst.new ≡ group_of (length dst.old) first others }
{
    copier::fill(dst, others);
    dst[0] = first;
}

// The header, with 00 in every place from H3 to where the run begins.
pub fn header(step: usize, w: u16, from: usize, unit: &mut [u8])
    requires { Head step from unit.old }
    ensures { unit.new ≡ head_of step w from ++ drop from unit.old }
{
    let two = 2 * step;
    group(&mut unit[..step], word::h1(w), 0x9b);
    group(&mut unit[step..two], word::h2(w), 0xff);
    copier::fill(&mut unit[two..from], 0);
}

// The run: what is left of the current container, and then the next, from `from` to the unit's end.
pub fn pour(current: &[u8], next: &[u8], sent: usize, from: usize, unit: &mut [u8])
    requires { Pour current.now next.now sent from unit.old }
    ensures { unit.new ≡ take from unit.old ++ run_of (length unit.old - from) sent current.now next.now }
{
    let room = unit.len() - from;
    let first = room.min(current.len() - sent);
    let e = sent + first;
    let mid = from + first;
    let second = room - first;
    copier::copy_part(&current[sent..e], &mut unit[from..mid], from);
    copier::copy_part(&next[..second], &mut unit[mid..], mid);
}
