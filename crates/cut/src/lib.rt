// Where containers end and begin in a unit, and the copies that follow from it. The definitions stand in specs/Cut.antt; the sink rests on this crate.
// How the pointer word was taken is not known here: what it comes to is two numbers, the held bytes that the unit goes on with and the place where its run begins.
#![tactic(auto)]

ghost use Rattle.std.specs.Prelude.{◌≡◌, ◌++◌, ◌+◌, ◌≤◌, length, drop};
ghost use Rattle.shape.specs.Shape.{unit_length};
ghost use Rattle.shape.specs.Numbers.{numbers};
ghost use Rattle.cut.specs.Cut.{next_of, begin_of, cut_of, done_of};
ghost use Rattle.cut.specs.Inner.{Line, Sizes, Cuts};

use shape::Shape;

// One unit, cut. Places are counted from H1.
#[derive(Clone, Copy)]
pub struct Cut {
    // the held bytes that the unit goes on with
    pub kept: usize,
    // the place where its run of container bytes begins
    pub from: usize,
    // a container begun earlier ends in it
    pub ends: bool,
    // the place after that container; the run's begin, where there is none
    pub next: usize,
    // a container begins at `next` and ends in the unit
    pub inside: bool,
    // the place from which the unit's bytes are held
    pub begin: usize,
    // how many bytes are held after the unit
    pub rest: usize,
}

// The place from which the unit's bytes are held.
fn begin_place(shape: Shape, next: usize) -> usize
    requires { next ≤ unit_length (numbers shape) }
    ensures { result ≡ begin_of (numbers shape) next }
{
    if next <= 3 * shape.step {
        return next + shape.size;
    }
    next
}

// What begins and does not end goes to `held` from its first byte; the bytes after it stay.
fn keep(begin: usize, rest: usize, unit: &[u8], held: &mut [u8])
    requires { (length unit.now ≡ begin + rest) × (rest ≤ length held.old) }
    ensures { held.new ≡ drop begin unit.now ++ drop rest held.old }
{
    copier::copy_long(&unit[begin..], &mut held[..rest]);
}

// One line of bytes: `kept` held ones, and the unit's from the place `from` on.
#[derive(Clone, Copy)]
struct OneLine {
    shape: Shape,
    kept: usize,
    from: usize,
    ghost line: { Line (numbers shape) kept from },
}

impl OneLine {
    // The place after the container begun earlier.
    fn next_place(self) -> usize
        ensures { result ≡ next_of (numbers self.shape) self.kept self.from }
    {
        if 0 < self.kept {
            return self.from + (self.shape.size - self.kept);
        }
        self.from
    }

    // The cut as numbers; no byte is looked at.
    fn places(self) -> Cut
        ensures { result ≡ cut_of (numbers self.shape) self.kept self.from }
    {
        let next = self.next_place();
        let begin = begin_place(self.shape, next);
        Cut {
            kept: self.kept,
            from: self.from,
            ends: 0 < self.kept,
            next,
            inside: next <= 3 * self.shape.step,
            begin,
            rest: self.shape.unit_length() - begin,
        }
    }

    // A container begun earlier is completed in `done`: the held bytes first, and the unit's bytes from the held count on. Where none was begun, `done` is not touched.
    fn complete(self, unit: &[u8], held: &[u8], done: &mut [u8])
        requires { Sizes (numbers self.shape) unit.now held.now done.old }
        ensures { done.new ≡ done_of (numbers self.shape) (cut_of (numbers self.shape) self.kept self.from) unit.now held.now done.old }
    {
        let OneLine { shape, kept, from } = self;
        if kept == 0 {
            return;
        }
        let e = from + (shape.size - kept);
        copier::copy_long(&held[..kept], &mut done[..kept]);
        copier::copy_part(&unit[from..e], &mut done[kept..], kept);
    }
}

// One unit: its cut, and both buffers after it.
pub fn cut_unit(
    shape: Shape,
    kept: usize,
    from: usize,
    unit: &[u8],
    held: &mut [u8],
    done: &mut [u8],
) -> Cut
    requires { (Line (numbers shape) kept from) × (Sizes (numbers shape) unit.now held.old done.old) }
    ensures { Cuts (numbers shape) kept from unit.now held.old done.old result held.new done.new }
{
    let line = OneLine { shape, kept, from };
    let cut = line.places();
    line.complete(unit, held, done);
    keep(cut.begin, cut.rest, unit, held);
    cut
}
