// The view of the containers that ended in a unit: two lent slices, and no copy. The definitions stand in specs/View.antt. Whoever takes a container that the sink
// handed back takes it from here: the bench, and the sink's probe. Any numbers may be asked for: a part that is not there is empty.
#![tactic(auto)]

ghost use Rattle.std.specs.Prelude.{◌≡◌, [], get_or};
ghost use Rattle.view.specs.View.{part_of, in_order, container_handed, Views};

use receiving::Ended;

// The container that was completed in the done buffer, and then the one that is a part of the unit itself; empty where there is none.
#[derive(Clone, Copy)]
pub struct View<'a> {
    pub first: &'a [u8],
    pub second: &'a [u8],
}

// The `size` bytes of a buffer from `place` on, where a container is there.
#[tactic(auto, unfolding(crate::specs::View::part_of))]
fn part<'a>(buffer: &'a [u8], there: bool, place: usize, size: usize) -> &'a [u8]
    ensures { result.now ≡ part_of buffer.now there place size }
{
    if !there {
        return &[];
    }
    let rest = buffer.get(place..).unwrap_or(&[]);
    rest.get(..size).unwrap_or(&[])
}

// What ended in a unit, by the sink's answer, where a container has `size` bytes: a part of the done buffer and a part of the unit.
pub fn of<'a>(ended: Ended, size: usize, done: &'a [u8], unit: &'a [u8]) -> View<'a>
    ensures { Views ended size done.now unit.now result.first.now result.second.now }
{
    let first = part(done, ended.completed, 0, size);
    let second = part(unit, ended.inside, ended.place, size);
    View { first, second }
}

// Of the two, the one that ended k-th in the unit, counted from 0.
#[tactic(auto, unfolding(crate::specs::View::in_order))]
fn nth<'a>(ended: Ended, k: usize, first: &'a [u8], second: &'a [u8]) -> &'a [u8]
    ensures { result.now ≡ get_or (in_order ended first.now second.now) k [] }
{
    match (ended.completed, ended.inside, k) {
        (true, _, 0) => first,
        (true, true, 1) | (false, true, 0) => second,
        _ => &[],
    }
}

// The container that ended k-th in the unit, counted from 0: first the one completed, then the one inside. Empty where so many did not end.
pub fn container<'a>(
    ended: Ended,
    size: usize,
    done: &'a [u8],
    unit: &'a [u8],
    k: usize,
) -> &'a [u8]
    ensures { result.now ≡ container_handed ended size done.now unit.now k }
{
    let view = of(ended, size, done, unit);
    nth(ended, k, view.first, view.second)
}
