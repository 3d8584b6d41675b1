// The shape of a unit and of its containers, as four numbers, and what an adjustment does to places in them.
// The definitions stand in specs/Shape.antt; proofs/Balance.antt has the law that every count of containers follows from. The sources and the sink rest on this crate.
#![tactic(auto)]

ghost use Rattle.std.specs.Prelude.{◌≡◌, ◌-◌, ◌*◌, ◌≤◌};
ghost use Rattle.shape.specs.Shape.{Fit};

// A unit is a header of three groups of `step` bytes, then `size` bytes; its pointer's values run from 0 to `top`. A container is nine rows of `columns` bytes.
#[derive(Clone, Copy)]
pub struct Shape {
    pub step: usize,
    pub size: usize,
    pub top: u16,
    pub columns: usize,
    pub ghost fits: { Fit (record { step = step; size = size; top = top; columns = columns }) },
}

// What a unit does to the offset: what a source is asked for, and what a sink reads in the word.
#[derive(Clone, Copy, PartialEq, Eq)]
pub enum Adjustment {
    Nothing,
    Increment,
    Decrement,
}

impl Shape {
    ghost use Rattle.shape.specs.Shape.{unit_length, place_of, held_count, run_from};
    ghost use Rattle.shape.specs.Numbers.{numbers, au4_shape};

    // AU-4 with its VC-4.
    pub fn au4() -> Shape
        ensures { result ≡ au4_shape }
    {
        Shape {
            step: 3,
            size: 2349,
            top: 782,
            columns: 261,
        }
    }

    // The bytes of a unit.
    pub fn unit_length(self) -> usize
        ensures { result ≡ unit_length (numbers self) }
    {
        3 * self.step + self.size
    }

    // The bytes of a container's payload: its nine rows without their first column.
    pub fn payload_length(self) -> usize
        ensures { result ≡ 9 * (self.columns - 1) }
    {
        9 * (self.columns - 1)
    }

    // The place of J1 at an offset, counted from byte offset 0.
    // Kept: asked of each call, and no type of offsets that fit: the states of the unit source and of the sink hold any number, which 8 refuses (`make_faults`, `sink_faults`).
    #[tactic(auto, using(crate::proofs::Offsets::place_low))]
    pub fn place(self, offset: u16) -> usize
        requires { offset ≤ self.top }
        ensures { (result ≡ place_of (numbers self) offset) × (result ≤ self.size) }
    {
        self.step * usize::from(offset)
    }

    // The bytes of the container under way at an offset: sent before the unit by a source, held by a sink.
    #[tactic(auto, unfolding(crate::specs::Shape::held_count))]
    pub fn held_count(self, offset: u16) -> usize
        requires { offset ≤ self.top }
        ensures { result ≡ held_count (numbers self) offset }
    {
        if offset == 0 {
            return 0;
        }
        self.size - self.place(offset)
    }

    // The place in the unit from which it carries container bytes, counted from H1.
    #[tactic(auto, unfolding(crate::specs::Shape::run_from))]
    pub fn run_from(self, a: Adjustment) -> usize
        ensures { result ≡ run_from self.step a }
    {
        match a {
            Adjustment::Nothing => 3 * self.step,
            Adjustment::Increment => 4 * self.step,
            Adjustment::Decrement => 2 * self.step,
        }
    }
}

impl Adjustment {
    ghost use Rattle.shape.specs.Shape.{offset_after, ended_by};

    // The offset in the unit of an adjustment, and after it: one up, and from the top to 0; one down, and from 0 to the top.
    #[tactic(auto, unfolding(crate::specs::Shape::offset_after, crate::specs::Shape::up_of, crate::specs::Shape::down_of))]
    pub fn offset_after(self, top: u16, offset: u16) -> u16
        ensures { result ≡ offset_after top self offset }
    {
        match self {
            Adjustment::Nothing => offset,
            Adjustment::Increment => if offset < top { offset + 1 } else { 0 },
            Adjustment::Decrement => if offset == 0 { top } else { offset - 1 },
        }
    }

    // How many containers end in the unit, by the offset before it.
    #[tactic(auto, unfolding(crate::specs::Shape::ended_by))]
    pub fn ended_by(self, offset: u16) -> u8
        ensures { result ≡ ended_by self offset }
    {
        match self {
            Adjustment::Nothing => 1,
            Adjustment::Increment => if offset == 0 { 0 } else { 1 },
            Adjustment::Decrement => if offset == 1 { 2 } else { 1 },
        }
    }
}
