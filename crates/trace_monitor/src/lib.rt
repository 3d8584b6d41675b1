// The trace machine: the messages of J1, byte after byte, the accepted one, and dTIM. The definitions stand in specs/Trace.antt.
// The monitor joins it with what is read of B3, C2 and G1.
#![tactic(auto)]

ghost use Rattle.std.specs.Prelude.{◌≡◌};
ghost use Rattle.trace_monitor.specs.Trace.{gathered_of, ends_good, spoils, with_good, without_good, trace_of, blank_trace};

// The message that is being gathered: the place of its next byte, 0 outside any, its start byte, and its characters as far as they have come.
// Kept: a buffer with a place beside it, since `probe_sink_c` hands this struct to C.
#[repr(C)]
#[derive(Clone, Copy)]
pub struct Gathered {
    pub place: u8,
    pub start: u8,
    pub chars: [u8; 15],
}

// The message being gathered, the last good one with its run, the accepted one if there is one, the count of containers without a good message, and dTIM.
// Kept: `known` beside `accepted`, and no Option, since `probe_sink_c` hands this struct to C.
#[repr(C)]
#[derive(Clone, Copy)]
pub struct Trace {
    pub gathered: Gathered,
    pub last: [u8; 15],
    pub run: u8,
    pub known: bool,
    pub accepted: [u8; 15],
    pub without: u8,
    pub tim: bool,
}

// The byte is put at its place of the message.
#[tactic(auto, unfolding(crate::specs::Trace::gathered_of))]
fn gather(g: Gathered, j1: u8) -> Gathered
    ensures { result ≡ gathered_of g j1 }
{
    if 0x80 <= j1 {
        return Gathered {
            place: 1,
            start: j1,
            ..g
        };
    }
    if g.place == 0 {
        return g;
    }
    let mut chars = g.chars;
    if g.place < 15 {
        chars[usize::from(g.place - 1)] = j1;
        return Gathered {
            place: g.place + 1,
            chars,
            ..g
        };
    }
    chars[14] = j1;
    Gathered {
        place: 0,
        chars,
        ..g
    }
}

// Whether the byte ended a good message, g being what is gathered with it. The check is worked out at the last byte only.
#[tactic(auto, unfolding(crate::specs::Trace::ends_good))]
fn ends_good(place: u8, j1: u8, g: Gathered) -> bool
    ensures { result ≡ ends_good place j1 g }
{
    j1 < 0x80 && 15 <= place && trace_message::good_message(g.start, &g.chars)
}

// Whether a byte that ended no good message cuts one, ends a wrong one, or stands outside any.
#[tactic(auto, unfolding(crate::specs::Trace::spoils))]
fn is_spoilt(place: u8, j1: u8) -> bool
    ensures { result ≡ spoils place j1 }
{
    if 0x80 <= j1 {
        0 < place
    } else {
        place == 0 || 15 <= place
    }
}

// A container with a good message.
#[tactic(auto, unfolding(crate::specs::Trace::with_good))]
fn with_good(t: Trace, g: Gathered, expected: [u8; 15]) -> Trace
    ensures { result ≡ with_good t g expected }
{
    let run = counts::run_on(trace_message::same(&g.chars, &t.last), t.run, 3);
    let n = Trace {
        gathered: g,
        last: g.chars,
        run,
        without: 0,
        ..t
    };
    if 3 <= run {
        return Trace {
            known: true,
            accepted: g.chars,
            tim: !trace_message::same(&g.chars, &expected),
            ..n
        };
    }
    n
}

// A container without one.
#[tactic(auto, unfolding(crate::specs::Trace::without_good))]
fn without_good(t: Trace, g: Gathered, spoilt: bool) -> Trace
    ensures { result ≡ without_good t g spoilt }
{
    let count = counts::one_more(t.without, 48);
    let n = Trace {
        gathered: g,
        without: count,
        ..t
    };
    if 48 <= count {
        return Trace {
            run: 0,
            tim: true,
            ..n
        };
    }
    if spoilt { Trace { run: 0, ..n } } else { n }
}

// The trace after one more container.
#[tactic(auto, unfolding(crate::specs::Trace::trace_of))]
pub fn trace_step(t: Trace, j1: u8, expected: [u8; 15]) -> Trace
    ensures { result ≡ trace_of t j1 expected }
{
    let place = t.gathered.place;
    let g = gather(t.gathered, j1);
    if ends_good(place, j1, g) {
        return with_good(t, g, expected);
    }
    without_good(t, g, is_spoilt(place, j1))
}

// Nothing gathered and nothing accepted, with the count given: 0 where nothing was received yet, 48 after a clearing.
#[tactic(auto, unfolding(crate::specs::Trace::blank_trace))]
pub fn blank(without: u8) -> Trace
    ensures { result ≡ blank_trace without }
{
    Trace {
        gathered: Gathered {
            place: 0,
            start: 0,
            chars: [0; 15],
        },
        last: [0; 15],
        run: 0,
        known: false,
        accepted: [0; 15],
        without,
        tim: false,
    }
}
