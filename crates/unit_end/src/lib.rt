// What is told at a unit's end: actions and causes, whether it ended settled, and the unsettled total. The definitions stand in specs/: Terms (which defects count
// where), Actions (actions and causes), Settled. proofs/Together.antt says which causes stand together. The sink calls these once a unit, after its last container.
#![tactic(auto)]

ghost use Rattle.std.specs.Prelude.{◌≡◌};
ghost use Rattle.unit_end.specs.Terms.{termination};
ghost use Rattle.unit_end.specs.Actions.{defects_of, tsf_of, actions_of, causes_of};
ghost use Rattle.unit_end.specs.Settled.{none_stands, label_expected, trace_expected, settled_of, total_of};

use settings::{Flags, Settings};

// dUNEQ, dTIM, dPLM, dRDI.
#[repr(C)]
#[derive(Clone, Copy)]
pub struct Defects {
    pub uneq: bool,
    pub tim: bool,
    pub plm: bool,
    pub rdi: bool,
}

// Consequent actions, and the SSF that they follow from. REI is how many violations each container has.
#[repr(C)]
#[derive(Clone, Copy)]
pub struct Actions {
    pub ssf: bool,
    pub tsf: bool,
    pub ais: bool,
    pub rdi: bool,
}

// cAIS, cLOP, cSSF, cUNEQ, cTIM, cRDI, cPLM.
#[repr(C)]
#[derive(Clone, Copy)]
pub struct Causes {
    pub ais: bool,
    pub lop: bool,
    pub ssf: bool,
    pub uneq: bool,
    pub tim: bool,
    pub rdi: bool,
    pub plm: bool,
}

// The defects that the monitor has.
#[tactic(auto, unfolding(crate::specs::Actions::defects_of))]
pub fn defects_of(m: monitor::Monitor) -> Defects
    ensures { result ≡ defects_of m }
{
    Defects {
        uneq: m.watch.uneq.stands,
        tim: m.watch.trace.tim,
        plm: m.watch.plm,
        rdi: m.watch.rdi.stands,
    }
}

// TSF: what actions and causes have in common.
#[tactic(auto, unfolding(crate::specs::Terms::has, crate::specs::Terms::or_any))]
fn tsf(ssf: bool, d: Defects) -> bool
    ensures { result ≡ tsf_of termination ssf d }
{
    ssf | d.uneq | d.tim
}

// The actions at a unit's end.
#[tactic(auto, unfolding(crate::specs::Actions::actions_of, crate::specs::Terms::has, crate::specs::Terms::or_any))]
pub fn actions_of(ssf: bool, d: Defects) -> Actions
    ensures { result ≡ actions_of termination ssf d }
{
    let tsf = tsf(ssf, d);
    Actions {
        ssf,
        tsf,
        ais: tsf | d.plm,
        rdi: tsf,
    }
}

// The causes at a unit's end: the state is alarm, or lost, or neither. cAIS, cLOP and cPLM do not ask for monitored.
#[tactic(auto, unfolding(crate::specs::Actions::causes_of, crate::specs::Terms::has, crate::specs::Terms::and_all, crate::specs::Terms::and_none))]
pub fn causes_of(alarm: bool, lost: bool, d: Defects, f: Flags) -> Causes
    ensures { result ≡ causes_of termination alarm lost d f }
{
    let tsf = tsf(alarm | lost, d);
    Causes {
        ais: alarm & f.ais,
        lop: lost,
        ssf: (alarm | lost) & f.monitored & f.ssf,
        uneq: f.monitored & d.uneq,
        tim: f.monitored & d.tim & !d.uneq,
        rdi: f.monitored & f.rdi & d.rdi & !d.uneq & !d.tim,
        plm: !tsf & d.plm,
    }
}

// Whether no defect stands.
#[tactic(auto, unfolding(crate::specs::Settled::none_stands))]
fn none_stands(d: Defects) -> bool
    ensures { result ≡ none_stands d }
{
    !d.uneq & !d.tim & !d.plm & !d.rdi
}

// Whether a label is accepted, and is one to expect now: dPLM was renewed by the last container, which may have been told of another.
#[tactic(auto, unfolding(crate::specs::Settled::label_expected))]
fn label_expected(a: overhead::Accepted, expected: u8) -> bool
    ensures { result ≡ label_expected a expected }
{
    a.known && overhead::label_fits(a.value, expected)
}

// Whether a trace is accepted, and is the expected one.
#[tactic(auto, unfolding(crate::specs::Settled::trace_expected))]
fn trace_expected(t: trace_monitor::Trace, expected: [u8; 15]) -> bool
    ensures { result ≡ trace_expected t expected }
{
    t.known && trace_message::same(&t.accepted, &expected)
}

// Whether a unit that left this monitor ended settled.
#[tactic(auto, unfolding(crate::specs::Settled::settled_of))]
pub fn settled(normal: bool, m: monitor::Monitor, e: Settings) -> bool
    ensures { result ≡ settled_of normal m e }
{
    normal
        && none_stands(defects_of(m))
        && label_expected(m.watch.label, e.label)
        && trace_expected(m.watch.trace, e.trace)
}

// The unsettled total after one more unit.
#[tactic(auto, unfolding(crate::specs::Settled::total_of))]
pub fn total_after(total: u16, settled: bool) -> u16
    ensures { result ≡ total_of total settled }
{
    if settled {
        total
    } else {
        total.saturating_add(1)
    }
}
