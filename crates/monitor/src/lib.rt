// The container monitor: what is read of each container that ended. It sees four overhead bytes and the container's parity only, so it is the same for every size of container.
// The definitions stand in specs/: Seeing (what is seen), Monitoring (the machine). The sink calls `see` and `step` for each container, and `blank(48)` in a unit with SSF; `unit_end` takes the defects from here.
#![tactic(auto)]

ghost use Rattle.std.specs.Prelude.{◌≡◌, ◌*◌, ◌<◌, length};
ghost use Rattle.monitor.specs.Seeing.{seen_in};
ghost use Rattle.monitor.specs.Monitoring.{no_parity, forgot, blank_of, monitor_in_range, watch_step, seen_of};

use settings::Settings;

// What is seen of a container: four of its overhead bytes, and the exclusive or of all its bytes.
#[derive(Clone, Copy)]
pub struct Overhead {
    pub j1: u8,
    pub b3: u8,
    pub c2: u8,
    pub g1: u8,
    pub parity: u8,
}

// What is watched from container to container: the label with dPLM, dUNEQ, dRDI, and the trace with dTIM.
#[repr(C)]
#[derive(Clone, Copy)]
pub struct Watch {
    pub label: overhead::Accepted,
    pub plm: bool,
    pub uneq: overhead::Defect,
    pub rdi: overhead::Defect,
    pub trace: trace_monitor::Trace,
}

// All that is kept from container to container: the last parity, which a restart forgets, and what is watched.
#[repr(C)]
#[derive(Clone, Copy)]
pub struct Monitor {
    pub parity: overhead::Parity,
    pub watch: Watch,
}

// What a container gives: the monitor after it, its violated columns, and the violations that the far end returned.
#[derive(Clone, Copy)]
pub struct Seen {
    pub monitor: Monitor,
    pub violated: u8,
    pub returned: u8,
}

// What the monitor looks at in a container of nine rows.
#[tactic(auto, using(crate::proofs::Places::seen_read))]
pub fn see(columns: usize, container: &[u8]) -> Overhead
    requires { (0 < columns) × (3 * columns < length container.now) }
    ensures { result ≡ seen_in columns container.now }
{
    Overhead {
        j1: container[0],
        b3: container[columns],
        c2: container[2 * columns],
        g1: container[3 * columns],
        parity: parity::parity(container),
    }
}

// No last parity: no column is violated until there is one.
fn no_parity() -> overhead::Parity
    ensures { result ≡ no_parity }
{
    overhead::Parity {
        known: false,
        value: 0,
    }
}

// The monitor without its last parity.
#[tactic(auto, unfolding(crate::specs::Monitoring::forgot))]
pub fn forget(m: Monitor) -> Monitor
    ensures { result ≡ forgot m }
{
    Monitor {
        parity: no_parity(),
        ..m
    }
}

// All cleared, with the count of containers without a message given: 0 for the fresh monitor, 48 for a unit with SSF.
#[tactic(auto, unfolding(crate::specs::Monitoring::blank_of))]
pub fn blank(without: u8) -> Monitor
    ensures { result ≡ blank_of without }
{
    let none = overhead::Defect {
        with: 0,
        without: 0,
        stands: false,
    };
    Monitor {
        parity: no_parity(),
        watch: Watch {
            label: overhead::Accepted {
                last: 0,
                run: 0,
                known: false,
                value: 0,
            },
            plm: false,
            uneq: none,
            rdi: none,
            trace: trace_monitor::blank(without),
        },
    }
}

// Whether each count is in its range.
#[tactic(auto, unfolding(crate::specs::Monitoring::watch_in_range))]
pub fn in_range(m: Monitor) -> bool
    ensures { result ≡ monitor_in_range m }
{
    (m.watch.label.run <= 5)
        & (m.watch.uneq.with <= 5)
        & (m.watch.uneq.without <= 5)
        & (m.watch.rdi.with <= 5)
        & (m.watch.rdi.without <= 5)
        & (m.watch.trace.gathered.place <= 15)
        & (m.watch.trace.run <= 3)
        & (m.watch.trace.without <= 48)
}

// What is watched, with one more container.
#[tactic(auto, unfolding(crate::specs::Monitoring::watch_step))]
fn watch_step(w: Watch, c: Overhead, e: Settings) -> Watch
    ensures { result ≡ watch_step w c e }
{
    let label = overhead::accept_step(w.label, c.c2);
    Watch {
        label,
        plm: overhead::mismatch(label, e.label),
        uneq: overhead::defect_step(w.uneq, c.c2 == 0),
        rdi: overhead::defect_step(w.rdi, overhead::remote(c.g1)),
        trace: trace_monitor::trace_step(w.trace, c.j1, e.trace),
    }
}

// One more container.
#[tactic(auto, unfolding(crate::specs::Monitoring::seen_of, crate::specs::Monitoring::monitor_step, overhead::specs::Violations::kept_of))]
pub fn step(m: Monitor, c: Overhead, e: Settings) -> Seen
    ensures { result ≡ seen_of m c e }
{
    Seen {
        monitor: Monitor {
            parity: overhead::Parity {
                known: true,
                value: c.parity,
            },
            watch: watch_step(m.watch, c, e),
        },
        violated: overhead::violated(m.parity, c.b3),
        returned: overhead::returned(c.g1),
    }
}
