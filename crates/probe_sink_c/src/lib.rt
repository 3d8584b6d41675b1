// The functions of the crate `probe_sink` for Rust and C to link. Each is the function of its name there, under the same promise.
#![tactic(auto)]

ghost use Rattle.std.specs.Prelude.{◌≡◌};
ghost use Rattle.sink.specs.Sink as sink;
ghost use Rattle.probe_sink.specs.Probe.{plain_of, Shows, WritesContainer};

use probe_sink::{Plain, Shown};
use receiving::Ended;
use settings::Settings;

#[unsafe(no_mangle)]
pub extern "C" fn probe_fresh_sink() -> Plain
    ensures { result ≡ plain_of sink.fresh_sink }
{
    probe_sink::probe_fresh_sink()
}

#[unsafe(no_mangle)]
pub extern "C" fn probe_sink(
    s: Plain,
    e: Settings,
    unit: &[u8],
    held: &mut [u8],
    done: &mut [u8],
) -> Shown
    ensures { Shows s e unit.now held.old done.old result held.new done.new }
{
    probe_sink::probe_sink(s, e, unit, held, done)
}

#[unsafe(no_mangle)]
pub extern "C" fn probe_handed<'a>(
    ended: Ended,
    unit: &'a [u8],
    done: &'a [u8],
    k: usize,
    out: &mut [u8],
) -> usize
    ensures { WritesContainer ended unit.now done.now k out.old result out.new }
{
    probe_sink::probe_handed(ended, unit, done, k, out)
}
