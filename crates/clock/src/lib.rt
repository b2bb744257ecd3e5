// The board's own clock: a duration in cycles of a rate, and cycles in nanoseconds. The products pass
// 64 bits, so what is converted is divided first, and its quotient and its rest are converted apart.
#![tactic(auto)]

ghost use Rattle.std.specs.Prelude.{◌≡◌};
ghost use Rattle.clock.specs.Clock.{cycles_of, nanos_of, bad_rate};

// The nanoseconds of a second, and the most Hz.
pub const BILLION: u64 = 1_000_000_000;

// The rate is out of range: refusal 13.
#[tactic(auto, unfolding(crate::specs::Clock::bad_rate))]
pub fn rate_refused(rate: u64) -> bool
    ensures { result ≡ bad_rate rate }
{
    rate < 1 || BILLION < rate
}

// A duration in cycles, rounded up.
pub fn cycles(rate: u64, ns: u64) -> u64
    ensures { result ≡ cycles_of rate ns }
{
    if rate >= BILLION {
        return ns;
    }
    let near = rate.max(1);
    ns / BILLION * near + (ns % BILLION * near + (BILLION - 1)) / BILLION
}

// Cycles in nanoseconds, rounded down and held at 2^64 - 1.
pub fn nanoseconds(rate: u64, cycles: u64) -> u64
    ensures { result ≡ nanos_of rate cycles }
{
    if rate >= BILLION {
        return cycles;
    }
    let near = rate.max(1);
    let seconds = (cycles / near).saturating_mul(BILLION);
    seconds.saturating_add(cycles % near * BILLION / near)
}
