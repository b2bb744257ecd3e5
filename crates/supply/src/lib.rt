// The supply levels of PWR (waveform.rs), as the printed list has them.
#![tactic(auto)]

ghost use Rattle.std.specs.Prelude.{◌≡◌};
ghost use Rattle.supply.specs.Supply.{supply_level, Listed};

// The 64 levels in millivolts, by code.
const LEVELS: [u16; 64] = [
    2_400, 2_600, 2_800, 3_000, 3_200, 3_400, 3_600, 3_800, 4_000, 4_200, 4_400, 4_600, 4_800,
    5_000, 5_200, 5_400, 5_600, 5_800, 6_000, 6_200, 6_400, 6_600, 6_800, 7_000, 7_200, 7_400,
    7_600, 7_800, 8_000, 8_200, 8_400, 8_600, 8_800, 9_000, 9_200, 9_400, 9_600, 9_800, 10_000,
    10_200, 10_400, 10_600, 10_800, 11_000, 11_200, 11_400, 11_600, 11_800, 12_000, 12_200, 12_400,
    12_600, 12_800, 13_000, 13_200, 13_400, 13_600, 13_800, 14_000, 14_200, 14_400, 14_600, 14_800,
    15_000,
];

// The list, whose rule is one test over all of it.
fn levels() -> [u16; 64]
    ensures { Listed result }
{
    LEVELS
}

// A supply level by the low six bits of its byte.
#[tactic(auto, unfolding(crate::specs::Supply::Listed))]
pub fn supply_millivolts(code: u8) -> u16
    ensures { result ≡ supply_level code }
{
    levels()[(code % 64) as usize]
}
