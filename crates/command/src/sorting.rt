// The sorting of a command byte over its whole range, and how many data bytes a command takes.
ghost use Rattle.std.specs.Prelude.{◌≡◌};
ghost use Rattle.command.specs.Kinds.{kind_of, is_read, params_of, least_count, takes_byte};

use crate::*;
use config::{LUT_MAX_BYTES, Variant};

// What the model does with a command byte.
#[tactic(auto, unfolding(crate::specs::Kinds::kind_of))]
pub fn kind(command: u8, variant: Variant) -> Kind
    ensures { result ≡ kind_of command variant }
{
    match command {
        POF | PON | PMES | DRF | PTIN | PTOUT => Kind::Write(Params::Exactly(0)),
        PSR => Kind::Write(Params::Between(1, 2)),
        PWR => Kind::Write(Params::Between(4, 5)),
        BTST => Kind::Write(Params::Between(3, 4)),
        PFS
        | DSLP
        | PLL
        | TSE
        | EVS
        | TCON
        | AMV
        | VDCS
        | CCSET
        | LVSEL_X3
        | PWS
        | LVSEL
        | TSSET
        | TSBDRY => Kind::Write(Params::Exactly(1)),
        CDI => match variant {
            Variant::Uc8253 => Kind::Write(Params::Between(1, 2)),
            Variant::Uc8279d => Kind::Write(Params::Exactly(1)),
        },
        TSW | KWOPT => Kind::Write(Params::Exactly(3)),
        TRES | GSST => Kind::Write(Params::Exactly(4)),
        PTL => Kind::Write(Params::Exactly(9)),
        LUTOPT => Kind::Write(Params::Exactly(2)),
        DTM1 | DTM2 => Kind::Write(Params::Stream),
        LUTC..=LUTBD => Kind::Write(Params::Between(1, LUT_MAX_BYTES)),
        DSP | TSC | TSR | PBC | LPD | REV | FLG | CRC | VV | ROTP => Kind::Read,
        DUSPI | AUTO => Kind::Unsupported(Params::Exactly(1)),
        PGM | APG => Kind::Unsupported(Params::Exactly(0)),
        _ => Kind::Unknown,
    }
}

// Whether `command` is one whose data bytes are read.
pub fn is_read_command(command: u8, variant: Variant) -> bool
    ensures { result ≡ is_read (kind_of command variant) }
{
    matches!(kind(command, variant), Kind::Read)
}

// The bytes that a command takes: none under a read command.
fn params(k: Kind) -> Params
    ensures { result ≡ params_of k }
{
    match k {
        Kind::Write(p) | Kind::Unsupported(p) => p,
        Kind::Read | Kind::Unknown => Params::Exactly(0),
    }
}

// The least count of data bytes: fewer are reported.
pub fn least_count(k: Kind) -> u16
    ensures { result ≡ least_count k }
{
    match params(k) {
        Params::Exactly(n) | Params::Between(n, _) => n,
        Params::Stream => 0,
    }
}

// Whether data byte number `index`, from 0, lies within the largest count.
pub fn takes(k: Kind, index: u16) -> bool
    ensures { result ≡ takes_byte k index }
{
    match params(k) {
        Params::Exactly(n) | Params::Between(_, n) => index < n,
        Params::Stream => true,
    }
}
