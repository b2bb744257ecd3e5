// What the controller reports (diagnostic.rs): a firmware's use of the chip that the datasheet does
// not allow, leaves undefined, or the model does not carry out; and the five numbers stored of it.
#![tactic(auto)]

ghost use Rattle.std.specs.Prelude.{◌≡◌};
ghost use Rattle.diagnostic.specs.Row.{row_numbers};

// The rows kept until they are taken; past them they are counted, not kept.
pub const MAX_DIAGNOSTICS: usize = 1024;
// The numbers of a row.
pub const ROW: usize = 5;

// What `RefreshNotModelled` names: the LUTs from the OTP (`PSR` REG = 0), KWR mode (KW/R = 0), the
// booster off (SHD_N = 0). Numbers and no enum: `row` answers for every byte here, which may not change.
pub const OTP: u8 = 1;

pub const KWR: u8 = 2;

pub const BOOSTER: u8 = 3;

// What happened.
#[derive(Clone, Copy)]
pub enum DiagnosticKind {
    // A command byte that the controller does not have; its data are ignored.
    UnknownCommand {
        command: u8,
    },
    // A command of the datasheet that the model does not carry out (OTP programming, the automatic
    // sequence, dual SPI), whose name follows from the byte; its data are accepted without effect.
    UnsupportedCommand {
        command: u8,
    },
    // A data byte with no command before it since the last reset.
    DataWithoutCommand {
        data: u8,
    },
    // More data bytes than the command takes; reported once a command (DS79: "the chip accepts only
    // defined parameters, and ignores undefined ones").
    ExtraData {
        command: u8,
    },
    // The command was followed by another, or by a reset, before all its parameters.
    MissingData {
        command: u8,
        expected: u16,
        received: u16,
    },
    // A command sent while `BUSY_N` is low: dropped with its data (DS79: during a refresh only REV,
    // FLG and VV are accepted).
    WhileBusy {
        command: u8,
    },
    // A command sent in deep sleep: dropped; only `RST_N` low wakes the chip.
    WhileAsleep {
        command: u8,
    },
    // A command sent while `RST_N` is low or the chip initialises after it: dropped.
    WhileInReset {
        command: u8,
    },
    // `DSLP` with a check code other than 0xA5: the chip stays awake (DS79).
    WrongCheckCode {
        code: u8,
    },
    // A pixel byte written past the window that its command fills: nothing is written; reported once
    // a command.
    PastTheWindow {
        command: u8,
    },
    // A refresh that the controller does not carry out the way the firmware set it. The glass does
    // not change.
    RefreshNotModelled {
        what: u8,
    },
    // A refresh while the supplies are off (`DRF` before `PON`): the glass does not change.
    RefreshWithoutPower,
    // A LUT command that ended with other than the 42 bytes that the model reads (the UC8279d's grey
    // banks of 49 bytes are a format that no source describes): its first 42 drive the refresh.
    LutLength {
        command: u8,
        bytes: u16,
    },
    // A data byte read with nothing to read: the line floats.
    NothingToRead {
        command: u8,
    },
    // A hardware reset during a refresh: the image is the one that the glass had reached.
    ResetDuringRefresh,
}

// The five numbers of a stored row: time, kind, then its fields, zeros after.
pub fn row(at: u64, kind: DiagnosticKind) -> [u64; ROW]
    ensures { result ≡ row_numbers at kind }
{
    match kind {
        DiagnosticKind::UnknownCommand { command } => [at, 1, command as u64, 0, 0],
        DiagnosticKind::UnsupportedCommand { command } => [at, 2, command as u64, 0, 0],
        DiagnosticKind::DataWithoutCommand { data } => [at, 3, data as u64, 0, 0],
        DiagnosticKind::ExtraData { command } => [at, 4, command as u64, 0, 0],
        DiagnosticKind::MissingData {
            command,
            expected,
            received,
        } => [at, 5, command as u64, expected as u64, received as u64],
        DiagnosticKind::WhileBusy { command } => [at, 6, command as u64, 0, 0],
        DiagnosticKind::WhileAsleep { command } => [at, 7, command as u64, 0, 0],
        DiagnosticKind::WhileInReset { command } => [at, 8, command as u64, 0, 0],
        DiagnosticKind::WrongCheckCode { code } => [at, 9, code as u64, 0, 0],
        DiagnosticKind::PastTheWindow { command } => [at, 10, command as u64, 0, 0],
        DiagnosticKind::RefreshNotModelled { what } => [at, 11, what as u64, 0, 0],
        DiagnosticKind::RefreshWithoutPower => [at, 12, 0, 0, 0],
        DiagnosticKind::LutLength { command, bytes } => [at, 13, command as u64, bytes as u64, 0],
        DiagnosticKind::NothingToRead { command } => [at, 14, command as u64, 0, 0],
        DiagnosticKind::ResetDuringRefresh => [at, 15, 0, 0, 0],
    }
}
