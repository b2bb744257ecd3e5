// What is reported of a command.
use diagnostic::DiagnosticKind;

// What a call tells, in order: at most two diagnostics.
#[derive(Clone, Copy)]
pub struct Notes {
    pub first: Option<DiagnosticKind>,
    pub second: Option<DiagnosticKind>,
}
