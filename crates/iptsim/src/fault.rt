//! The status with which the program ends where it has none of a session or a restore.
use programs::ProgramFault;

/// The status that the program ends with after a fault: 1, 2 or 4.
pub(crate) fn status_of(fault: &ProgramFault<'_>) -> u8 {
    match fault {
        ProgramFault::CannotOpen(_)
        | ProgramFault::CannotRead(_)
        | ProgramFault::InputFailed
        | ProgramFault::OutputFailed => 1,
        ProgramFault::NotText | ProgramFault::NoSubcommand | ProgramFault::NoFile => 2,
        ProgramFault::NoMemory => 4,
    }
}
