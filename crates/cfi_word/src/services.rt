//! The services of a guest, the registers that they use, and what they answer.

/// The register of a service's number, a7.
pub const SERVICE: u32 = 17;

/// The register of a service's argument and answer, a0.
pub const ARGUMENT: u32 = 10;

/// The register of an open's cause, a1.
pub const CAUSE: u32 = 11;

/// The service that ends the guest, with its argument as the code.
pub const EXIT: u32 = 1;

/// The service that appends the low byte of its argument to the output.
pub const PUT: u32 = 2;

/// The service that does nothing more than each service does.
pub const QUIET: u32 = 3;

/// The service that opens the module whose number is its argument.
pub const OPEN: u32 = 4;

/// What a service that is not there answers.
pub const REFUSED: u32 = 0xffff_ffff;

/// The cause of an open's refusal where the plan has no such module.
pub const NO_MODULE: u32 = 1;

/// The cause of an open's refusal where the module has no function to be opened.
pub const NO_FUNCTION: u32 = 8;

/// The cause of an open's refusal where `MAX_OPENS` are logged.
pub const TOO_MANY: u32 = 9;
