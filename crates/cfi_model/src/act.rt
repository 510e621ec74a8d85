/// What an instruction of the raw machine asks of its caller.
#[derive(Clone, Copy, Debug, PartialEq, Eq)]
pub enum Act {
    /// It is done.
    Done,
    /// It loads the table word of this address.
    Need(u32),
    /// It asks for the service of this number.
    Service(u32),
    /// It stopped the guest, which a check refused this target.
    Halt(u32),
    /// It stopped the guest at this address of private data, which is no multiple of the access's width.
    Align(u32),
}

/// What a guest waits for inside an instruction of the raw machine.
#[derive(Clone, Copy, Debug, PartialEq, Eq)]
pub enum Wait {
    /// The Tary word of the code address `at`, whose ID register `rd` gets.
    Tary { at: u32, rd: u32 },
    /// The Bary word of the slot, whose ID register `rd` gets.
    Bary { slot: u32, rd: u32 },
    /// The service of this number.
    Service(u32),
}
