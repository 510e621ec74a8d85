/// Bytes of a symbol.
pub const SYMBOL_SIZE: usize = 16;

/// The binding of a symbol that its object alone sees.
pub const LOCAL: u8 = 0;
/// The binding of a symbol that all objects see.
pub const GLOBAL: u8 = 1;
/// The binding of a symbol whose place another definition may take.
pub const WEAK: u8 = 2;

/// The type of a section's symbol.
pub const SECTION: u8 = 3;
/// The type of a source file's name.
pub const FILE: u8 = 4;
/// The type of thread-local data.
pub const THREAD_LOCAL: u8 = 6;

/// The section number of an undefined symbol.
pub const UNDEFINED: u16 = 0;
/// The section number of an absolute symbol.
pub const ABSOLUTE: u16 = 0xfff1;
/// The section number of a common block.
pub const COMMON: u16 = 0xfff2;

/// One symbol of the table.
#[derive(Clone, Copy)]
pub struct Entry {
    /// Where its name begins in the table of names.
    pub name: u32,
    /// st_value.
    pub value: u32,
    /// st_info: the binding times 16, and the type.
    pub info: u8,
    /// st_shndx.
    pub section: u16,
}
