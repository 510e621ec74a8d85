//! The words of a fault: its name, and its numbers behind it.

ghost use Rattle.std.specs.Prelude.{◌≡◌, ◌++◌, OnOk, string_bytes};
ghost use Rattle.cfi_commands.specs.inner.Words.{numbers_text};

use std::alloc::AllocError;

/// The numbers of a fault.
#[derive(Clone, Copy)]
pub enum Numbers {
    /// It has none.
    None,
    /// It has this one.
    One(u32),
    /// It has these two, in order.
    Two(u32, u32),
}

/// Appends the name of a fault and its numbers, each after a space.
pub fn put_words(text: &mut String, name: &str, numbers: Numbers) -> Result<(), AllocError>
    ensures { OnOk result
        (string_bytes text.new ≡ string_bytes text.old ++ name.now ++ numbers_text numbers) }
{
    text.push_str(name)?;
    match numbers {
        Numbers::None => Ok(()),
        Numbers::One(number) => write!(text, " {number}"),
        Numbers::Two(first, second) => write!(text, " {first} {second}"),
    }
}
