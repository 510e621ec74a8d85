//! Registers by their names.

ghost use Rattle.std.specs.Prelude.{◌≡◌, ◌<◌};
ghost use Rattle.rv_line.specs.Register.{named_register, numbered_register, lettered_register, register_in};

use crate::table::found_in;
use cfi_text::read_dec;
use std::marker::Model;

/// A register, x0 to x31.
#[derive(Clone, Copy, Debug, PartialEq, Eq)]
pub struct Register {
    number: u32,
}

// Clauses see its number.
impl Model for Register {
    ghost use Rattle.std.specs.Prelude.{ℕ, ◌<◌};

    ghost Value = { ℕ };

    ghost view = { λ register. register.number };

    ghost invariant = { λ register. register.number < 32 };

    ghost inverse = { λ number. record { number = number } };
}

impl Register {
    /// The register of this number, below 32.
    pub fn new(number: u32) -> Register
        requires { number < 32 }
        ensures { result ≡ number }
    {
        Register { number }
    }

    /// Its number.
    pub fn number(self) -> u32
        ensures same { result ≡ self }
        ensures within { result < 32 }
    {
        self.number
    }
}

#[tactic(auto, unfolding(crate::specs::Register::named_register, crate::specs::Table::first_named))]
fn named_register(word: &[u8]) -> Option<Register>
    ensures { result ≡ named_register word.now }
{
    let rows = [
        ("zero", Register::new(0)),
        ("ra", Register::new(1)),
        ("sp", Register::new(2)),
        ("gp", Register::new(3)),
        ("tp", Register::new(4)),
        ("fp", Register::new(8)),
    ];
    found_in(word, &rows)
}

fn numbered_register(letter: u8, number: u64) -> Option<Register>
    ensures { result ≡ numbered_register letter number }
{
    match letter {
        b'x' if number < 32 => Some(Register::new(number as u32)),
        b'a' if number < 8 => Some(Register::new(10 + number as u32)),
        b's' if number < 2 => Some(Register::new(8 + number as u32)),
        b's' if number < 12 => Some(Register::new(16 + number as u32)),
        b't' if number < 3 => Some(Register::new(5 + number as u32)),
        b't' if number < 7 => Some(Register::new(25 + number as u32)),
        _ => None,
    }
}

fn lettered_register(word: &[u8]) -> Option<Register>
    ensures { result ≡ lettered_register word.now }
{
    match word {
        [] => None,
        [letter, digits @ ..] => numbered_register(*letter, read_dec(digits)?),
    }
}

/// The register that a word names. `None` where it names none.
pub fn register_of(word: &[u8]) -> Option<Register>
    ensures { result ≡ register_in word.now }
{
    match named_register(word) {
        Some(register) => Some(register),
        None => lettered_register(word),
    }
}
