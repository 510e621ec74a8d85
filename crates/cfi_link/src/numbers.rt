//! The numbers that symbols get when local ones come before all others.

ghost use Rattle.std.specs.Prelude.{◌≡◌, ◌≤◌, count_by, length, IfOk};
ghost use Rattle.cfi_word.specs.declared.limits.TheConstants.{MAX_SYMBOLS};
ghost use Rattle.cfi_link.specs.Chosen.{is_local_symbol, numbers_of};

use crate::settled::is_local;
use elf_read::Symbol;
use std::alloc::{AllocError, Global};

// How many symbols are local.
fn local_count(symbols: &[Symbol]) -> usize
    ensures { result ≡ count_by is_local_symbol symbols.now }
{
    symbols.iter().filter(|symbol| is_local(symbol)).count()
}

/// The new number of each symbol.
pub fn numbers_of(alloc: Global, symbols: &[Symbol]) -> Result<Vec<u32>, AllocError>
    requires { length symbols.now ≤ MAX_SYMBOLS }
    ensures { IfOk result (λ numbers. numbers.items ≡ numbers_of symbols.now) }
{
    let mut numbers = Vec::with_capacity(alloc, symbols.len())?;
    let mut local = 0;
    let mut other = local_count(symbols) as u32;
    for symbol in symbols {
        if is_local(symbol) {
            numbers.push(local)?;
            local += 1;
        } else {
            numbers.push(other)?;
            other += 1;
        }
    }
    Ok(numbers)
}
