//! Relocations, applied to bytes.

ghost use Rattle.std.specs.Prelude.{◌≡◌, ◌+◌, ◌≤◌, true, length, Ok, Err, OnOk, OnErr, IfErr};
ghost use Rattle.elf_read.specs.Relocation.{is_known, field_size};
ghost use Rattle.rv_reloc.specs.Table.{rule_size};
ghost use Rattle.rv_reloc.specs.Applied.{written, applied};

use crate::bytes::{put_word, word_at};
use crate::fault::RelocFault;
use crate::field::{filled, immediate};
use crate::formula::number_by;
use crate::table::{Rule, rule_of};
use elf_read::Reloc;

// Gives the words of a row the number.
fn write(bytes: &mut [u8], rule: Rule, number: u32, at: usize) -> Result<(), RelocFault>
    requires within { at + rule_size rule ≤ length bytes.old }
    ensures ok { OnOk result (written rule number at bytes.old ≡ Ok bytes.new) }
    ensures fault { IfErr result (λ fault. written rule number at bytes.old ≡ Err fault) }
    ensures same { OnErr result (bytes.new ≡ bytes.old) }
{
    let word = filled(rule.field, number, word_at(bytes, at))?;
    if let Some(form) = rule.next {
        let next = immediate(form, number, word_at(bytes, at + 4))?;
        put_word(bytes, at, word);
        put_word(bytes, at + 4, next);
    } else {
        put_word(bytes, at, word);
    }
    Ok(())
}

/// Applies a relocation: its field, in bytes from `reloc.offset` on, gets the value of its row.
///
/// `at` is the address of the field, `value` that of the symbol (S), and `partner` the displacement of the relocation
/// of the high part that a low part belongs to. The kind is one of the table; one that changes nothing is applied so.
/// `Range` where a displacement is too far or odd, `NoPartner` where a partner is wanted and none, `Field` where a word
/// is no instruction with such a field; the bytes then stay. It takes no memory. RISC-V ELF psABI, "Relocations".
pub fn apply(
    bytes: &mut [u8],
    reloc: &Reloc,
    at: u32,
    value: u32,
    partner: Option<u32>,
) -> Result<(), RelocFault>
    requires known { is_known reloc.now.kind ≡ true }
    requires within { reloc.now.offset + field_size reloc.now.kind ≤ length bytes.old }
    ensures ok { OnOk result (applied reloc.now at value partner bytes.old ≡ Ok bytes.new) }
    ensures fault { IfErr result (λ fault. applied reloc.now at value partner bytes.old
        ≡ Err fault) }
    ensures same { OnErr result (bytes.new ≡ bytes.old) }
{
    let Some(rule) = rule_of(reloc.kind) else {
        return Ok(());
    };
    let number = number_by(rule.formula, value, reloc.addend, at, partner)?;
    write(bytes, rule, number, reloc.offset as usize)
}
