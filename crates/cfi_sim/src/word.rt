//! Table words as text.

ghost use Rattle.std.specs.Prelude.{◌≡◌, ◌++◌, OnOk};
ghost use Rattle.cfi_sim.specs.Step.{bary_text, epoch_text, quiet_text, target_text, tary_text, word_text};

use cfi_text::{put_dec, put_hex8};
use cfi_word::{Word, class_of};
use cfi_world::World;
use std::alloc::AllocError;

// Appends what a table word has.
#[tactic(auto, unfolding(crate::specs::Step::word_text))]
fn put_word(out: &mut Vec<u8>, word: u64) -> Result<(), AllocError>
    ensures { OnOk result (out.new.items ≡ out.old.items ++ word_text word) }
{
    out.extend_from_slice(b" epoch ")?;
    put_dec(out, u64::from(Word::epoch_of(word)))?;
    out.extend_from_slice(b" policy ")?;
    put_dec(out, u64::from(Word::policy_of(word)))?;
    out.extend_from_slice(b" class ")?;
    put_dec(out, u64::from(class_of(Word::id_of(word))))
}

/// Appends the word that was loaded for a slot.
pub fn put_bary(out: &mut Vec<u8>, slot: u32, word: u64) -> Result<(), AllocError>
    ensures { OnOk result (out.new.items ≡ out.old.items ++ bary_text slot word) }
{
    out.extend_from_slice(b"bary ")?;
    put_dec(out, u64::from(slot))?;
    put_word(out, word)
}

// Appends a target.
#[tactic(auto, unfolding(crate::specs::Step::target_text))]
fn put_target(out: &mut Vec<u8>, at: u32) -> Result<(), AllocError>
    ensures { OnOk result (out.new.items ≡ out.old.items ++ target_text at) }
{
    out.extend_from_slice(b"tary ")?;
    put_hex8(out, at)
}

/// Appends the word that was loaded for a target.
pub fn put_tary(out: &mut Vec<u8>, at: u32, word: u64) -> Result<(), AllocError>
    ensures { OnOk result (out.new.items ≡ out.old.items ++ tary_text at word) }
{
    put_target(out, at)?;
    put_word(out, word)
}

/// Appends what EPOCH has.
#[tactic(auto, unfolding(crate::specs::Step::epoch_text))]
pub fn put_epoch(out: &mut Vec<u8>, world: &World) -> Result<(), AllocError>
    ensures { OnOk result (out.new.items ≡ out.old.items ++ epoch_text world.now.tables) }
{
    out.extend_from_slice(b"epoch ")?;
    put_dec(out, u64::from(world.epoch()))?;
    out.extend_from_slice(b" policy ")?;
    put_dec(out, u64::from(world.policy()))
}

/// Appends the epoch that is published.
pub fn put_quiet(out: &mut Vec<u8>, epoch: u32) -> Result<(), AllocError>
    ensures { OnOk result (out.new.items ≡ out.old.items ++ quiet_text epoch) }
{
    out.extend_from_slice(b"quiet ")?;
    put_dec(out, u64::from(epoch))
}
