//! What the table words of one epoch have in common.

ghost use Rattle.std.specs.Prelude.{◌≡◌, ◌≤◌};
ghost use Rattle.cfi_word.specs.Ids.{IsField};
ghost use Rattle.cfi_word.specs.declared.limits.TheConstants.{MIN_VERSIONS, MAX_VERSIONS, MAX_EPOCH, MAX_POLICY};
ghost use Rattle.cfi_tables.specs.inner.Stamps.{Stamp as TheStamp, word_by};

use cfi_word::Word;
use std::marker::Model;

/// The epoch, its policy, and the number of versions.
#[derive(Drop)]
pub struct Stamp {
    epoch: u32,
    policy: u32,
    versions: u32,
}

impl Model for Stamp {
    ghost use Rattle.cfi_tables.specs.inner.Stamps.{Stamp as TheStamp, stamp_by, IsStamp};

    ghost Value = { TheStamp };

    ghost view = { stamp_by };

    ghost invariant = { IsStamp };
}

impl Stamp {
    /// The stamp of an epoch, its policy and so many versions, each within its limits.
    pub fn new(epoch: u32, policy: u32, versions: u32) -> Stamp
        requires epoch { epoch ≤ MAX_EPOCH }
        requires policy { policy ≤ MAX_POLICY }
        requires least { MIN_VERSIONS ≤ versions }
        requires most { versions ≤ MAX_VERSIONS }
        ensures { result ≡ record { epoch = epoch; policy = policy; versions = versions } }
    {
        Stamp {
            epoch,
            policy,
            versions,
        }
    }

    /// The table word of a class.
    #[inline(always)]
    pub fn word(&self, class: u32) -> u64
        requires { IsField class }
        ensures { result ≡ word_by self.now class }
    {
        Word::pack(self.epoch, self.policy, class, self.versions)
    }
}
