ghost use Rattle.std.specs.Prelude.{◌≡◌, ◌<◌, ◌≤◌, ◌^◌};
ghost use Rattle.cfi_word.specs.Word.{IsPackable, packed, id_in, policy_in, epoch_in};
ghost use Rattle.cfi_word.specs.declared.limits.TheConstants.{MAX_EPOCH, MAX_POLICY};

use crate::ids::id;

/// How a word of the shared tables is packed. No value of this type is made.
pub enum Word {}

impl Word {
    /// The table word of an epoch, its policy and a class, where IDs have this many versions.
    ///
    /// Bits 0 to 31 have the ID of the class and of the version `epoch % versions`, bits 32 to 39 the policy, bits 40
    /// to 63 the epoch. `epoch` is at most `MAX_EPOCH`, `policy` at most `MAX_POLICY`, `class` at most `FIELD_MAX`, and
    /// `versions` from `MIN_VERSIONS` to `MAX_VERSIONS`.
    #[tactic(auto, unfolding(crate::specs::Word::packed))]
    pub fn pack(epoch: u32, policy: u32, class: u32, versions: u32) -> u64
        requires { IsPackable epoch policy class versions }
        ensures { result ≡ packed epoch policy class versions }
    {
        u64::from(id(class, epoch % versions))
            + (u64::from(policy) << 32)
            + (u64::from(epoch) << 40)
    }

    /// The ID in any word: all that a guest's load sees.
    #[tactic(auto, unfolding(crate::specs::Word::id_in))]
    pub fn id_of(word: u64) -> u32
        ensures { result ≡ id_in word }
    {
        (word % (1 << 32)) as u32
    }

    /// The policy number in any word, at most `MAX_POLICY`.
    #[tactic(auto, unfolding(crate::specs::Word::policy_in))]
    pub fn policy_of(word: u64) -> u32
        ensures field { result ≡ policy_in word }
        ensures within { result ≤ MAX_POLICY }
    {
        (word >> 32) as u32 % 256
    }

    /// The epoch in any word, at most `MAX_EPOCH`.
    #[tactic(auto, unfolding(crate::specs::Word::epoch_in))]
    pub fn epoch_of(word: u64) -> u32
        ensures field { result ≡ epoch_in word }
        ensures within { result ≤ MAX_EPOCH }
    {
        (word >> 40) as u32
    }
}
