ghost use Rattle.std.specs.Prelude.{◌≡◌, ℕ, ◌+◌, ◌*◌, ◌/◌, ◌%◌, ◌^◌, ◌<◌, ◌≤◌};
ghost use Rattle.cfi_word.specs.Ids.{spread_of, gathered_of, id_of, class_in, version_in};

/// The greatest class number and the greatest version: fourteen ones.
pub const FIELD_MAX: u32 = 16383;

/// The ID of a class number and a version, each at most `FIELD_MAX`.
///
/// MCFI (Niu and Tan, PLDI 2014): the class is in the two high bytes, the version in the two low bytes, seven bits a
/// byte; the lowest bits of the four bytes are 0, 0, 0, 1 from high to low.
#[tactic(auto, unfolding(crate::specs::Ids::id_of))]
pub fn id(class: u32, version: u32) -> u32
    requires class { class ≤ FIELD_MAX }
    requires version { version ≤ FIELD_MAX }
    ensures { result ≡ id_of class version }
{
    65536 * spread(class) + spread(version) + 1
}

/// The class number in the two high bytes of any word. Each byte's lowest bit is not looked at.
#[tactic(auto, unfolding(crate::specs::Ids::class_in))]
pub fn class_of(id: u32) -> u32
    ensures field { result ≡ class_in id }
    ensures within { result ≤ FIELD_MAX }
{
    gathered(id / 65536)
}

/// The version in the two low bytes of any word. Each byte's lowest bit is not looked at.
#[tactic(auto, unfolding(crate::specs::Ids::version_in))]
pub fn version_of(id: u32) -> u32
    ensures field { result ≡ version_in id }
    ensures within { result ≤ FIELD_MAX }
{
    gathered(id % 65536)
}

// Fourteen bits over two bytes, seven above the lowest bit of each.
fn spread(field: u32) -> u32
    requires { field ≤ FIELD_MAX }
    ensures { result ≡ spread_of field }
{
    field / 128 * 512 + field % 128 * 2
}

// The fourteen bits of two bytes without the lowest bit of each.
fn gathered(half: u32) -> u32
    requires { half < 2 ^ 16 }
    ensures { result ≡ gathered_of half }
{
    half / 512 * 128 + half / 2 % 128
}
