ghost use Rattle.std.specs.Prelude.{◌≡◌, ◌≢◌, ◌<◌, ◌==◌, ℕ, true, false, length, slice_index, IfSome, IfNone};
ghost use Rattle.std.specs.List.{list_any, before_first};

/// The place of the first zero byte.
fn zero_at(bytes: &[u8]) -> Option<usize>
    ensures some { IfSome result (λ i. (i < length bytes.now) × (slice_index bytes.now i ≡ 0)) }
    ensures before { IfSome result (λ i. (j : ℕ) → j < i → slice_index bytes.now j ≢ 0) }
    ensures none { IfNone result ((j : ℕ) → j < length bytes.now → slice_index bytes.now j ≢ 0) }
{
    for (i, byte) in bytes.iter().enumerate() {
        if *byte == 0 {
            return Some(i);
        }
    }
    None
}

/// The bytes before the first zero byte, if there is one.
pub fn ended(bytes: &[u8]) -> Option<&[u8]>
    ensures some { IfSome result (λ name. name.now ≡ before_first (λ byte. byte == 0) bytes.now) }
    ensures ends { IfSome result (λ name. list_any (λ byte. byte == 0) bytes.now ≡ true) }
    ensures none { IfNone result (list_any (λ byte. byte == 0) bytes.now ≡ false) }
{
    match zero_at(bytes) {
        Some(i) => Some(bytes.split_at(i).0),
        None => None,
    }
}
