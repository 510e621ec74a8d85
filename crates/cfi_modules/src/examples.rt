//! Places and entries of small modules, worked out by hand.

ghost use Rattle.std.specs.Prelude.{◌≡◌, [], ◌∷◌, codes};
ghost use Rattle.cfi_modules.specs.Entry.{IsGlobal, IsFirstOf, HasNoneOf, IsEntryIn};
ghost use Rattle.cfi_modules.specs.Examples.{one_byte, sixteen_bytes, seventeen_bytes, room_at, having, low, high, own, own_at, main_at};
ghost use Rattle.cfi_modules.specs.Room.{room_after};

/// The next free places behind three modules with 1, 16 and 17 bytes of data; the first Global function of a module,
/// in both orders of the records; and the entry of a name that two modules have.
pub fn places_by_hand()
    ensures nothing { room_after 1024 [] ≡ room_at 16 0 0x40000000 }
    ensures one { room_after 1024 (one_byte ∷ []) ≡ room_at 31 1 0x40000010 }
    ensures two { room_after 1024 (one_byte ∷ sixteen_bytes ∷ []) ≡ room_at 60 3 0x40000020 }
    ensures three { room_after 1024 (one_byte ∷ sixteen_bytes ∷ seventeen_bytes ∷ []) ≡
        room_at 62 3 0x40000040 }
    ensures rising { IsFirstOf IsGlobal (having 16 (own ∷ low ∷ high ∷ [])) 72 }
    ensures falling { IsFirstOf IsGlobal (having 16 (own ∷ high ∷ low ∷ [])) 84 }
    ensures none { HasNoneOf IsGlobal (own_at 16) }
    ensures both { IsEntryIn (main_at 16 ∷ main_at 24 ∷ []) (codes "main") 68 }
    ensures turned { IsEntryIn (main_at 24 ∷ main_at 16 ∷ []) (codes "main") 100 }
    ensures second { IsEntryIn (own_at 16 ∷ main_at 24 ∷ []) (codes "main") 100 }
{}
