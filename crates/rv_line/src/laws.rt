//! Laws of the names of registers.

ghost use Rattle.std.specs.Prelude.{◌≡◌, ◌<◌, ℕ, Some, codes, map};
ghost use Rattle.std.specs.List.{range_with_len};
ghost use Rattle.rv_line.specs.Abi.{abi_names};
ghost use Rattle.rv_line.specs.Register.{register_in};

/// Each register has its name of use, and x8 a second one.
pub fn registers_have_names()
    ensures abi { map register_in abi_names ≡ map Some (range_with_len 0 32) }
    ensures frame { register_in (codes "fp") ≡ Some 8 }
{}
