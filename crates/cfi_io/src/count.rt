//! Counts of what went wrong, which never fall and stand still at their type's end.
ghost use Rattle.std.specs.Prelude.{◌≤◌, ◌≡◌, ◌↔◌, IsTrue, Contains};
ghost use Rattle.cfi_io.specs.Count.{Rose, next_count};

/// Counts one more.
pub fn raise(count: &mut u64)
    ensures rose { Rose count.old count.new }
    ensures kept { count.old ≤ count.new }
    ensures by_one { count.new ≡ next_count count.old }
{
    if *count < u64::MAX {
        *count += 1;
    }
}

/// The numbered calls of an object in memory, some of which fail.
#[derive(Debug, Drop)]
pub struct Calls {
    pub fails: Vec<u32>,
    pub made: u64,
    pub faults: u64,
}

impl Calls {
    /// No call was made yet.
    pub fn new(fails: Vec<u32>) -> Self
        ensures { result ≡ record { fails = fails; made = 0; faults = 0 } }
    {
        Calls {
            fails,
            made: 0,
            faults: 0,
        }
    }

    /// Counts a call, and says whether it is to fail.
    pub fn fails_now(&mut self) -> bool
        ensures fails { IsTrue result ↔ Contains self.old.fails.items self.old.made }
        ensures faults { self.new.faults ≡ self.old.faults }
        ensures same { self.new.fails ≡ self.old.fails }
        ensures made { self.new.made ≡ next_count self.old.made }
    {
        let number = self.made;
        raise(&mut self.made);
        self.fails.iter().any(|k| u64::from(*k) == number)
    }
}
