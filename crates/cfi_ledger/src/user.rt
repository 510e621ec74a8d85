//! The modules that jump into one.

ghost use Rattle.std.specs.Prelude.{ℕ, ◌<◌, IfNone, IfSome, length};
ghost use Rattle.cfi_graph.specs.Live.{IsFirstUser, IsUser};

use crate::roster::Roster;
use cfi_modules::series_have_graph;

impl Roster {
    /// The place in load order of the first other live module with a direct jump into the one at a place. It takes no
    /// memory.
    pub fn user_of(&self, place: usize) -> Option<usize>
        requires { place < length self.now.placed }
        ensures some { IfSome result (IsFirstUser self.now.placed self.now.flags place) }
        ensures none { IfNone result
            ((by : ℕ) → IsUser self.now.placed self.now.flags place by → ⊥) }
    {
        series_have_graph();
        let user = cfi_retire::user_of(self.modules(), self.flags(), place as u32)?;
        Some(user as usize)
    }
}
