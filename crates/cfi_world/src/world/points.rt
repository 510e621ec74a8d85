// How far guests are in services.

ghost use Rattle.std.specs.Prelude.{◌≡◌};
ghost use Rattle.cfi_model.specs.World.{point_of};

use crate::world::World;
use cfi_model::Point;

impl World {
    /// How far the guest of this number is in a service.
    pub fn point(&self, guest: u32) -> Point
        ensures { result ≡ point_of self.now guest }
    {
        match self.points.as_slice().get(guest as usize) {
            Some(point) => *point,
            None => Point::Outside,
        }
    }
}
