//! The outputs of one step beside one another.
ghost use Rattle.std.specs.Prelude.{◌≡◌, ◌↔◌, ◌⊎◌, None, IsTrue, IfOk, IfSome};
ghost use Rattle.std.specs.FinMap as map;
ghost use Rattle.b2_virtual.specs.Spots.{GoesFurther, AreOwnSpots};

use crate::spot_map::SpotMap;
use b2_base::fault::OutOfMemory;
use b2_base::text::Text;
use std::alloc::Global;

/// From so many outputs on, look-ups take less than a comparison of each with each.
const MANY: usize = 9;

/// The spots of the outputs of one step, and those of them that no other one begins.
#[derive(Drop)]
pub(crate) struct OwnSpots {
    pub every: SpotMap,
    pub outermost: SpotMap,
}

impl OwnSpots {
    /// Each spot, and the outermost ones.
    fn new(alloc: Global, spots: &[Text]) -> Result<OwnSpots, OutOfMemory>
        ensures { IfOk result (λ made. AreOwnSpots spots.now made.every made.outermost) }
    {
        let mut every = SpotMap::new(alloc);
        every.insert_all(spots, 1)?;
        let outermost = every.outermost(alloc)?;
        Ok(OwnSpots { every, outermost })
    }

    /// The spots where they are many, else none. Few spots take no memory.
    pub(crate) fn of_many(alloc: Global, spots: &[Text]) -> Result<Option<OwnSpots>, OutOfMemory>
        ensures { IfOk result (λ made. IfSome made (λ own. AreOwnSpots spots.now own.every own.outermost)) }
    {
        if spots.len() < MANY {
            return Ok(None);
        }
        Ok(Some(OwnSpots::new(alloc, spots)?))
    }

    /// Whether one of the spots begins another one, or another one begins it: that is so of each that is not outermost. Takes no
    /// memory.
    pub(crate) fn is_nested(&self, spot: &Text) -> bool
        ensures { IsTrue result ↔ ((map.get self.now.outermost spot.now ≡ None) ⊎ GoesFurther self.now.every spot.now) }
    {
        match self.outermost.get(spot).copied() {
            None => true,
            Some(_number) => self.every.goes_further(spot),
        }
    }
}
