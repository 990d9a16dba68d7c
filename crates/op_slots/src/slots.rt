//! What a done command gives back.
ghost use Rattle.std.specs.Prelude.{◌≡◌, IfOk};

use crate::buffer::Buffer;
use crate::mapping::Mapping;
use sequence::NoMemory;

/// What a done command gives back: elements, and where vertices went.
#[derive(Debug, Drop)]
pub struct Slots {
    pub geom: Buffer,
    pub map: Mapping,
}

impl Slots {
    /// Equal slots, in time proportional to what they hold.
    pub fn copy(&self) -> Result<Slots, NoMemory>
        ensures { IfOk result (λ s. s ≡ self.now) }
    {
        let geom = self.geom.copy()?;
        let map = self.map.copy()?;
        Ok(Slots { geom, map })
    }
}
