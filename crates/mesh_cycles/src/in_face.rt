//! The loops of a face, which are its corners.
ghost use Rattle.std.specs.Prelude.{◌≡◌, ◌<◌, ◌^◌, length};
ghost use Rattle.std.specs.Iterator.{YieldsFirst, item_count};
ghost use Rattle.raw_pool.specs.Slots.{IsLive};
ghost use Rattle.link_ring.specs.Members.{AllDistinct};
ghost use Rattle.mesh_cycles.specs.Cycles.{AreCycles};
ghost use Rattle.mesh_cycles.specs.Found.{AllLive, loops_in};
ghost use Rattle.mesh_cycles.specs.Left.{loops_in_left, CanGiveLoopsIn};

use crate::cycle_iter::{CycleIter, members_of};
use crate::face_loops::first_round;
use mesh_store::{Round, Slot, Store};
use std::iter::FusedIterator;

/// An iterator over the loops of a face, which [`corners_of_face`] makes.
///
/// After the last loop it answers `None` for ever. An item takes constant time.
#[derive(Drop)]
#[must_use]
pub struct CornersOfFace<'a> {
    corners: CycleIter<'a, Round, Store>,
}

impl<'a> Iterator for CornersOfFace<'a> {
    type Item = Slot;

    ghost can_next = { CanGiveLoopsIn };

    ghost next_gives = { YieldsFirst loops_in_left };

    ghost remaining = { item_count loops_in_left };

    fn next(&mut self) -> Option<Slot> {
        let corner = self.corners.next()?;
        Some(corner.0)
    }
}

impl<'a> FusedIterator for CornersOfFace<'a> {}

/// The loops of a live face, along its loop cycle from its first loop on. Constant time. There are never as many as 32
/// bits could count.
pub fn corners_of_face(st: &Store, f: Slot) -> CornersOfFace<'_>
    requires cycles { AreCycles st.now }
    requires live { IsLive st.now.faces.cells f.0 }
    ensures items { loops_in_left result ≡ loops_in st.now f.0 }
    ensures once { AllDistinct (loops_in st.now f.0) }
    ensures live { AllLive st.now.loops (loops_in st.now f.0) }
    ensures few { length (loops_in st.now f.0) < 2 ^ 32 }
    ensures ready { CanGiveLoopsIn result }
{
    CornersOfFace {
        corners: members_of(st, first_round(st, f)),
    }
}
