//! With which of its loops a face comes.
ghost use Rattle.std.specs.Prelude.{◌≡◌, false, List, IsTrue};
ghost use Rattle.std.specs.Iterator.{IsFinite, AlwaysYields};
ghost use Rattle.raw_pool.specs.declared.pool.Slot.{Slot};
ghost use Rattle.raw_pool.specs.Slots.{IsLive};
ghost use Rattle.mesh_cycles.specs.Found.{AllLive, IsAlone, face_at, own_or_first};

use mesh_store::{Slot, Store};

/// The loop `own`, if there is one and it is among some live loops, else the first of these that names the face.
pub(crate) fn own_or_first<I: Iterator<Item = Slot> + Drop>(
    st: &Store,
    own: Option<Slot>,
    loops: I,
    f: Slot,
) -> Option<Slot>
    requires can { I.can_next loops }
    requires ends { IsFinite (I.remaining loops) }
    requires live { (ls : List Slot) × AlwaysYields I.next_gives (λ l. l) loops ls × AllLive st.now.loops ls }
    ensures { (ls : List Slot) → AlwaysYields I.next_gives (λ l. l) loops ls → result ≡ own_or_first st.now own ls f }
{
    let mut first = None;
    for l in loops {
        if own == Some(l) {
            return own;
        }
        let named = (st.loop_face(l) == f).then_some(l);
        first = first.or(named);
    }
    first
}

/// Whether `l` is the only one of some live loops that names the face. Where that takes more than so many steps to find
/// out, it answers `false`.
pub(crate) fn is_alone<I: Iterator<Item = Slot> + Drop>(
    st: &Store,
    loops: I,
    l: Slot,
    f: Slot,
    steps: u32,
) -> bool
    requires can { I.can_next loops }
    requires ends { IsFinite (I.remaining loops) }
    requires live { (ls : List Slot) × AlwaysYields I.next_gives (λ l. l) loops ls × AllLive st.now.loops ls }
    ensures { (ls : List Slot) → AlwaysYields I.next_gives (λ l. l) loops ls → IsTrue result → IsAlone st.now ls f l }
{
    let mut left = steps;
    for k in loops {
        if left == 0 {
            return false;
        }
        if is_other(st, k, l, f) {
            return false;
        }
        left -= 1;
    }
    true
}

// Whether a live loop names the face and isn't `l`.
fn is_other(st: &Store, k: Slot, l: Slot, f: Slot) -> bool
    requires { IsLive st.now.loops k.0 }
    ensures { result ≡ false → face_at st.now k ≡ f → k ≡ l }
{
    k != l && st.loop_face(k) == f
}
