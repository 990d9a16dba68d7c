//! What is kept of an element at its slot.
ghost use Rattle.std.specs.Prelude.{◌≡◌, ℕ};
ghost use Rattle.mesh_store.specs.Stored.{own_link, new_edge, new_loop};

use raw_pool::Slot;

/// One end of an edge, which is its place in the disk cycle of a vertex: side 0 or 1 of a live edge.
#[derive(Clone, Copy, Debug, PartialEq, Eq)]
pub struct Dart {
    pub edge: Slot,
    pub side: u8,
}

/// A loop by its place in the radial cycle of its edge.
#[derive(Clone, Copy, Debug, PartialEq, Eq)]
pub struct Radial(pub Slot);

/// A loop by its place in the loop cycle of its face.
#[derive(Clone, Copy, Debug, PartialEq, Eq)]
pub struct Round(pub Slot);

/// The two links of a dart.
#[derive(Clone, Copy)]
pub struct DiskLink {
    pub next: Dart,
    pub prev: Dart,
}

/// What is kept of a vertex.
#[derive(Clone, Copy)]
pub struct VertCell {
    pub number: u32,
    pub point: [i64; 3],
    pub first_edge: Option<Slot>,
}

/// What is kept of an edge: its ends, its first loop, and the disk link of each end.
#[derive(Clone, Copy)]
pub struct EdgeCell {
    pub number: u32,
    pub ends: [Slot; 2],
    pub first_loop: Option<Slot>,
    pub disk_a: DiskLink,
    pub disk_b: DiskLink,
}

/// What is kept of a loop: its vertex, edge and face, and its links around the edge and around the face.
#[derive(Clone, Copy)]
pub struct LoopCell {
    pub vert: Slot,
    pub edge: Slot,
    pub face: Slot,
    pub radial_next: Radial,
    pub radial_prev: Radial,
    pub round_next: Round,
    pub round_prev: Round,
}

/// What is kept of a face: its first loop, and the number of its loops.
#[derive(Clone, Copy)]
pub struct FaceCell {
    pub number: u32,
    pub first_loop: Option<Slot>,
    pub len: u32,
}

/// A cell whose element has a name.
pub trait Numbered: Copy {
    ghost number: { Self → ℕ };

    /// The number of the name.
    fn number(&self) -> u32
        ensures { result ≡ number self.now };
}

impl Numbered for VertCell {
    ghost number = { λ c. c.number };

    fn number(&self) -> u32 {
        self.number
    }
}

impl Numbered for EdgeCell {
    ghost number = { λ c. c.number };

    fn number(&self) -> u32 {
        self.number
    }
}

impl Numbered for FaceCell {
    ghost number = { λ c. c.number };

    fn number(&self) -> u32 {
        self.number
    }
}

impl EdgeCell {
    /// An edge at a slot, with no loop, whose darts stand alone.
    pub(crate) fn alone(number: u32, ends: [Slot; 2], slot: Slot) -> EdgeCell
        ensures { result ≡ new_edge number ends slot }
    {
        EdgeCell {
            number,
            ends,
            first_loop: None,
            disk_a: DiskLink::own(Dart {
                edge: slot,
                side: 0,
            }),
            disk_b: DiskLink::own(Dart {
                edge: slot,
                side: 1,
            }),
        }
    }
}

impl DiskLink {
    // The links of a dart that lead to itself.
    fn own(dart: Dart) -> DiskLink
        ensures { result ≡ own_link dart }
    {
        DiskLink {
            next: dart,
            prev: dart,
        }
    }
}

impl LoopCell {
    /// A loop at a slot that stands alone.
    pub(crate) fn alone(vert: Slot, edge: Slot, face: Slot, slot: Slot) -> LoopCell
        ensures { result ≡ new_loop vert edge face slot }
    {
        LoopCell {
            vert,
            edge,
            face,
            radial_next: Radial(slot),
            radial_prev: Radial(slot),
            round_next: Round(slot),
            round_prev: Round(slot),
        }
    }
}
