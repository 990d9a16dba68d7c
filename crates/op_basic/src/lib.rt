//! Operators.
#![tactic(auto)]

mod boundary;
mod coordinates;
mod deleting;
mod facing;
mod joining;
pub mod laws;
mod making;
mod mirroring;
mod scaling;
mod searching;
mod siding;
mod translating;
mod turning;

pub use deleting::{DeleteArgs, delete};
pub use facing::{MakeFaceArgs, make_face};
pub use joining::{MakeEdgeArgs, make_edge};
pub use making::{MakeVertArgs, make_vert};
pub use mirroring::{MirrorArgs, mirror};
pub use scaling::{ScaleArgs, scale};
pub use translating::{TranslateArgs, translate};
pub use turning::{ReverseArgs, reverse};
