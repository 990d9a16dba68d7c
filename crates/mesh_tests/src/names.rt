//! Names as they are printed, in capitals.

use mesh_model::{EdgeName, FaceName, VertName};

pub(crate) const V0: VertName = VertName(0);

pub(crate) const V1: VertName = VertName(1);

pub(crate) const V2: VertName = VertName(2);

pub(crate) const V3: VertName = VertName(3);

pub(crate) const V4: VertName = VertName(4);

pub(crate) const E0: EdgeName = EdgeName(0);

pub(crate) const E1: EdgeName = EdgeName(1);

pub(crate) const E2: EdgeName = EdgeName(2);

pub(crate) const E3: EdgeName = EdgeName(3);

pub(crate) const E4: EdgeName = EdgeName(4);

pub(crate) const E5: EdgeName = EdgeName(5);

pub(crate) const F0: FaceName = FaceName(0);

pub(crate) const F1: FaceName = FaceName(1);

pub(crate) const F2: FaceName = FaceName(2);
