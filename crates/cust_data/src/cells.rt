//! The cells of a layer, by width and rule.

use crate::column::Column;

/// A column for each of the eight cases of width and rule.
#[derive(Drop)]
pub enum Cells {
    Mix1(Column<1>),
    Mix2(Column<2>),
    Mix3(Column<3>),
    Mix4(Column<4>),
    Copy1(Column<1>),
    Copy2(Column<2>),
    Copy3(Column<3>),
    Copy4(Column<4>),
}
