use crate::names::Kind;
use cust_data::Rule;
use sequence::Text;

/// A layer as it is declared: for which kind of element, its name, how many numbers each element has in
/// it, from 1 to 4, and how they are mixed.
#[derive(Clone, Debug, Drop)]
pub struct LayerDecl {
    pub kind: Kind,
    pub name: Text,
    pub width: u8,
    pub rule: Rule,
}
