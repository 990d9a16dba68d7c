/// How the numbers of a layer are mixed.
#[derive(Clone, Copy, Debug, PartialEq, Eq)]
pub enum Rule {
    /// Number by number, in proportion.
    Mix,
    /// The first of two rows gives its numbers.
    Copy,
}
