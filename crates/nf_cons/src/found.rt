//! The arcs of a name.
/// The arcs of a name: the number of the first one, from 0, and whether there are more.
#[derive(Clone, Copy, Debug)]
pub struct NamedArc {
    pub number: usize,
    pub is_shared: bool,
}
