ghost use Rattle.std.specs.Prelude.{◌↔◌, IsTrue};
ghost use Rattle.edges.specs.Loops.{EndsWithin};

/// An edge from one position to another, both counted from 0.
#[derive(Clone, Copy, Debug, PartialEq, Eq)]
pub struct Edge {
    /// Where the edge begins.
    pub before: u32,
    /// Where the edge ends.
    pub after: u32,
}

/// Whether both ends of each edge are positions, of which there are so many.
pub fn end_within(positions: u32, edges: &[Edge]) -> bool
    ensures { IsTrue result ↔ EndsWithin positions edges.now }
{
    for edge in edges {
        if edge.before >= positions || edge.after >= positions {
            return false;
        }
    }
    true
}
