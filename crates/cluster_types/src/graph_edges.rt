use edges::Edge;
use listed::Listed;

/// The edges between the positions of a graph, which count from 0: its actions come first, in their order, and gates follow. What stands at one end of
/// an edge must be over before what stands at the other may begin. A gate is no action; it joins what leads to it with all that it leads to, so that few
/// edges say of many actions that each of them comes before each of others.
#[derive(PartialEq, Eq, Drop)]
pub struct Edges {
    /// How many positions there are.
    pub positions: u32,
    pub list: Listed<Edge>,
}
