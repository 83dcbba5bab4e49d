/// How a kernel goes over the nodes.
#[derive(Clone, Copy)]
pub(crate) enum Form {
    /// By whole vectors of lanes, and then node by node.
    Lanes,
    /// Node by node alone.
    Plain,
}
