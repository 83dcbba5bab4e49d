//! The statements with sections.

/// A statement with sections.
#[derive(Clone, Copy)]
pub enum Owner {
    Node,
    Primitive,
    Group,
    Clone,
    /// `ms` or `master`.
    Ms,
}

/// A section.
#[derive(Clone, Copy)]
pub enum SectionWord {
    Attributes,
    Params,
    Meta,
    Utilization,
    Operations,
    Op,
}
