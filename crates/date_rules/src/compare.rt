ghost use Rattle.std.specs.Prelude.{◌≡◌};
ghost use Rattle.date_rules.specs.Compare.{number_order, value_order, meets};

use crate::number::whole_number;
use crate::{Compare, Kind};
use std::cmp::Ordering;

impl Compare {
    /// Whether a node's value that stands so to the test's value passes.
    pub(crate) fn meets(self, order: Ordering) -> bool
        ensures { result ≡ meets self order }
    {
        match self {
            Compare::Lt => order.is_lt(),
            Compare::Gt => order.is_gt(),
            Compare::Lte => order.is_le(),
            Compare::Gte => order.is_ge(),
            Compare::Eq => order.is_eq(),
            Compare::Ne => order.is_ne(),
        }
    }
}

fn number_order(value: &[u8], wanted: &[u8]) -> Option<Ordering>
    ensures { result ≡ number_order value.now wanted.now }
{
    let value = whole_number(value)?;
    let wanted = whole_number(wanted)?;
    Some(value.cmp(&wanted))
}

/// How a node's value stands to the test's, if the two can be compared so.
pub fn order_of(kind: Kind, value: &[u8], wanted: &[u8]) -> Option<Ordering>
    ensures { result ≡ value_order kind value.now wanted.now }
{
    match kind {
        Kind::Number => number_order(value, wanted),
        Kind::Word => Some(value.cmp(&wanted)),
        Kind::Auto => number_order(value, wanted).or_else(|| Some(value.cmp(&wanted))),
    }
}
