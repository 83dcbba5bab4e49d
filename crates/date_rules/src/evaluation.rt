ghost use Rattle.std.specs.Prelude.{◌≡◌};
ghost use Rattle.date_rules.specs.Rule.{holds, passes, compares};

use crate::attribute::value_of;
use crate::compare::order_of;
use crate::{Compare, Kind, Pair, Rule, Test};

/// Whether the rule holds at a node and a moment: all its tests pass where `all` is true, else one does.
///
/// The node has this name and these written attributes. The moment is in seconds since 1970-01-01T00:00:00Z.
pub fn holds(rule: &Rule, uname: &[u8], attributes: &[Pair], moment: u64) -> bool
    ensures { result ≡ holds rule.now uname.now attributes.now moment }
{
    if rule.all {
        rule.tests
            .iter()
            .all(|test| passes(test, uname, attributes, moment))
    } else {
        rule.tests
            .iter()
            .any(|test| passes(test, uname, attributes, moment))
    }
}

fn passes(test: &Test, uname: &[u8], attributes: &[Pair], moment: u64) -> bool
    ensures { result ≡ passes test.now uname.now attributes.now moment }
{
    let moment = i128::from(moment);
    match test {
        Test::Attribute {
            name,
            compare,
            kind,
            value,
        } => {
            let own = value_of(name.bytes(), uname, attributes);
            own.is_some_and(|own| compares(*compare, *kind, own, value.bytes()))
        }
        Test::Defined { name } => value_of(name.bytes(), uname, attributes).is_some(),
        Test::NotDefined { name } => value_of(name.bytes(), uname, attributes).is_none(),
        Test::Before { at } => moment < i128::from(*at),
        Test::After { at } => moment > i128::from(*at),
        Test::Within { start, end } => i128::from(*start) <= moment && moment <= i128::from(*end),
    }
}

fn compares(compare: Compare, kind: Kind, own: &[u8], value: &[u8]) -> bool
    ensures { result ≡ compares compare kind own.now value.now }
{
    order_of(kind, own, value).is_some_and(|order| compare.meets(order))
}
