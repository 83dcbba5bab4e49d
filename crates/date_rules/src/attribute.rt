ghost use Rattle.std.specs.Prelude.{◌≡◌, find};
ghost use Rattle.std.specs.Option.{option_copied};
ghost use Rattle.date_rules.specs.Attribute.{is_same_text, attribute_value};

use crate::Pair;

/// The name of the attribute that each node has without it being written, and whose value is the node's name.
const UNAME: &[u8] = b"#uname";

/// The value of a node's attribute, where the node of this name and with these written attributes has it.
pub fn value_of<'a>(name: &[u8], uname: &'a [u8], attributes: &'a [Pair]) -> Option<&'a [u8]>
    ensures { option_copied result ≡ attribute_value name.now uname.now attributes.now }
{
    if name == UNAME {
        return Some(uname);
    }
    first_of_name(name, attributes).map(|pair| pair.value.bytes())
}

fn first_of_name<'a>(name: &[u8], attributes: &'a [Pair]) -> Option<&'a Pair>
    ensures { option_copied result ≡ find (λ pair. is_same_text pair.name name.now) attributes.now }
{
    attributes.iter().find(|pair| pair.name.bytes() == name)
}
