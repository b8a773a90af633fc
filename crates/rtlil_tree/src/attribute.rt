//! Attributes by their names.
ghost use Rattle.std.specs.Prelude.{◌≡◌, option_copied};
ghost use Rattle.rtlil_tree.specs.Attributes.{attribute_value};

use crate::module::Attribute;
use crate::sig::Const;

/// The value of the attribute with this name, or none. Of several with one name the last counts.
pub fn attribute_value<'a, 't>(
    attributes: &'a [Attribute<'t>],
    name: &[u8],
) -> Option<&'a Const<'t>>
    ensures { option_copied result ≡ attribute_value name.now attributes.now }
{
    let mut found = None;
    for attribute in attributes {
        if attribute.name.as_bytes() == name {
            found = Some(&attribute.value);
        }
    }
    found
}
