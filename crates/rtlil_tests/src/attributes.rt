//! Attributes by their names.
use rtlil_lexer::lex;
use rtlil_tree::{Const, attribute_value, parse};
use std::test::Fail;

#[test]
fn the_last_of_one_name_counts(rt: HostRuntime) -> Result<(), Fail> {
    let text = b"attribute \\a 1\nattribute \\b 2\nattribute \\a 3\nmodule \\m\nend\n";
    let tokens = lex(rt.alloc(), text)?;
    let file = parse(rt.alloc(), tokens.as_slice())?;
    let module = file.modules.as_slice().first().ok_or("no module")?;
    let attributes = module.attributes.as_slice();
    assert!(rt; matches!(attribute_value(attributes, b"\\a"), Some(Const::Integer(3))));
    assert!(rt; matches!(attribute_value(attributes, b"\\b"), Some(Const::Integer(2))));
    assert!(rt; attribute_value(attributes, b"\\c").is_none());
    Ok(())
}
