//! Texts that are read as modules, and texts that are not.
use flat_text::{FlatFault, Module, read_module};
use std::alloc::Global;
use std::str::from_utf8;
use std::test::Fail;
use test_designs::designs::COUNTER_AS_WRITTEN;

/// The module's name, its wires with width, kind and number of attributes, and its cells with the numbers of
/// parameters and connections.
fn told(alloc: Global, module: &Module) -> Result<String, Fail> {
    let mut told = format!(in alloc; "{}", from_utf8(module.name.as_bytes())?)?;
    for wire in module.wires.as_slice() {
        let name = from_utf8(wire.name.as_bytes())?;
        write!(
            told,
            "\n{name} {} {:?} {}",
            wire.width,
            wire.port,
            wire.attributes.len()
        )?;
    }
    for cell in module.cells.as_slice() {
        let kind = from_utf8(cell.kind.as_bytes())?;
        let name = from_utf8(cell.name.as_bytes())?;
        write!(
            told,
            "\n{kind} {name} {} {}",
            cell.parameters.len(),
            cell.connections.len()
        )?;
    }
    Ok(told)
}

#[test]
fn a_counter_is_read(rt: HostRuntime) -> Result<(), Fail> {
    let module = read_module(rt.alloc(), COUNTER_AS_WRITTEN.as_bytes())?;
    let want = r"\counter
\clk 1 Input 0
\q 8 Output 1
$n 8 Internal 0
$add $a 5 3
$dff $r 2 3";
    assert_eq!(rt; told(rt.alloc(), &module)?.as_str(), want);
    Ok(())
}

const OTHER_TEXTS: &str = "---
module $m
\tend
---
module $m
wire $\x7f
end
---
module  $m
end
---
module $m
end
module $n
end
---
module m
end
---
module $m
process $p
end
end
---
module $m
connect $a $b
end
---
autoidx 1234567890
module $m
end
---
module $m
wire width 8
end
---
module $m
wire inout 1 $w
end
---
module $m
attribute $a 1
end
---
module $m
attribute $a 2'1
wire $w
end
---
module $m
attribute $a 2'x1
wire $w
end
---
module $m
attribute $a \"a b\"
wire $w
end
---
module $m
cell $k $c
end
---
module $m
cell $k $c
connect $p $w
parameter $q 1
end
end
---
module $m
cell $k $c
end
wire $w
end
---
module $m
end";

#[test]
fn texts_of_other_forms_are_refused(rt: HostRuntime) {
    for text in OTHER_TEXTS.split("---\n") {
        let read = read_module(rt.alloc(), text.as_bytes());
        assert!(rt; matches!(&read, Err(FlatFault::NotBuilt)), "{text}");
    }
}

#[test]
fn faults_have_texts(rt: HostRuntime) -> Result<(), Fail> {
    let text = format!(in rt.alloc(); "{}; {}", FlatFault::NotBuilt, FlatFault::NoMemory)?;
    assert_eq!(rt; text.as_str(), "this form is not built yet; out of memory");
    Ok(())
}
