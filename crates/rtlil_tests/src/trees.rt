use rtlil_lexer::{TextFault, lex};
use rtlil_tree::{
    Action, Assignment, Attribute, Cell, Const, File, Memory, Module, Parameter, ParameterKind,
    Process, Setting, Sig, SigPart, Statement, Sync, Trigger, Wire, parse,
};
use sim_base::Bits;
use std::alloc::Global;
use std::process::Abort;
use std::str::from_utf8;
use std::test::Fail;

/// How deep the trees of these tests are, with room to spare.
const DEEP: u32 = 300;

fn push_name(out: &mut String, name: &[u8]) -> Result<(), Fail> {
    write!(out, "{}", from_utf8(name)?)?;
    Ok(())
}

fn has(bits: &Bits, at: u32) -> bool {
    at < bits.width() && bits.bit(at)
}

fn push_digit(
    out: &mut String,
    value: &Bits,
    known: &Bits,
    any: &Bits,
    at: u32,
) -> Result<(), Fail> {
    if has(value, at) {
        write!(out, "1")?;
    } else if has(known, at) {
        write!(out, "0")?;
    } else if has(any, at) {
        write!(out, "-")?;
    } else {
        write!(out, "x")?;
    }
    Ok(())
}

/// Digits behind a quote, an integer as it is, and a string between `<` and `>`.
fn push_const(alloc: Global, out: &mut String, value: &Const) -> Result<(), Fail> {
    match value {
        Const::Digits(constant) => {
            let value = constant.value(alloc)?;
            let known = constant.known(alloc)?;
            let any = constant.any(alloc)?;
            write!(out, "'")?;
            for at in (0..value.width()).rev() {
                push_digit(out, &value, &known, &any, at)?;
            }
        }
        Const::Integer(number) => write!(out, "{number}")?,
        Const::String(text) => {
            write!(out, "<")?;
            push_name(out, text.to_name(alloc)?.as_bytes())?;
            write!(out, ">")?;
        }
    }
    Ok(())
}

fn push_sig(alloc: Global, out: &mut String, sig: &Sig, depth: u32) -> Result<(), Fail> {
    if depth == 0 {
        return Err(Fail::new("deeper than the limit"));
    }
    match &sig.part {
        SigPart::Const(value) => push_const(alloc, out, value)?,
        SigPart::Wire(name) => push_name(out, name.as_bytes())?,
        SigPart::Concatenation(parts) => {
            write!(out, "{{")?;
            for part in parts.as_slice() {
                write!(out, " ")?;
                push_sig(alloc, out, part, depth - 1)?;
            }
            write!(out, " }}")?;
        }
    }
    for slice in sig.slices.as_slice() {
        write!(out, "[{}:{}]", slice.high, slice.low)?;
    }
    Ok(())
}

fn push_assignment(alloc: Global, out: &mut String, said: &Assignment) -> Result<(), Fail> {
    push_sig(alloc, out, &said.left, DEEP)?;
    write!(out, "=")?;
    push_sig(alloc, out, &said.right, DEEP)?;
    Ok(())
}

fn push_attributes(alloc: Global, out: &mut String, attributes: &[Attribute]) -> Result<(), Fail> {
    for attribute in attributes {
        write!(out, "@")?;
        push_name(out, attribute.name.as_bytes())?;
        write!(out, "=")?;
        push_const(alloc, out, &attribute.value)?;
        write!(out, " ")?;
    }
    Ok(())
}

fn push_kind(out: &mut String, kind: ParameterKind) -> Result<(), Fail> {
    match kind {
        ParameterKind::Plain => {}
        ParameterKind::Signed => write!(out, "signed ")?,
        ParameterKind::Real => write!(out, "real ")?,
    }
    Ok(())
}

fn push_parameter(alloc: Global, out: &mut String, said: &Parameter) -> Result<(), Fail> {
    write!(out, "parameter ")?;
    push_kind(out, said.kind)?;
    push_name(out, said.name.as_bytes())?;
    if let Some(default) = &said.default {
        write!(out, "=")?;
        push_const(alloc, out, default)?;
    }
    Ok(())
}

fn push_side(out: &mut String, side: &str, number: Option<i32>) -> Result<(), Fail> {
    if let Some(number) = number {
        write!(out, " {side} {number}")?;
    }
    Ok(())
}

/// All options, also those that were not written.
fn push_wire(alloc: Global, out: &mut String, said: &Wire) -> Result<(), Fail> {
    push_attributes(alloc, out, said.attributes.as_slice())?;
    write!(out, "wire ")?;
    push_name(out, said.name.as_bytes())?;
    write!(out, " {} {}", said.options.width, said.options.offset)?;
    push_side(out, "input", said.options.input)?;
    push_side(out, "output", said.options.output)?;
    push_side(out, "inout", said.options.inout)?;
    if said.options.upto {
        write!(out, " upto")?;
    }
    if said.options.signed {
        write!(out, " signed")?;
    }
    Ok(())
}

/// Its width, size and offset.
fn push_memory(alloc: Global, out: &mut String, said: &Memory) -> Result<(), Fail> {
    push_attributes(alloc, out, said.attributes.as_slice())?;
    write!(out, "memory ")?;
    push_name(out, said.name.as_bytes())?;
    let options = said.options;
    write!(
        out,
        " {} {} {}",
        options.width, options.size, options.offset
    )?;
    Ok(())
}

fn push_settings(alloc: Global, out: &mut String, settings: &[Setting]) -> Result<(), Fail> {
    for setting in settings {
        write!(out, " ")?;
        push_kind(out, setting.kind)?;
        push_name(out, setting.name.as_bytes())?;
        write!(out, "=")?;
        push_const(alloc, out, &setting.value)?;
    }
    Ok(())
}

fn push_cell(alloc: Global, out: &mut String, said: &Cell) -> Result<(), Fail> {
    push_attributes(alloc, out, said.attributes.as_slice())?;
    write!(out, "cell ")?;
    push_name(out, said.kind.as_bytes())?;
    write!(out, " ")?;
    push_name(out, said.name.as_bytes())?;
    push_settings(alloc, out, said.settings.as_slice())?;
    for connection in said.connections.as_slice() {
        write!(out, " ")?;
        push_name(out, connection.port.as_bytes())?;
        write!(out, "~")?;
        push_sig(alloc, out, &connection.sig, DEEP)?;
    }
    Ok(())
}

fn push_compare(alloc: Global, out: &mut String, compare: &[Sig]) -> Result<(), Fail> {
    write!(out, "case")?;
    for sig in compare {
        write!(out, " ")?;
        push_sig(alloc, out, sig, DEEP)?;
    }
    Ok(())
}

/// Cases as `case 1 2 ( .. )`, and a switch as `switch \s ( .. )`.
fn push_body(alloc: Global, out: &mut String, body: &[Action], depth: u32) -> Result<(), Fail> {
    if depth == 0 {
        return Err(Fail::new("deeper than the limit"));
    }
    write!(out, "(")?;
    for action in body {
        match action {
            Action::Assign(said) => push_assignment(alloc, out, said)?,
            Action::Switch(switch) => {
                write!(out, "switch ")?;
                push_sig(alloc, out, &switch.on, DEEP)?;
                for case in switch.cases.as_slice() {
                    write!(out, " ")?;
                    push_compare(alloc, out, case.compare.as_slice())?;
                    push_body(alloc, out, case.body.as_slice(), depth - 1)?;
                }
            }
        }
        write!(out, ";")?;
    }
    write!(out, ")")?;
    Ok(())
}

fn push_trigger(alloc: Global, out: &mut String, when: &Trigger) -> Result<(), Fail> {
    let (word, sig) = match when {
        Trigger::Always => ("always", None),
        Trigger::Init => ("init", None),
        Trigger::Posedge(sig) => ("posedge ", Some(sig)),
        Trigger::Negedge(sig) => ("negedge ", Some(sig)),
        Trigger::Edge(sig) => ("edge ", Some(sig)),
        Trigger::High(sig) => ("high ", Some(sig)),
        Trigger::Low(sig) => ("low ", Some(sig)),
    };
    write!(out, "{word}")?;
    if let Some(sig) = sig {
        push_sig(alloc, out, sig, DEEP)?;
    }
    Ok(())
}

fn push_syncs(alloc: Global, out: &mut String, syncs: &[Sync]) -> Result<(), Fail> {
    for sync in syncs {
        write!(out, " sync ")?;
        push_trigger(alloc, out, &sync.when)?;
        write!(out, "(")?;
        for update in sync.updates.as_slice() {
            push_assignment(alloc, out, update)?;
            write!(out, ";")?;
        }
        write!(out, ")")?;
    }
    Ok(())
}

fn push_process(alloc: Global, out: &mut String, said: &Process) -> Result<(), Fail> {
    write!(out, "process {}:{} ", said.place.line, said.place.column)?;
    push_name(out, said.name.as_bytes())?;
    push_body(alloc, out, said.body.as_slice(), DEEP)?;
    push_syncs(alloc, out, said.syncs.as_slice())?;
    Ok(())
}

fn push_statement(alloc: Global, out: &mut String, said: &Statement) -> Result<(), Fail> {
    match said {
        Statement::Parameter(said) => push_parameter(alloc, out, said)?,
        Statement::Wire(said) => push_wire(alloc, out, said)?,
        Statement::Memory(said) => push_memory(alloc, out, said)?,
        Statement::Cell(said) => push_cell(alloc, out, said)?,
        Statement::Connect(said) => {
            write!(out, "connect ")?;
            push_assignment(alloc, out, said)?;
        }
        Statement::Process(said) => push_process(alloc, out, said)?,
    }
    write!(out, ";")?;
    Ok(())
}

fn push_module(alloc: Global, out: &mut String, said: &Module) -> Result<(), Fail> {
    push_attributes(alloc, out, said.attributes.as_slice())?;
    write!(out, "module ")?;
    push_name(out, said.name.as_bytes())?;
    write!(out, "{{")?;
    for statement in said.statements.as_slice() {
        push_statement(alloc, out, statement)?;
    }
    write!(out, "}}")?;
    Ok(())
}

fn push_file(alloc: Global, out: &mut String, file: &File) -> Result<(), Fail> {
    for module in file.modules.as_slice() {
        push_module(alloc, out, module)?;
    }
    Ok(())
}

/// The tree of a text, or its fault as a kind, a line and a column.
fn told(alloc: Global, text: &[u8]) -> Result<String, Fail> {
    if text.len() >= 4_294_967_295 {
        return Err(Fail::new("too long"));
    }
    let Ok(tokens) = lex(alloc, text) else {
        return Err(Fail::new("no tokens"));
    };
    let mut out = String::new(alloc);
    match parse(alloc, &tokens) {
        Ok(file) => push_file(alloc, &mut out, &file)?,
        Err(TextFault::At { kind, line, column }) => write!(out, "{kind:?} {line} {column}")?,
        Err(TextFault::NoMemory) => write!(out, "NoMemory")?,
    }
    Ok(out)
}

/// A text between each bar that begins a line and the arrow, and its tree.
const TREES: &str = " => 
|autoidx 5\n\nmodule \\m\n\nend\n => module \\m{}
|module \\m\nend\nmodule $n\nend => module \\m{}module $n{}
|module \\m\nparameter \\a\nparameter signed \\b 3\nparameter real \\c \"1.5\"\nend\n => module \\m{parameter \\a;parameter signed \\b=3;parameter real \\c=<1.5>;}
|module \\m\nwire width 4 offset -3 input 1 output 2 inout 3 upto signed \\w\nwire \\v\nend\n => module \\m{wire \\w 4 -3 input 1 output 2 inout 3 upto signed;wire \\v 1 0;}
|module \\m\nmemory width 8 size 16 offset 4 \\a\nmemory \\b\nend\n => module \\m{memory \\a 8 16 4;memory \\b 1 0 0;}
|module \\m\ncell $add $a\nparameter \\W 8\n\nparameter signed \\B -1\nparameter real \\R \"2\"\nconnect \\A \\w [3:0]\nconnect \\B { \\w 2'10 }\nend\nend\n => module \\m{cell $add $a \\W=8 signed \\B=-1 real \\R=<2> \\A~\\w[3:0] \\B~{ \\w '10 };}
|module \\m\nconnect { } { \\a [1] { 1'x } [0] } [7:4] [2] [0:1]\nend\n => module \\m{connect { }={ \\a[1:1] { 'x }[0:0] }[7:4][2:2][0:1];}
|module \\m\nconnect \\a [5]{\"b\"-7}\nend\n => module \\m{connect \\a[5:5]={ <b> -7 };}
|module \\m\nparameter \\a 4'1x-z\nparameter \\b 4'-\nparameter \\c 3'\nparameter \\d 4'10\nparameter \\e 0'\nend\n => module \\m{parameter \\a='1x-x;parameter \\b='----;parameter \\c='xxx;parameter \\d='0010;parameter \\e=';}
|module \\m\nprocess $p\nassign \\a \\b\n\nswitch \\s\n\ncase 1'0 , 1'1\nassign \\c 1\nswitch \\t\ncase\nend\nassign \\d 2\ncase\nend\nassign \\e 3\nsync posedge \\k\nupdate \\q \\d\n\nsync always\nsync init\nsync negedge \\k\nsync edge \\k\nsync high \\k\nsync low \\k\nupdate \\q 1\nupdate \\r 2\nend\nend\n => module \\m{process 2:1 $p(\\a=\\b;switch \\s case '0 '1(\\c=1;switch \\t case();\\d=2;) case();\\e=3;) sync posedge \\k(\\q=\\d;) sync always() sync init() sync negedge \\k() sync edge \\k() sync high \\k() sync low \\k(\\q=1;\\r=2;);}
|module \\m\n  process $p\n  end\nprocess $q\nsync init\nend\nend\n => module \\m{process 2:3 $p();process 4:1 $q() sync init();}
|module \\m\nprocess $p\nswitch 1\nend\nend\nend\n => module \\m{process 2:1 $p(switch 1;);}
|attribute \\a 1\n\nattribute \\b 2'1\nmodule \\m\nattribute \\c \"x\"\nwire \\w\nattribute \\d 1\nmemory \\y\nattribute \\e 1\ncell \\t \\c\nend\nwire \\v\nend\n => @\\a=1 @\\b='01 module \\m{@\\c=<x> wire \\w 1 0;@\\d=1 memory \\y 1 0 0;@\\e=1 cell \\t \\c;wire \\v 1 0;}
|attribute \\a 1\nattribute \\a 2\nmodule \\m\nend\n => @\\a=1 @\\a=2 module \\m{}
|attribute \\a 1\nautoidx 1\nmodule \\m\nattribute \\b 1\nparameter \\p\nwire \\w\nattribute \\c 1\nconnect \\w \\w\nwire \\v\nattribute \\d 1\nprocess \\q\nend\nwire \\u\nattribute \\e 1\nend\nmodule \\n\nend\n => module \\m{parameter \\p;wire \\w 1 0;connect \\w=\\w;wire \\v 1 0;process 11:1 \\q();wire \\u 1 0;}module \\n{}
|module \\m\ncell \\t \\c\nattribute \\a 1\nconnect \\p 1\nattribute \\b 1\nend\nwire \\w\nprocess $p\nattribute \\c 1\nassign 1 2\nswitch 1\nattribute \\d 1\ncase 1\nattribute \\e 1\nend\nend\nwire \\v\nend\n => module \\m{cell \\t \\c \\p~1;wire \\w 1 0;process 8:1 $p(1=2;switch 1 case 1(););wire \\v 1 0;}
|module \\m\nwire width 4 width 7 offset 1 offset 2 input 5 input 6 output 7 output 8 inout 9 inout 10 upto upto \\v\nend\n => module \\m{wire \\v 7 2 input 6 output 8 inout 10 upto;}
|module \\m\nmemory size 1 size 2 width 3 width 0 offset 5 offset -6 \\b\nend\n => module \\m{memory \\b 0 2 -6;}";

/// Texts, and the fault and the place of the first token that fits no rule.
const FAULTS: &str = "module \\m\nfoo => Syntax 2 1
|foo\n => Syntax 1 1
|end\n => Syntax 1 1
|module\n => Syntax 1 7
|module 1\n => Syntax 1 8
|module \\m x\n => Syntax 1 11
|module \\m => Syntax 1 10
|module \\m\n => Syntax 1 10
|module \\m\n\n => Syntax 2 1
|module \\m\nend x\n => Syntax 2 5
|module \\m\nmodule \\n\n => Syntax 2 1
|autoidx\n => Syntax 1 8
|autoidx 1'1\n => Syntax 1 9
|autoidx 1 2\n => Syntax 1 11
|attribute 1\n => Syntax 1 11
|attribute \\a\n => Syntax 1 13
|attribute \\a \\b\n => Syntax 1 14
|attribute \\a 1 2\n => Syntax 1 16
|module \\m\nparameter\n => Syntax 2 10
|module \\m\nparameter signed\n => Syntax 2 17
|module \\m\nparameter \\p \\q\n => Syntax 2 14
|module \\m\nparameter \\p 1 2\n => Syntax 2 16
|module \\m\nwire\n => Syntax 2 5
|module \\m\nwire width \\w\n => Syntax 2 12
|module \\m\nwire width -1 \\w\n => Syntax 2 12
|module \\m\nwire offset \\w\n => Syntax 2 13
|module \\m\nwire input \\w\n => Syntax 2 12
|module \\m\nwire size 1 \\w\n => Syntax 2 6
|module \\m\nwire \\w 1\n => Syntax 2 9
|module \\m\nmemory size\n => Syntax 2 12
|module \\m\nmemory width -1 \\w\n => Syntax 2 14
|module \\m\nmemory upto \\w\n => Syntax 2 8
|module \\m\ncell \\t\n => Syntax 2 8
|module \\m\ncell \\t \\c 1\n => Syntax 2 12
|module \\m\ncell \\t \\c\nwire \\w\n => Syntax 3 1
|module \\m\ncell \\t \\c\nparameter \\p\n => Syntax 3 13
|module \\m\ncell \\t \\c\nconnect 1\n => Syntax 3 9
|module \\m\ncell \\t \\c\nconnect \\p\n => Syntax 3 11
|module \\m\ncell \\t \\c\nend\n => Syntax 3 4
|module \\m\nconnect 1\n => Syntax 2 10
|module \\m\nconnect 1 2 3\n => Syntax 2 13
|module \\m\nconnect { 1\n => Syntax 2 12
|module \\m\nconnect [1] 1\n => Syntax 2 9
|module \\m\nconnect \\a [ ] 1\n => Syntax 2 14
|module \\m\nconnect \\a [-1] 1\n => Syntax 2 13
|module \\m\nconnect \\a [1:-2] 1\n => Syntax 2 15
|module \\m\nconnect \\a [1:2:3] 1\n => Syntax 2 16
|module \\m\nprocess\n => Syntax 2 8
|module \\m\nprocess $p\nmemwr\n => Syntax 3 1
|module \\m\nprocess $p\nend 1\n => Syntax 3 5
|module \\m\nprocess $p\nassign 1\n => Syntax 3 9
|module \\m\nprocess $p\nswitch 1 2\n => Syntax 3 10
|module \\m\nprocess $p\nswitch 1\nassign 1 1\n => Syntax 4 1
|module \\m\nprocess $p\nswitch 1\ncase 1 2\n => Syntax 4 8
|module \\m\nprocess $p\nswitch 1\ncase 1 ,\n => Syntax 4 9
|module \\m\nprocess $p\nswitch 1\ncase\nsync init\n => Syntax 5 1
|module \\m\nprocess $p\nsync global\n => Process 3 6
|module \\m\nprocess $p\nsync posedge\n => Syntax 3 13
|module \\m\nprocess $p\nsync always 1\n => Syntax 3 13
|module \\m\nprocess $p\nsync init\nmemwr \\m 1 1 1\n => Process 4 1
|module \\m\nprocess $p\nsync init\nupdate 1 2 3\n => Syntax 4 12
|module \\m\nprocess $p\nsync init\nassign 1 1\n => Syntax 4 1
|attribute\n => Syntax 1 10
|module \\m\nparameter real\n => Syntax 2 15
|module \\m\nwire output \\w\n => Syntax 2 13
|module \\m\nwire inout \\w\n => Syntax 2 12
|module \\m\nmemory\n => Syntax 2 7
|module \\m\nmemory offset \\m\n => Syntax 2 15
|module \\m\nmemory \\m 1\n => Syntax 2 11
|module \\m\ncell\n => Syntax 2 5
|module \\m\ncell \\t \\c\n => Syntax 2 11
|module \\m\ncell \\t \\c\nparameter 1\n => Syntax 3 11
|module \\m\ncell \\t \\c\nparameter \\p 1 2\n => Syntax 3 16
|module \\m\ncell \\t \\c\nconnect \\p 1 2\n => Syntax 3 14
|module \\m\ncell \\t \\c\nend x\n => Syntax 3 5
|module \\m\nconnect\n => Syntax 2 8
|module \\m\nconnect \\a [1 1\n => Syntax 2 15
|module \\m\nconnect \\a [1:\n => Syntax 2 15
|module \\m\nprocess $p 1\n => Syntax 2 12
|module \\m\nprocess $p\n => Syntax 2 11
|module \\m\nprocess $p\nassign\n => Syntax 3 7
|module \\m\nprocess $p\nassign 1 1 1\n => Syntax 3 12
|module \\m\nprocess $p\nswitch\n => Syntax 3 7
|module \\m\nprocess $p\nswitch 1\nend x\n => Syntax 4 5
|module \\m\nprocess $p\nsync\n => Syntax 3 5
|module \\m\nprocess $p\nsync foo\n => Syntax 3 6
|module \\m\nprocess $p\nsync posedge 1 2\n => Syntax 3 16
|module \\m\nprocess $p\nsync init\nupdate\n => Syntax 4 7
|module \\m\nprocess $p\nsync init\nupdate 1\n => Syntax 4 9";

fn check(rt: &impl Abort, alloc: Global, rows: &str) -> Result<(), Fail> {
    for row in rows.split("\n|") {
        let (text, want) = row.split_once(" => ").unwrap_or((row, ""));
        assert_eq!(rt; told(alloc, text.as_bytes())?.as_str(), want, "{text}");
    }
    Ok(())
}

#[test]
fn each_rule_is_read_and_the_first_token_that_fits_none_is_told(
    rt: HostRuntime,
) -> Result<(), Fail> {
    check(&rt, rt.alloc(), TREES)?;
    check(&rt, rt.alloc(), FAULTS)
}

/// A text with so many braces open at once.
fn braces(alloc: Global, depth: u32) -> Result<String, Fail> {
    let mut text = String::new(alloc);
    write!(text, "module \\m\nconnect \\a ")?;
    for _brace in 0..depth {
        write!(text, "{{")?;
    }
    for _brace in 0..depth {
        write!(text, "}}")?;
    }
    write!(text, "\nend\n")?;
    Ok(text)
}

/// A text with so many switches open at once.
fn switches(alloc: Global, depth: u32) -> Result<String, Fail> {
    let mut text = String::new(alloc);
    write!(text, "module \\m\nprocess $p\n")?;
    for _switch in 0..depth {
        write!(text, "switch 1\ncase\n")?;
    }
    for _switch in 0..depth {
        write!(text, "end\n")?;
    }
    write!(text, "end\nend\n")?;
    Ok(text)
}

#[test]
fn braces_and_switches_are_at_most_256_deep(rt: HostRuntime) -> Result<(), Fail> {
    let alloc = rt.alloc();
    let deepest = told(alloc, braces(alloc, 256)?.as_bytes())?;
    assert!(rt; deepest.as_str().starts_with("module \\m{connect \\a={ { "));
    assert_eq!(rt;
        told(alloc, braces(alloc, 257)?.as_bytes())?.as_str(),
        "Nesting 2 268"
    );
    let deepest = told(alloc, switches(alloc, 256)?.as_bytes())?;
    assert!(rt;
        deepest
            .as_str()
            .starts_with("module \\m{process 2:1 $p(switch 1 case(switch 1 case(")
    );
    assert_eq!(rt;
        told(alloc, switches(alloc, 257)?.as_bytes())?.as_str(),
        "Nesting 515 1"
    );
    Ok(())
}
