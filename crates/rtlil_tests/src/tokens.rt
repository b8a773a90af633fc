//! The tokens of texts, and the first fault.
use rtlil_lexer::{TextFault, TokenKind, lex};
use sim_base::{Bits, NoMemory};
use std::alloc::Global;
use std::process::Abort;
use std::str::from_utf8;
use std::test::Fail;
use test_designs::designs::COUNTER_AS_WRITTEN;

/// Words, identifiers, numbers and signs as they are written, a constant as its width and a quote, a string as what it
/// stands for between `<` and `>`, and a line's end as `;`.
fn push_kind(alloc: Global, out: &mut String, kind: &TokenKind<'_>) -> Result<(), Fail> {
    match kind {
        TokenKind::Word(word) => write!(out, "{}", from_utf8(word.as_bytes())?)?,
        TokenKind::Identifier(name) => write!(out, "{}", from_utf8(name.as_bytes())?)?,
        TokenKind::Integer(number) => write!(out, "{number}")?,
        TokenKind::Constant(constant) => write!(out, "{}'", constant.width())?,
        TokenKind::String(string) => {
            let bytes = string.to_name(alloc)?;
            write!(out, "<{}>", from_utf8(bytes.as_bytes())?)?;
        }
        TokenKind::LeftBrace => write!(out, "{{")?,
        TokenKind::RightBrace => write!(out, "}}")?,
        TokenKind::LeftBracket => write!(out, "[")?,
        TokenKind::RightBracket => write!(out, "]")?,
        TokenKind::Colon => write!(out, ":")?,
        TokenKind::Comma => write!(out, ",")?,
        TokenKind::EndOfLine => write!(out, ";")?,
    }
    Ok(())
}

/// The tokens of a text behind their lines and columns, with a blank between two, or its fault.
fn told(alloc: Global, text: &[u8]) -> Result<String, Fail> {
    let mut out = String::new(alloc);
    if text.len() >= 4_294_967_295 {
        return Err(Fail::new("too long"));
    }
    match lex(alloc, text) {
        Ok(tokens) => {
            for token in &tokens {
                if !out.is_empty() {
                    write!(out, " ")?;
                }
                write!(out, "{}:{} ", token.line, token.column)?;
                push_kind(alloc, &mut out, &token.kind)?;
            }
        }
        Err(TextFault::At { kind, line, column }) => write!(out, "{kind:?} {line}:{column}")?,
        Err(TextFault::NoMemory) => write!(out, "NoMemory")?,
    }
    Ok(out)
}

/// The bytes whose numbers are those of the characters.
fn bytes_of(alloc: Global, text: &str) -> Result<Vec<u8>, NoMemory> {
    let mut bytes = Vec::new(alloc);
    for character in text.chars() {
        bytes.push(u8::try_from(u32::from(character)).unwrap_or(b'?'))?;
    }
    Ok(bytes)
}

/// A text between each bar that begins a line and the arrow, and what is told of it.
fn check(rt: &impl Abort, alloc: Global, rows: &str) -> Result<(), Fail> {
    for row in rows.split("\n|") {
        let (text, want) = row.split_once(" => ").unwrap_or((row, ""));
        let bytes = bytes_of(alloc, text)?;
        assert_eq!(rt; told(alloc, &bytes)?.as_str(), want, "{text}");
    }
    Ok(())
}

const TOKENS: &str = " => 1:1 ;
|\n => 1:1 ;
|\n\n => 1:1 ; 2:1 ;
|end => 1:1 end 1:4 ;
|end\n => 1:1 end 1:4 ;
| \t\r\n => 1:4 ;
|end\r\nend\r => 1:1 end 1:5 ; 2:1 end 2:5 ;
|_a_ z{ => 1:1 _a_ 1:5 z 1:6 { 1:7 ;
|end5 => 1:1 end 1:4 5 1:5 ;
|# a \\ \" comment => 1:16 ;
|end # comment\nend => 1:1 end 1:14 ; 2:1 end 2:4 ;
|end# comment => 1:1 end 1:13 ;
|\\a#b[0]\\\x7f $1$ => 1:1 \\a#b[0]\\\x7f 1:11 $1$ 1:14 ;
|\\a\tb => 1:1 \\a 1:4 b 1:5 ;
|\\\u{c3}\u{a9} end => 1:1 \\é 1:5 end 1:8 ;
|# \u{c3}\u{a9}\nend => 1:5 ; 2:1 end 2:4 ;
|0 00 007 => 1:1 0 1:3 0 1:6 7 1:9 ;
|2147483647 => 1:1 2147483647 1:11 ;
|-2147483648 => 1:1 -2147483648 1:12 ;
|-0 -1-2 => 1:1 0 1:4 -1 1:6 -2 1:8 ;
|00000000000000000000000000000005 => 1:1 5 1:33 ;
|8'00000000 1'1 => 1:1 8' 1:12 1' 1:15 ;
|0' 3' 5's01xzm => 1:1 0' 1:4 3' 1:7 5' 1:15 ;
|6's-01xzm5 => 1:1 6' 1:10 5 1:11 ;
|67108864' 0067108864'1 => 1:1 67108864' 1:11 67108864' 1:23 ;
|1's 2'ss => 1:1 1' 1:5 2' 1:8 s 1:9 ;
|\"\" \"a b\" => 1:1 <> 1:4 <a b> 1:9 ;
|\"#\\n\\t\\\"\\\\\\q\\101\\1018\" => 1:1 <#\n\t\"\\qAA8> 1:23 ;
|\"\\177\"x => 1:1 <\x7f> 1:7 x 1:8 ;
|\"\u{c3}\u{a9}\"end => 1:1 <é> 1:5 end 1:8 ;
|{[5:0],}\n => 1:1 { 1:2 [ 1:3 5 1:4 : 1:5 0 1:6 ] 1:7 , 1:8 } 1:9 ;
|\"ab\" c => 1:1 <ab> 1:6 c 1:7 ;
|\"a\\\"b\"c => 1:1 <a\"b> 1:7 c 1:8 ;
|\"a\\\\\"b => 1:1 <a\\> 1:6 b 1:7 ;
|\"\\\\\\\"\" => 1:1 <\\\"> 1:7 ;";

const FAULTS: &str = "\u{ff} => BadByte 1:1
|\0 => BadByte 1:1
|end\n\u{ff}\u{ff} => BadByte 2:1
|end \0 => BadByte 1:5
|# a\0b => BadByte 1:4
|# \u{c3}\u{a9}\u{c3} => BadByte 1:5
|\\a\0 => BadByte 1:3
|\\a\u{c3}\u{a9}\u{ff} => BadByte 1:5
|\"a\u{ff}b\" => BadByte 1:3
|\"\u{ed}\u{a0}\u{80}\" => BadByte 1:2
|A => BadByte 1:1
|end\n  ( => BadByte 2:3
|end\n \u{c3}\u{a9} => BadByte 2:2
|\\ => BadByte 1:1
|\\ a => BadByte 1:1
|end\n$\n => BadByte 2:1
|- => BadByte 1:1
|- 5 => BadByte 1:1
|' => BadByte 1:1
|5 '1 => BadByte 1:3
|-5'1 => BadByte 1:3
|\\a\x0b A => BadByte 1:5
|\x0b => BadByte 1:1
|\" => BadString 1:1
|\"abc => BadString 1:1
|\"abc\n\" => BadString 1:1
|end \"abc\\\" => BadString 1:5
|\"abc\\\n\" => BadString 1:1
|\"\\400\" => BadString 1:1
|end\n  \"a\\777\" \u{ff} => BadString 2:3
|2147483648 => BadNumber 1:1
|-2147483649 => BadNumber 1:1
|\n 99999999999999999999999999 => BadNumber 2:2
|end\nparameter \\P 67108865'0 => BadNumber 2:14
|18446744073709551617'1 => BadNumber 1:1
|1'11 => BadNumber 1:1
|0's0 => BadNumber 1:1
|3'xxxx 2147483648 => BadNumber 1:1
|\"a\"b\" => BadString 1:5
|\"ab\\ => BadString 1:1
|\"\\777\" => BadString 1:1
|\"ok\\400\" => BadString 1:1
|\"\\377\\400\" => BadString 1:1";

#[test]
fn each_kind_of_token_is_read_and_the_first_fault_is_told(rt: HostRuntime) -> Result<(), Fail> {
    check(&rt, rt.alloc(), TOKENS)?;
    check(&rt, rt.alloc(), FAULTS)
}

/// The tokens of the counter, a line each.
const COUNTED: &str = r"1:1 autoidx 1:9 5 1:10 ;
2:1 attribute 2:11 \top 2:16 1 2:17 ;
3:1 attribute 3:11 \src 3:16 <counter.v:1.1-7.10> 3:36 ;
4:1 module 4:8 \counter 4:16 ;
5:3 wire 5:8 input 5:14 1 5:16 \clk 5:20 ;
6:3 attribute 6:13 \init 6:19 8' 6:29 ;
7:3 wire 7:8 width 7:14 8 7:16 output 7:23 2 7:25 \q 7:27 ;
8:3 wire 8:8 width 8:14 8 8:16 $n 8:18 ;
9:3 cell 9:8 $add 9:13 $a 9:15 ;
10:5 parameter 10:15 \A_SIGNED 10:25 0 10:26 ;
11:5 parameter 11:15 \A_WIDTH 11:24 8 11:25 ;
12:5 parameter 12:15 \B_SIGNED 12:25 0 12:26 ;
13:5 parameter 13:15 \B_WIDTH 13:24 1 13:25 ;
14:5 parameter 14:15 \Y_WIDTH 14:24 8 14:25 ;
15:5 connect 15:13 \A 15:16 \q 15:18 ;
16:5 connect 16:13 \B 16:16 1' 16:19 ;
17:5 connect 17:13 \Y 17:16 $n 17:18 ;
18:3 end 18:6 ;
19:3 cell 19:8 $dff 19:13 $r 19:15 ;
20:5 parameter 20:15 \CLK_POLARITY 20:29 1' 20:32 ;
21:5 parameter 21:15 \WIDTH 21:22 8 21:23 ;
22:5 connect 22:13 \CLK 22:18 \clk 22:22 ;
23:5 connect 23:13 \D 23:16 $n 23:18 ;
24:5 connect 24:13 \Q 24:16 \q 24:18 ;
25:3 end 25:6 ;
26:1 end 26:4 ;";

/// The lines of a text, with a blank between them.
fn joined(alloc: Global, lines: &str) -> Result<String, Fail> {
    let mut text = String::new(alloc);
    for line in lines.lines() {
        let blank = if text.is_empty() { "" } else { " " };
        write!(text, "{blank}{line}")?;
    }
    Ok(text)
}

#[test]
fn the_tokens_of_a_counter_are_read(rt: HostRuntime) -> Result<(), Fail> {
    let told = told(rt.alloc(), COUNTER_AS_WRITTEN.as_bytes())?;
    let want = joined(rt.alloc(), COUNTED)?;
    assert_eq!(rt; told.as_str(), want.as_str());
    Ok(())
}

/// What stands between a string's quotes, and the numbers of the bytes that it stands for.
const STRINGS: &str = r#"add 1 => 97 100 100 32 49
\n => 10
\t => 9
\1 => 1
\12 => 10
\123 => 83
\1234 => 83 52
\0 => 0
\377 => 255
\18 => 1 56
\8 => 56
\\ => 92
\" => 34
\q => 113
a\\n\tb => 97 92 110 9 98"#;

/// The numbers of the bytes that a text's first token stands for, if it is a string.
fn string_told(alloc: Global, text: &str) -> Result<String, Fail> {
    let mut out = String::new(alloc);
    if text.len() >= 4_294_967_295 {
        return Err(Fail::new("too long"));
    }
    let tokens = lex(alloc, text.as_bytes())?;
    let first = tokens.as_slice().first().ok_or("no token")?;
    let TokenKind::String(string) = &first.kind else {
        return Err(Fail::new("no string"));
    };
    if tokens.as_slice().len() != 2 {
        return Err(Fail::new("more than one word"));
    }
    let name = string.to_name(alloc)?;
    for byte in name.as_bytes() {
        let blank = if out.is_empty() { "" } else { " " };
        write!(out, "{blank}{byte}")?;
    }
    if string.len() != name.as_bytes().len() {
        return Err(Fail::new("another length"));
    }
    Ok(out)
}

#[test]
fn escapes_stand_for_their_bytes(rt: HostRuntime) -> Result<(), Fail> {
    for row in STRINGS.lines() {
        let (body, want) = row.split_once(" => ").unwrap_or((row, ""));
        let text = format!(in rt.alloc(); "\"{body}\"")?;
        assert_eq!(rt; string_told(rt.alloc(), &text)?.as_str(), want, "{body}");
    }
    assert_eq!(rt; string_told(rt.alloc(), "\"\"")?.as_str(), "");
    Ok(())
}

/// Each constant's value, its known bits and those that fit both, in binary.
const CONSTANTS: &str = "8'1 00000001 11111111 00000000
8'0 00000000 11111111 00000000
8'x 00000000 00000000 00000000
4'01 0001 1111 0000
4'1x 0010 1110 0000
4'- 0000 0000 1111
4'-1 0001 0001 1110
6'-01xzm 001000 011000 100000
5'm10 00010 00011 00000
3' 000 000 000
005's-1 00001 00001 11110
0'   ";

/// Constants beyond 64 bits: the width, and of each of the three the upper bits and the least one.
const WIDE_CONSTANTS: &str = "70'1 70 01 11 00
70'z 70 00 00 00
200'-0 200 00 01 10
130'0 130 00 11 00";

/// The binary digits of a value, the most significant first.
fn binary(alloc: Global, bits: &Bits) -> Result<String, Fail> {
    let mut text = String::new(alloc);
    for at in (0..bits.width()).rev() {
        text.push_str(if bits.bit(at) { "1" } else { "0" })?;
    }
    Ok(text)
}

/// The value, the known bits and those that fit both.
fn constant_told(alloc: Global, text: &str) -> Result<String, Fail> {
    if text.len() >= 4_294_967_295 {
        return Err(Fail::new("too long"));
    }
    let tokens = lex(alloc, text.as_bytes())?;
    let first = tokens.as_slice().first().ok_or("no token")?;
    let TokenKind::Constant(constant) = &first.kind else {
        return Err(Fail::new("no constant"));
    };
    if tokens.as_slice().len() != 2 {
        return Err(Fail::new("more than one word"));
    }
    let value = binary(alloc, &constant.value(alloc)?)?;
    let known = binary(alloc, &constant.known(alloc)?)?;
    let any = binary(alloc, &constant.any(alloc)?)?;
    Ok(format!(in alloc; "{value} {known} {any}")?)
}

/// Three values of a width, each of its upper digit and its least one.
fn spread(alloc: Global, width: u32, digits: &str) -> Result<String, Fail> {
    let mut text = String::new(alloc);
    for pair in digits.split(' ') {
        let (upper, least) = pair.split_at_checked(1).ok_or("no digits")?;
        if !text.is_empty() {
            text.push_str(" ")?;
        }
        for _ in 1..width {
            text.push_str(upper)?;
        }
        text.push_str(least)?;
    }
    Ok(text)
}

#[test]
fn digits_are_filled_in_front(rt: HostRuntime) -> Result<(), Fail> {
    for row in CONSTANTS.lines() {
        let (text, want) = row.split_once(' ').unwrap_or((row, ""));
        assert_eq!(rt; constant_told(rt.alloc(), text)?.as_str(), want, "{text}");
    }
    for row in WIDE_CONSTANTS.lines() {
        let (text, rest) = row.split_once(' ').unwrap_or((row, ""));
        let (width, digits) = rest.split_once(' ').unwrap_or((rest, ""));
        let want = spread(rt.alloc(), width.parse().unwrap_or(0), digits)?;
        assert_eq!(rt;
            constant_told(rt.alloc(), text)?.as_str(),
            want.as_str(),
            "{text}"
        );
    }
    Ok(())
}
