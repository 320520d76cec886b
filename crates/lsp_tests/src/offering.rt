//! What is offered in a client of an adder that can also be asked.

use lsp_offers::offers;
use lsp_text::{Encoding, Position};
use mg_text::{Bytes, Memory, Text};
use std::alloc::Global;

const ADDER: &str = "module demo.Adder;
type <java> \"java.lang.Integer\" from \"rt.jar\" as Int;
local protocol Adder at C(role C, role S) {
    rec X { choice at C { add(Int) to S; total(Int) from S; continue X; } or { bye() to S; } }
}
";

const ASKED: &str = "module demo.Asked;
type <java> \"java.lang.Boolean\" from \"rt.jar\" as Bool;
type <java> \"java.lang.Integer\" from \"rt.jar\" as Int;
local protocol Asked at C(role C, role S) {
    ready(Bool) from S;
    size(Int) from S;
    choice at S { yes() from S; } or { no() from S; }
}
";

// What is offered at a position of a client of a protocol: signatures, each with a mark.
fn offered(
    alloc: Global,
    protocol: &str,
    client: &str,
    position: Position,
) -> Result<String, Memory> {
    let names = vec![in alloc; Text::of(alloc, "C.scr")?, Text::of(alloc, "CMain.java")?]?;
    let contents = vec![in alloc;
        Bytes::of(alloc, protocol.as_bytes())?,
        Bytes::of(alloc, client.as_bytes())?,
    ]?;
    let items = offers(
        alloc,
        names.as_slice(),
        contents.as_slice(),
        Encoding::Utf16,
        1,
        position,
    )?;
    let mut out = String::new(alloc);
    for item in items.as_slice() {
        out.push_str(item.signature.as_str())?;
        out.push_str(if item.always { ";" } else { "?" })?;
    }
    Ok(out)
}

// A client of a protocol whose second line is this one.
fn told(alloc: Global, protocol: &str, line: &str, character: usize, wanted: &str) -> bool {
    let Ok(mut client) = String::from_str(
        alloc,
        "class CMain { static void take(int i) {} public static void main(String[] args) { int i = 0; CRole c = new CRole();\n",
    ) else {
        return false;
    };
    if client.push_str(line).is_err() || client.push_str("\n} }\n").is_err() {
        return false;
    }
    match offered(
        alloc,
        protocol,
        client.as_str(),
        Position { line: 1, character },
    ) {
        Ok(out) => out.as_str() == wanted,
        Err(Memory) => false,
    }
}

#[test]
fn offers_are_told(rt: HostRuntime) {
    let alloc = rt.alloc();
    let first = "void send_addIntToS(int);void send_byeToS();";
    let marked = "void send_addIntToS(int)?void send_byeToS()?";
    for (line, character, wanted) in [
        ("c.", 2, first),
        ("    c.se", 8, first),
        ("c.send_byeToS();", 6, first),
        (
            "c.send_addIntToS(1); c.",
            23,
            "int receive_totalIntFromS();",
        ),
        ("if (true) c.se; else c.send_addIntToS(2);", 14, first),
        (
            "if (i == 0) c.send_addIntToS(2); c.",
            35,
            "void send_addIntToS(int)?void send_byeToS()?int receive_totalIntFromS()?",
        ),
        ("c.send_byeToS(); c.", 19, ""),
        ("if (i == 0) c.send_byeToS(); c.", 31, marked),
        (
            "CRole d = null; if (i == 0) d = new CRole(); d.",
            47,
            marked,
        ),
        ("CRole d = null; if (i == 0) d = c; c.", 37, marked),
        ("d.", 2, ""),
        ("c", 1, ""),
    ] {
        assert!(rt; told(alloc, ADDER, line, character, wanted), "{line}");
    }
}

#[test]
fn values_are_offered(rt: HostRuntime) {
    let alloc = rt.alloc();
    let first = "boolean receive_readyBooleanFromS();";
    let both = "boolean receive_readyBooleanFromS()?int receive_sizeIntFromS()?";
    let second = "int receive_sizeIntFromS();";
    let third = "CChoice1 receive_CChoice1LabelFromS();";
    for (line, character, wanted) in [
        ("if (c.) {}", 6, first),
        ("while (c.re) {}", 11, both),
        ("boolean b = c.", 14, first),
        ("if (!c.re(1) && i == 0) {}", 8, first),
        ("c.receive_readyBooleanFromS(); int t = c.", 41, second),
        ("c.receive_readyBooleanFromS(); int t = c.;", 41, second),
        ("c.receive_readyBooleanFromS(); take(c.);", 38, second),
        ("c.receive_readyBooleanFromS(); i = c. ;", 37, second),
        (
            "c.receive_readyBooleanFromS(); i = c.receive_sizeIntFromS(); switch (c.) { case yes: }",
            71,
            third,
        ),
    ] {
        assert!(rt; told(alloc, ASKED, line, character, wanted), "{line}");
    }
}
