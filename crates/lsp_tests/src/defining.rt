//! What is defined where, and what is shown, in the files of a client of an adder.

ghost use Rattle.std.specs.Prelude.{◌≡◌, IfOk, IsTrue, length};
ghost use Rattle.mg_sources.specs.Files.{EndsWith, HaveKinds, Kind, suffix_of};

use lsp_defined::{definitions, hover};
use lsp_messages::Answer;
use lsp_text::{Encoding, Position};
use mg_text::{Bytes, List, Memory, Text};
use std::alloc::Global;

const FILES: [(&str, &str); 4] = [
    (
        "C.scr",
        "module demo.Adder;
type <java> \"java.lang.Integer\" from \"rt.jar\" as Int;
local protocol Adder at C(role C, role S) {
rec X { choice at C { add(Int) to S; choice at S { more() from S; continue X; } or { no() from S; add(Int) to S; } } or { bye() to S; } }
}
",
    ),
    (
        "CMain.java",
        "class CMain { public static void main(String[] args) { CRole c = new CRole();
c.send_byeToS();
c.send_addIntToS(1); switch (c.receive_CChoice1LabelFromS()) { case more: break; case no: break; }
Bell b = new Bell(); b.ring();
} }
",
    ),
    (
        "Bell.java",
        "@Typestate(\"Rings\")
class Bell { void ring() {} }
",
    ),
    (
        "Rings.protocol",
        "typestate Rings {
    Quiet = { void ring(): end }
}
",
    ),
];

// The files, by their names and their contents.
struct Sources {
    names: List<Text>,
    contents: List<Bytes>,
}

impl Drop for Sources {
    fn drop(self) {
        let Sources {
            names: _,
            contents: _,
        } = self;
    }
}

// Whether the name of a file tells of which kind it is.
fn has_kind(name: &str) -> bool
    ensures { IsTrue result → (kind : Kind) × EndsWith (suffix_of kind) name.now }
{
    let name = name.as_bytes();
    if name.ends_with(b".scr") {
        return true;
    }
    if name.ends_with(b".protocol") {
        return true;
    }
    name.ends_with(b".java")
}

fn adder(alloc: Global) -> Result<Sources, Memory>
    ensures same { IfOk result (λ s. length s.names.items ≡ length s.contents.items) }
    ensures kinds { IfOk result (λ s. HaveKinds s.names.items) }
{
    let mut names = List::new(alloc);
    let mut contents = List::new(alloc);
    for (name, text) in FILES {
        if !has_kind(name) {
            continue;
        }
        names.push(Text::of(alloc, name)?)?;
        contents.push(Bytes::of(alloc, text.as_bytes())?)?;
    }
    Ok(Sources { names, contents })
}

// What is defined over a position of the client: each range by its document, line, and characters.
fn defined(alloc: Global, line: usize, character: usize) -> Result<String, Memory> {
    let sources = adder(alloc)?;
    let found = definitions(
        alloc,
        sources.names.as_slice(),
        sources.contents.as_slice(),
        Encoding::Utf16,
        1,
        Position { line, character },
    )?;
    let mut out = String::new(alloc);
    for location in found.as_slice() {
        let name = location.document.as_str();
        let start = location.range.start;
        let (line, from, to) = (start.line, start.character, location.range.end.character);
        let told = format!(in alloc; "{name}:{line}:{from}-{to};")?;
        out.push_str(told.as_str())?;
    }
    Ok(out)
}

// What is shown over a position of a file.
fn shown(alloc: Global, file: u32, line: usize, character: usize) -> Result<String, Memory> {
    let sources = adder(alloc)?;
    let answer = hover(
        alloc,
        sources.names.as_slice(),
        sources.contents.as_slice(),
        Encoding::Utf16,
        file,
        Position { line, character },
    )?;
    let mut out = String::new(alloc);
    if let Answer::Hover { text, range: _ } = &answer {
        out.push_str(text.as_str())?;
    }
    Ok(out)
}

// Whether this was told.
fn is_told(told: Result<String, Memory>, wanted: &str) -> bool {
    match told {
        Ok(out) => out.as_str() == wanted,
        Err(Memory) => false,
    }
}

#[test]
fn calls_are_defined(rt: HostRuntime) {
    let alloc = rt.alloc();
    for (line, character, wanted) in [
        (1, 6, "C.scr:3:122-125;"),
        (2, 2, "C.scr:3:22-25;C.scr:3:98-101;"),
        (2, 29, "C.scr:3:37-43;"),
        (3, 21, "Bell.java:1:18-22;"),
        (3, 5, ""),
        (9, 0, ""),
    ] {
        assert!(rt;
            is_told(defined(alloc, line, character), wanted),
            "{line}:{character}"
        );
    }
}

#[test]
fn words_are_shown(rt: HostRuntime) {
    let alloc = rt.alloc();
    for (file, line, character, wanted) in [
        (
            0,
            3,
            22,
            "State0: send_addIntToS -> State1\nState4: send_addIntToS -> end\n",
        ),
        (0, 3, 55, "State2: receive_moreFromS -> State0\n"),
        (
            0,
            3,
            37,
            "State1: receive_CChoice1LabelFromS -> <more: State2, no: State3>\n",
        ),
        (0, 3, 9, ""),
        (3, 1, 19, "Quiet: ring -> end\n"),
        (3, 1, 5, ""),
        (2, 1, 18, ""),
        (7, 0, 0, ""),
    ] {
        assert!(rt;
            is_told(shown(alloc, file, line, character), wanted),
            "{file}:{line}:{character}"
        );
    }
}
