//! Which typestates have a diagram.

use lsp_drawing::drawing;
use mg_text::{Memory, Text};
use std::alloc::Global;

fn drawn(alloc: Global, text: &str) -> Result<Option<Text>, Memory> {
    let name = Text::of(alloc, "P.protocol")?;
    drawing(alloc, &name, text.as_bytes())
}

#[test]
fn typestates_are_drawn(rt: HostRuntime) {
    let alloc = rt.alloc();
    for (text, wanted) in [
        (
            "typestate P { A = { void go(int): A, drop: end } }",
            "stateDiagram-v2\n    [*] --> A\n    A --> A : go(int)\n    A --> [*] : drop\n",
        ),
        ("typestate {", ""),
    ] {
        match drawn(alloc, text) {
            Ok(Some(out)) => assert!(rt; out.as_str() == wanted, "{text}"),
            Ok(None) => assert!(rt; wanted.is_empty(), "{text}"),
            Err(Memory) => assert!(rt; false, "{text}"),
        }
    }
}
