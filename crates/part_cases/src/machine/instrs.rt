//! Instructions as lines: the opcode, and what stands behind it.

use cases::Answer;
use cls_tree::Instr;

/// Tells instructions, each in a line.
pub fn tell_instrs(answer: &mut Answer, instrs: &[Instr]) {
    for instr in instrs {
        answer.line();
        answer.hexadecimal(u32::from(instr.op));
        answer.add(" ");
        answer.tell(&instr.args);
    }
}
