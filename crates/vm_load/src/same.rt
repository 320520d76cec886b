//! Constants that push one text: the first of them stands for all, so that the text is made once a class.
//! Nothing rests on what the table says: it is only tried.

ghost use Rattle.std.specs.Prelude.{◌≡◌};
ghost use Rattle.cls_tree.specs.Pool.{const_at};

use crate::pool::constant;
use cls_tree::Const;
use mg_text::Memory;
use std::alloc::Global;

/// Notes the first constant that pushes a text.
fn note_first(firsts: &mut [u16], text: usize, number: u16) {
    if text < firsts.len() && firsts[text] == 0 {
        firsts[text] = number;
    }
}

/// By the numbers of texts: the first constant that pushes each, or 0 where none does.
pub(crate) fn first_pushes(alloc: Global, pool: &[Const]) -> Result<Vec<u16>, Memory> {
    let mut firsts = vec![in alloc; 0u16; pool.len().wrapping_add(1)]?;
    let mut number: u16 = 0;
    for constant in pool {
        number = number.wrapping_add(1);
        if let Const::Text(text) = constant {
            note_first(firsts.as_mut_slice(), *text as usize, number);
        }
    }
    Ok(firsts)
}

/// The number of a constant that is the same: the first that pushes the same text, where this one pushes a
/// text.
pub(crate) fn same_constant(pool: &[Const], firsts: &[u16], number: u16) -> u16
    ensures { const_at pool.now result ≡ const_at pool.now number }
{
    let Some(Const::Text(text)) = constant(pool, number) else {
        return number;
    };
    let Some(first) = firsts.get(*text as usize) else {
        return number;
    };
    let Some(Const::Text(other)) = constant(pool, *first) else {
        return number;
    };
    if *other == *text {
        return *first;
    }
    number
}
