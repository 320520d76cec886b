//! The code of one method of a program, and the pool of constants that it is made over, which never
//! has more than a class file can hold.
#![tactic(auto)]

ghost use Rattle.std.specs.Prelude.{◌≡◌, ◌<◌, None, Some, length, slice_get, IfOk, OnOk, IfErr, OnErr};
ghost use Rattle.cls_tree.specs.View.{code_of};
ghost use Rattle.jv_core.specs.Tree.{Method};
ghost use Rattle.gen_rules.specs.Classes.{Emits};
ghost use Rattle.gen_class.specs.First.{IsExcessOfCode, TellsCode};

mod consts;
mod pool;

use cls_tree::Code;
pub use gen_class::GenFault;
pub use gen_pool::PoolFault;
use jv_core::Core;
pub use pool::Pool;
use std::alloc::Global;

/// The code of the method of this number, as it stands in a class file whose pool is this one. The
/// constants that it needs are found in the pool or appended. A fault leaves the pool as it was.
/// # Errors
/// The first size of the code that is too large, with the place and the name of the method; and want
/// of memory.
pub fn gen_method(
    alloc: Global,
    core: &Core,
    method: u32,
    pool: &mut Pool,
) -> Result<Code, GenFault>
    requires number { method < length core.now.methods }
    ensures emitted { (m : Method) → slice_get core.now.methods method ≡ Some m
        → IfOk result (λ c. Emits core.now m pool.old (code_of c) pool.new) }
    ensures fine { (m : Method) → slice_get core.now.methods method ≡ Some m
        → OnOk result (IsExcessOfCode core.now m pool.old None) }
    ensures fault { (m : Method) → slice_get core.now.methods method ≡ Some m
        → IfErr result (TellsCode core.now m pool.old) }
    ensures unchanged { OnErr result (pool.new ≡ pool.old) }
{
    let methods = core.methods();
    pool.emit(alloc, core, &methods[method as usize])
}
