//! The numbers of what is called by its name: the names stand in the pool before it.

ghost use Rattle.std.specs.Prelude.{◌≡◌, IfOk};
ghost use Rattle.cls_tree.specs.declared.class.Const.TheVariants.{Integer};
ghost use Rattle.cls_tree.specs.Emitted.{number_of, class_const as class_made, text_const as text_made, name_and_type as member_made};
ghost use Rattle.cls_tree.specs.Emitted.{field_const as field_made, method_const as method_made};
ghost use Rattle.gen_pool.specs.Made.{IsMade, IsFrontOf};

use crate::key::Key;
use crate::pool::Pool;
use mg_text::Memory;

/// The number of an int that code may push.
#[tactic(auto, using(crate::proofs::Fronts::fronts))]
pub fn int_const(pool: &mut Pool, number: i32) -> Result<usize, Memory>
    ensures made { IfOk result (λ n. IsMade n pool.new (number_of (Integer number) pool.old)) }
    ensures kept { IsFrontOf pool.old pool.new }
{
    pool.number_of(Key::Integer(number))
}

/// The number of a class, behind its name.
#[tactic(auto, using(crate::proofs::Fronts::fronts))]
pub fn class_const(pool: &mut Pool, name: &str) -> Result<usize, Memory>
    ensures made { IfOk result (λ n. IsMade n pool.new (class_made name.now pool.old)) }
    ensures kept { IsFrontOf pool.old pool.new }
{
    let name = pool.utf8(name)?;
    pool.number_of(Key::Class(name))
}

/// The number of a text that code may push, behind the text itself.
#[tactic(auto, using(crate::proofs::Fronts::fronts))]
pub fn text_const(pool: &mut Pool, text: &str) -> Result<usize, Memory>
    ensures made { IfOk result (λ n. IsMade n pool.new (text_made text.now pool.old)) }
    ensures kept { IsFrontOf pool.old pool.new }
{
    let text = pool.utf8(text)?;
    pool.number_of(Key::Text(text))
}

/// The number of a name and a descriptor, behind both.
#[tactic(auto, using(crate::proofs::Fronts::fronts))]
pub fn name_and_type(pool: &mut Pool, name: &str, descriptor: &str) -> Result<usize, Memory>
    ensures made { IfOk result (λ n. IsMade n pool.new (member_made name.now descriptor.now pool.old)) }
    ensures kept { IsFrontOf pool.old pool.new }
{
    let name = pool.utf8(name)?;
    let descriptor = pool.utf8(descriptor)?;
    pool.number_of(Key::NameAndType(name, descriptor))
}

/// The number of a field, behind its class, and its name and type.
#[tactic(auto, using(crate::proofs::Fronts::fronts))]
pub fn field_const(
    pool: &mut Pool,
    class: &str,
    name: &str,
    descriptor: &str,
) -> Result<usize, Memory>
    ensures made { IfOk result (λ n. IsMade n pool.new (field_made class.now name.now descriptor.now pool.old)) }
    ensures kept { IsFrontOf pool.old pool.new }
{
    let class = class_const(pool, class)?;
    let member = name_and_type(pool, name, descriptor)?;
    pool.number_of(Key::Field(class, member))
}

/// The number of a method, behind its class, and its name and type.
#[tactic(auto, using(crate::proofs::Fronts::fronts))]
pub fn method_const(
    pool: &mut Pool,
    class: &str,
    name: &str,
    descriptor: &str,
) -> Result<usize, Memory>
    ensures made { IfOk result (λ n. IsMade n pool.new (method_made class.now name.now descriptor.now pool.old)) }
    ensures kept { IsFrontOf pool.old pool.new }
{
    let class = class_const(pool, class)?;
    let member = name_and_type(pool, name, descriptor)?;
    pool.number_of(Key::Method(class, member))
}
