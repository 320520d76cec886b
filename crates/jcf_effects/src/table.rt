//! The rows of the table, in the order of the opcodes' numbers.

use crate::effect::{Calling, Comparison, Effect, Local, Move};
use crate::operands::Operands;
use jcf_tree::Kind;

/// For each opcode, from `nop`, whose number is 0, what stands behind it and what it does.
pub(crate) static TABLE: [(Operands, Effect); 202] = [
    // nop
    (Operands::Nothing, Effect::Plain { takes: 0, gives: 0 }),
    // aconst_null
    (Operands::Nothing, Effect::Null),
    // iconst_m1
    (Operands::Nothing, Effect::Plain { takes: 0, gives: 1 }),
    // iconst_0
    (Operands::Nothing, Effect::Zero),
    // iconst_1
    (Operands::Nothing, Effect::One),
    // iconst_2
    (Operands::Nothing, Effect::Plain { takes: 0, gives: 1 }),
    // iconst_3
    (Operands::Nothing, Effect::Plain { takes: 0, gives: 1 }),
    // iconst_4
    (Operands::Nothing, Effect::Plain { takes: 0, gives: 1 }),
    // iconst_5
    (Operands::Nothing, Effect::Plain { takes: 0, gives: 1 }),
    // lconst_0
    (Operands::Nothing, Effect::Plain { takes: 0, gives: 2 }),
    // lconst_1
    (Operands::Nothing, Effect::Plain { takes: 0, gives: 2 }),
    // fconst_0
    (Operands::Nothing, Effect::Plain { takes: 0, gives: 1 }),
    // fconst_1
    (Operands::Nothing, Effect::Plain { takes: 0, gives: 1 }),
    // fconst_2
    (Operands::Nothing, Effect::Plain { takes: 0, gives: 1 }),
    // dconst_0
    (Operands::Nothing, Effect::Plain { takes: 0, gives: 2 }),
    // dconst_1
    (Operands::Nothing, Effect::Plain { takes: 0, gives: 2 }),
    // bipush
    (Operands::Byte, Effect::Plain { takes: 0, gives: 1 }),
    // sipush
    (Operands::Short, Effect::Plain { takes: 0, gives: 1 }),
    // ldc
    (
        Operands::NearConstant(Kind::Loadable),
        Effect::Other { takes: 0, gives: 1 },
    ),
    // ldc_w
    (
        Operands::Constant(Kind::Loadable),
        Effect::Other { takes: 0, gives: 1 },
    ),
    // ldc2_w
    (
        Operands::Constant(Kind::WideLoadable),
        Effect::Other { takes: 0, gives: 2 },
    ),
    // iload
    (Operands::Local, Effect::Load(1, Local::Behind)),
    // lload
    (Operands::Local, Effect::Load(2, Local::Behind)),
    // fload
    (Operands::Local, Effect::Load(1, Local::Behind)),
    // dload
    (Operands::Local, Effect::Load(2, Local::Behind)),
    // aload
    (Operands::Local, Effect::Load(1, Local::Behind)),
    // iload_0
    (Operands::Nothing, Effect::Load(1, Local::At(0))),
    // iload_1
    (Operands::Nothing, Effect::Load(1, Local::At(1))),
    // iload_2
    (Operands::Nothing, Effect::Load(1, Local::At(2))),
    // iload_3
    (Operands::Nothing, Effect::Load(1, Local::At(3))),
    // lload_0
    (Operands::Nothing, Effect::Load(2, Local::At(0))),
    // lload_1
    (Operands::Nothing, Effect::Load(2, Local::At(1))),
    // lload_2
    (Operands::Nothing, Effect::Load(2, Local::At(2))),
    // lload_3
    (Operands::Nothing, Effect::Load(2, Local::At(3))),
    // fload_0
    (Operands::Nothing, Effect::Load(1, Local::At(0))),
    // fload_1
    (Operands::Nothing, Effect::Load(1, Local::At(1))),
    // fload_2
    (Operands::Nothing, Effect::Load(1, Local::At(2))),
    // fload_3
    (Operands::Nothing, Effect::Load(1, Local::At(3))),
    // dload_0
    (Operands::Nothing, Effect::Load(2, Local::At(0))),
    // dload_1
    (Operands::Nothing, Effect::Load(2, Local::At(1))),
    // dload_2
    (Operands::Nothing, Effect::Load(2, Local::At(2))),
    // dload_3
    (Operands::Nothing, Effect::Load(2, Local::At(3))),
    // aload_0
    (Operands::Nothing, Effect::Load(1, Local::At(0))),
    // aload_1
    (Operands::Nothing, Effect::Load(1, Local::At(1))),
    // aload_2
    (Operands::Nothing, Effect::Load(1, Local::At(2))),
    // aload_3
    (Operands::Nothing, Effect::Load(1, Local::At(3))),
    // iaload
    (Operands::Nothing, Effect::IntLoad),
    // laload
    (Operands::Nothing, Effect::Other { takes: 2, gives: 2 }),
    // faload
    (Operands::Nothing, Effect::Other { takes: 2, gives: 1 }),
    // daload
    (Operands::Nothing, Effect::Other { takes: 2, gives: 2 }),
    // aaload
    (Operands::Nothing, Effect::Other { takes: 2, gives: 1 }),
    // baload
    (Operands::Nothing, Effect::Other { takes: 2, gives: 1 }),
    // caload
    (Operands::Nothing, Effect::Other { takes: 2, gives: 1 }),
    // saload
    (Operands::Nothing, Effect::Other { takes: 2, gives: 1 }),
    // istore
    (Operands::Local, Effect::Store(1, Local::Behind)),
    // lstore
    (Operands::Local, Effect::Store(2, Local::Behind)),
    // fstore
    (Operands::Local, Effect::Store(1, Local::Behind)),
    // dstore
    (Operands::Local, Effect::Store(2, Local::Behind)),
    // astore
    (Operands::Local, Effect::Store(1, Local::Behind)),
    // istore_0
    (Operands::Nothing, Effect::Store(1, Local::At(0))),
    // istore_1
    (Operands::Nothing, Effect::Store(1, Local::At(1))),
    // istore_2
    (Operands::Nothing, Effect::Store(1, Local::At(2))),
    // istore_3
    (Operands::Nothing, Effect::Store(1, Local::At(3))),
    // lstore_0
    (Operands::Nothing, Effect::Store(2, Local::At(0))),
    // lstore_1
    (Operands::Nothing, Effect::Store(2, Local::At(1))),
    // lstore_2
    (Operands::Nothing, Effect::Store(2, Local::At(2))),
    // lstore_3
    (Operands::Nothing, Effect::Store(2, Local::At(3))),
    // fstore_0
    (Operands::Nothing, Effect::Store(1, Local::At(0))),
    // fstore_1
    (Operands::Nothing, Effect::Store(1, Local::At(1))),
    // fstore_2
    (Operands::Nothing, Effect::Store(1, Local::At(2))),
    // fstore_3
    (Operands::Nothing, Effect::Store(1, Local::At(3))),
    // dstore_0
    (Operands::Nothing, Effect::Store(2, Local::At(0))),
    // dstore_1
    (Operands::Nothing, Effect::Store(2, Local::At(1))),
    // dstore_2
    (Operands::Nothing, Effect::Store(2, Local::At(2))),
    // dstore_3
    (Operands::Nothing, Effect::Store(2, Local::At(3))),
    // astore_0
    (Operands::Nothing, Effect::Store(1, Local::At(0))),
    // astore_1
    (Operands::Nothing, Effect::Store(1, Local::At(1))),
    // astore_2
    (Operands::Nothing, Effect::Store(1, Local::At(2))),
    // astore_3
    (Operands::Nothing, Effect::Store(1, Local::At(3))),
    // iastore
    (Operands::Nothing, Effect::Other { takes: 3, gives: 0 }),
    // lastore
    (Operands::Nothing, Effect::Other { takes: 4, gives: 0 }),
    // fastore
    (Operands::Nothing, Effect::Other { takes: 3, gives: 0 }),
    // dastore
    (Operands::Nothing, Effect::Other { takes: 4, gives: 0 }),
    // aastore
    (Operands::Nothing, Effect::ReferenceStore),
    // bastore
    (Operands::Nothing, Effect::Other { takes: 3, gives: 0 }),
    // castore
    (Operands::Nothing, Effect::Other { takes: 3, gives: 0 }),
    // sastore
    (Operands::Nothing, Effect::Other { takes: 3, gives: 0 }),
    // pop
    (Operands::Nothing, Effect::Move(Move::Pop)),
    // pop2
    (Operands::Nothing, Effect::Move(Move::PopTwo)),
    // dup
    (Operands::Nothing, Effect::Move(Move::Double)),
    // dup_x1
    (Operands::Nothing, Effect::Move(Move::DoubleBelowOne)),
    // dup_x2
    (Operands::Nothing, Effect::Move(Move::DoubleBelowTwo)),
    // dup2
    (Operands::Nothing, Effect::Move(Move::DoubleTwo)),
    // dup2_x1
    (Operands::Nothing, Effect::Move(Move::DoubleTwoBelowOne)),
    // dup2_x2
    (Operands::Nothing, Effect::Move(Move::DoubleTwoBelowTwo)),
    // swap
    (Operands::Nothing, Effect::Move(Move::Swap)),
    // iadd
    (Operands::Nothing, Effect::Plain { takes: 2, gives: 1 }),
    // ladd
    (Operands::Nothing, Effect::Plain { takes: 4, gives: 2 }),
    // fadd
    (Operands::Nothing, Effect::Plain { takes: 2, gives: 1 }),
    // dadd
    (Operands::Nothing, Effect::Plain { takes: 4, gives: 2 }),
    // isub
    (Operands::Nothing, Effect::Plain { takes: 2, gives: 1 }),
    // lsub
    (Operands::Nothing, Effect::Plain { takes: 4, gives: 2 }),
    // fsub
    (Operands::Nothing, Effect::Plain { takes: 2, gives: 1 }),
    // dsub
    (Operands::Nothing, Effect::Plain { takes: 4, gives: 2 }),
    // imul
    (Operands::Nothing, Effect::Plain { takes: 2, gives: 1 }),
    // lmul
    (Operands::Nothing, Effect::Plain { takes: 4, gives: 2 }),
    // fmul
    (Operands::Nothing, Effect::Plain { takes: 2, gives: 1 }),
    // dmul
    (Operands::Nothing, Effect::Plain { takes: 4, gives: 2 }),
    // idiv
    (Operands::Nothing, Effect::Other { takes: 2, gives: 1 }),
    // ldiv
    (Operands::Nothing, Effect::Other { takes: 4, gives: 2 }),
    // fdiv
    (Operands::Nothing, Effect::Plain { takes: 2, gives: 1 }),
    // ddiv
    (Operands::Nothing, Effect::Plain { takes: 4, gives: 2 }),
    // irem
    (Operands::Nothing, Effect::Other { takes: 2, gives: 1 }),
    // lrem
    (Operands::Nothing, Effect::Other { takes: 4, gives: 2 }),
    // frem
    (Operands::Nothing, Effect::Plain { takes: 2, gives: 1 }),
    // drem
    (Operands::Nothing, Effect::Plain { takes: 4, gives: 2 }),
    // ineg
    (Operands::Nothing, Effect::Plain { takes: 1, gives: 1 }),
    // lneg
    (Operands::Nothing, Effect::Plain { takes: 2, gives: 2 }),
    // fneg
    (Operands::Nothing, Effect::Plain { takes: 1, gives: 1 }),
    // dneg
    (Operands::Nothing, Effect::Plain { takes: 2, gives: 2 }),
    // ishl
    (Operands::Nothing, Effect::Plain { takes: 2, gives: 1 }),
    // lshl
    (Operands::Nothing, Effect::Plain { takes: 3, gives: 2 }),
    // ishr
    (Operands::Nothing, Effect::Plain { takes: 2, gives: 1 }),
    // lshr
    (Operands::Nothing, Effect::Plain { takes: 3, gives: 2 }),
    // iushr
    (Operands::Nothing, Effect::Plain { takes: 2, gives: 1 }),
    // lushr
    (Operands::Nothing, Effect::Plain { takes: 3, gives: 2 }),
    // iand
    (Operands::Nothing, Effect::Plain { takes: 2, gives: 1 }),
    // land
    (Operands::Nothing, Effect::Plain { takes: 4, gives: 2 }),
    // ior
    (Operands::Nothing, Effect::Plain { takes: 2, gives: 1 }),
    // lor
    (Operands::Nothing, Effect::Plain { takes: 4, gives: 2 }),
    // ixor
    (Operands::Nothing, Effect::Plain { takes: 2, gives: 1 }),
    // lxor
    (Operands::Nothing, Effect::Plain { takes: 4, gives: 2 }),
    // iinc
    (Operands::Increment, Effect::Increment),
    // i2l
    (Operands::Nothing, Effect::Plain { takes: 1, gives: 2 }),
    // i2f
    (Operands::Nothing, Effect::Plain { takes: 1, gives: 1 }),
    // i2d
    (Operands::Nothing, Effect::Plain { takes: 1, gives: 2 }),
    // l2i
    (Operands::Nothing, Effect::Plain { takes: 2, gives: 1 }),
    // l2f
    (Operands::Nothing, Effect::Plain { takes: 2, gives: 1 }),
    // l2d
    (Operands::Nothing, Effect::Plain { takes: 2, gives: 2 }),
    // f2i
    (Operands::Nothing, Effect::Plain { takes: 1, gives: 1 }),
    // f2l
    (Operands::Nothing, Effect::Plain { takes: 1, gives: 2 }),
    // f2d
    (Operands::Nothing, Effect::Plain { takes: 1, gives: 2 }),
    // d2i
    (Operands::Nothing, Effect::Plain { takes: 2, gives: 1 }),
    // d2l
    (Operands::Nothing, Effect::Plain { takes: 2, gives: 2 }),
    // d2f
    (Operands::Nothing, Effect::Plain { takes: 2, gives: 1 }),
    // i2b
    (Operands::Nothing, Effect::Plain { takes: 1, gives: 1 }),
    // i2c
    (Operands::Nothing, Effect::Plain { takes: 1, gives: 1 }),
    // i2s
    (Operands::Nothing, Effect::Plain { takes: 1, gives: 1 }),
    // lcmp
    (Operands::Nothing, Effect::Plain { takes: 4, gives: 1 }),
    // fcmpl
    (Operands::Nothing, Effect::Plain { takes: 2, gives: 1 }),
    // fcmpg
    (Operands::Nothing, Effect::Plain { takes: 2, gives: 1 }),
    // dcmpl
    (Operands::Nothing, Effect::Plain { takes: 4, gives: 1 }),
    // dcmpg
    (Operands::Nothing, Effect::Plain { takes: 4, gives: 1 }),
    // ifeq
    (Operands::Jump, Effect::IfZero(Comparison::Equal)),
    // ifne
    (Operands::Jump, Effect::IfZero(Comparison::Unequal)),
    // iflt
    (Operands::Jump, Effect::IfZero(Comparison::Less)),
    // ifge
    (Operands::Jump, Effect::IfZero(Comparison::AtLeast)),
    // ifgt
    (Operands::Jump, Effect::IfZero(Comparison::Greater)),
    // ifle
    (Operands::Jump, Effect::IfZero(Comparison::AtMost)),
    // if_icmpeq
    (Operands::Jump, Effect::IfBoth(Comparison::Equal)),
    // if_icmpne
    (Operands::Jump, Effect::IfBoth(Comparison::Unequal)),
    // if_icmplt
    (Operands::Jump, Effect::IfBoth(Comparison::Less)),
    // if_icmpge
    (Operands::Jump, Effect::IfBoth(Comparison::AtLeast)),
    // if_icmpgt
    (Operands::Jump, Effect::IfBoth(Comparison::Greater)),
    // if_icmple
    (Operands::Jump, Effect::IfBoth(Comparison::AtMost)),
    // if_acmpeq
    (Operands::Jump, Effect::IfSame(true)),
    // if_acmpne
    (Operands::Jump, Effect::IfSame(false)),
    // goto
    (Operands::Jump, Effect::Go),
    // jsr
    (Operands::Jump, Effect::Unsupported),
    // ret
    (Operands::Local, Effect::Unsupported),
    // tableswitch
    (Operands::TableSwitch, Effect::Switch),
    // lookupswitch
    (Operands::LookupSwitch, Effect::Switch),
    // ireturn
    (Operands::Nothing, Effect::Return(1)),
    // lreturn
    (Operands::Nothing, Effect::Return(2)),
    // freturn
    (Operands::Nothing, Effect::Return(1)),
    // dreturn
    (Operands::Nothing, Effect::Return(2)),
    // areturn
    (Operands::Nothing, Effect::Return(1)),
    // return
    (Operands::Nothing, Effect::Return(0)),
    // getstatic
    (Operands::Constant(Kind::Field), Effect::GetStatic),
    // putstatic
    (Operands::Constant(Kind::Field), Effect::PutStatic),
    // getfield
    (Operands::Constant(Kind::Field), Effect::GetField),
    // putfield
    (Operands::Constant(Kind::Field), Effect::PutField),
    // invokevirtual
    (
        Operands::Constant(Kind::Method),
        Effect::Call(Calling::Virtual),
    ),
    // invokespecial
    (
        Operands::Constant(Kind::AnyMethod),
        Effect::Call(Calling::Special),
    ),
    // invokestatic
    (
        Operands::Constant(Kind::AnyMethod),
        Effect::Call(Calling::Static),
    ),
    // invokeinterface
    (Operands::Interface, Effect::Call(Calling::Interface)),
    // invokedynamic
    (Operands::Dynamic, Effect::Call(Calling::Dynamic)),
    // new
    (Operands::Constant(Kind::Class), Effect::New),
    // newarray
    (Operands::Byte, Effect::Other { takes: 1, gives: 1 }),
    // anewarray
    (
        Operands::Constant(Kind::Class),
        Effect::Other { takes: 1, gives: 1 },
    ),
    // arraylength
    (Operands::Nothing, Effect::Other { takes: 1, gives: 1 }),
    // athrow
    (Operands::Nothing, Effect::Throw),
    // checkcast
    (Operands::Constant(Kind::Class), Effect::CheckCast),
    // instanceof
    (
        Operands::Constant(Kind::Class),
        Effect::Other { takes: 1, gives: 1 },
    ),
    // monitorenter
    (Operands::Nothing, Effect::Other { takes: 1, gives: 0 }),
    // monitorexit
    (Operands::Nothing, Effect::Other { takes: 1, gives: 0 }),
    // wide
    (Operands::Wide, Effect::Wide),
    // multianewarray
    (Operands::Dimensions, Effect::NewArrays),
    // ifnull
    (Operands::Jump, Effect::IfNull(true)),
    // ifnonnull
    (Operands::Jump, Effect::IfNull(false)),
    // goto_w
    (Operands::FarJump, Effect::Go),
    // jsr_w
    (Operands::FarJump, Effect::Unsupported),
];
