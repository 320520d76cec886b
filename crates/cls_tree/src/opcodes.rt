//! The opcodes of this machine, under their names (JVMS 6.5).
//! Their numbers stand here alone; definitions and code take them from here.

/// Pushes null.
pub const ACONST_NULL: u8 = 0x01;
/// Pushes -1.
pub const ICONST_M1: u8 = 0x02;
/// Pushes 0.
pub const ICONST_0: u8 = 0x03;
/// Pushes 1.
pub const ICONST_1: u8 = 0x04;
/// Pushes 2.
pub const ICONST_2: u8 = 0x05;
/// Pushes 3.
pub const ICONST_3: u8 = 0x06;
/// Pushes 4.
pub const ICONST_4: u8 = 0x07;
/// Pushes 5.
pub const ICONST_5: u8 = 0x08;
/// Pushes a number of one byte.
pub const BIPUSH: u8 = 0x10;
/// Pushes a number of two bytes.
pub const SIPUSH: u8 = 0x11;
/// Pushes an int or a text of the pool, by a number of one byte.
pub const LDC: u8 = 0x12;
/// Pushes an int or a text of the pool, by a number of two bytes.
pub const LDC_W: u8 = 0x13;

/// Pushes an int that a local holds.
pub const ILOAD: u8 = 0x15;
/// Pushes a reference that a local holds.
pub const ALOAD: u8 = 0x19;
/// Pushes the int that local 0 holds.
pub const ILOAD_0: u8 = 0x1a;
/// Pushes the int that local 1 holds.
pub const ILOAD_1: u8 = 0x1b;
/// Pushes the int that local 2 holds.
pub const ILOAD_2: u8 = 0x1c;
/// Pushes the int that local 3 holds.
pub const ILOAD_3: u8 = 0x1d;
/// Pushes the reference that local 0 holds.
pub const ALOAD_0: u8 = 0x2a;
/// Pushes the reference that local 1 holds.
pub const ALOAD_1: u8 = 0x2b;
/// Pushes the reference that local 2 holds.
pub const ALOAD_2: u8 = 0x2c;
/// Pushes the reference that local 3 holds.
pub const ALOAD_3: u8 = 0x2d;

/// A local takes the int on top.
pub const ISTORE: u8 = 0x36;
/// A local takes the reference on top.
pub const ASTORE: u8 = 0x3a;
/// Local 0 takes the int on top.
pub const ISTORE_0: u8 = 0x3b;
/// Local 1 takes the int on top.
pub const ISTORE_1: u8 = 0x3c;
/// Local 2 takes the int on top.
pub const ISTORE_2: u8 = 0x3d;
/// Local 3 takes the int on top.
pub const ISTORE_3: u8 = 0x3e;
/// Local 0 takes the reference on top.
pub const ASTORE_0: u8 = 0x4b;
/// Local 1 takes the reference on top.
pub const ASTORE_1: u8 = 0x4c;
/// Local 2 takes the reference on top.
pub const ASTORE_2: u8 = 0x4d;
/// Local 3 takes the reference on top.
pub const ASTORE_3: u8 = 0x4e;

/// Drops the value on top.
pub const POP: u8 = 0x57;
/// Pushes the value on top once more.
pub const DUP: u8 = 0x59;
/// Exchanges the two values on top.
pub const SWAP: u8 = 0x5f;
/// The sum of the two ints on top.
pub const IADD: u8 = 0x60;
/// The difference of the two ints on top.
pub const ISUB: u8 = 0x64;
/// The product of the two ints on top.
pub const IMUL: u8 = 0x68;
/// The quotient of the two ints on top.
pub const IDIV: u8 = 0x6c;
/// The remainder of the two ints on top.
pub const IREM: u8 = 0x70;
/// The int on top with the other sign.
pub const INEG: u8 = 0x74;
/// Adds a number to the int that a local holds.
pub const IINC: u8 = 0x84;

/// Jumps where the int on top is 0.
pub const IFEQ: u8 = 0x99;
/// Jumps where the int on top isn't 0.
pub const IFNE: u8 = 0x9a;
/// Jumps where the int on top is below 0.
pub const IFLT: u8 = 0x9b;
/// Jumps where the int on top is 0 or above.
pub const IFGE: u8 = 0x9c;
/// Jumps where the int on top is above 0.
pub const IFGT: u8 = 0x9d;
/// Jumps where the int on top is 0 or below.
pub const IFLE: u8 = 0x9e;
/// Jumps where the two ints on top are equal.
pub const IF_ICMPEQ: u8 = 0x9f;
/// Jumps where the two ints on top differ.
pub const IF_ICMPNE: u8 = 0xa0;
/// Jumps where, of the two ints on top, the one below is less.
pub const IF_ICMPLT: u8 = 0xa1;
/// Jumps where, of the two ints on top, the one below is at least the other.
pub const IF_ICMPGE: u8 = 0xa2;
/// Jumps where, of the two ints on top, the one below is greater.
pub const IF_ICMPGT: u8 = 0xa3;
/// Jumps where, of the two ints on top, the one below is at most the other.
pub const IF_ICMPLE: u8 = 0xa4;
/// Jumps.
pub const GOTO: u8 = 0xa7;
/// Jumps by the int on top.
pub const TABLESWITCH: u8 = 0xaa;

/// Returns the int on top.
pub const IRETURN: u8 = 0xac;
/// Returns the reference on top.
pub const ARETURN: u8 = 0xb0;
/// Returns no value.
pub const RETURN: u8 = 0xb1;

/// Reads a static field.
pub const GETSTATIC: u8 = 0xb2;
/// Reads a field of an object.
pub const GETFIELD: u8 = 0xb4;
/// Writes a field of an object.
pub const PUTFIELD: u8 = 0xb5;
/// Calls a method on an object.
pub const INVOKEVIRTUAL: u8 = 0xb6;
/// Calls a constructor, or a method that no protocol names.
pub const INVOKESPECIAL: u8 = 0xb7;
/// Calls a static method.
pub const INVOKESTATIC: u8 = 0xb8;
/// Makes an object of a class.
pub const NEW: u8 = 0xbb;

/// Jumps where the reference on top is null.
pub const IFNULL: u8 = 0xc6;
/// Jumps where the reference on top isn't null.
pub const IFNONNULL: u8 = 0xc7;
