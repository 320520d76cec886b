//! The class files of a resolved program link to the program that is expected; those that exceed no limit are class
//! files that bytes spell.
//! There is no running code here; each function carries a law.
#![tactic(auto)]

ghost use Rattle.gen_links.specs.Files.{CoresJump, CoresLink, FilesLink};
ghost use Rattle.gen_links.specs.FittingCode.{CodeFits};
ghost use Rattle.gen_links.specs.Known.{CodeIsRight};
ghost use Rattle.gen_links.specs.Right.{AssembledLinks};
ghost use Rattle.gen_links.specs.Spelled.{CoresAreSmall, CoresFit, FilesFit};

/// Code that is assembled of instructions whose jumps lead into it and whose names are there is
/// judged right by linking, and its linked instructions are those that are expected: constants
/// are found under their numbers, and each distance leads back to its instruction.
/// So link all instructions of a core's methods and constructors where its classes and members are found.
pub fn code_links()
    ensures assembled { AssembledLinks }
    ensures right { CodeIsRight }
{}

/// The class files of a core link to the program that is expected of it where linking finds its
/// classes and members and no two classes have one name. Where no `/`, `;` or `<` stands in the
/// core's names, as in Java's, all of this is found, and each jump reaches an instruction.
pub fn files_link()
    ensures found { FilesLink }
    ensures cores { CoresLink }
    ensures jumps { CoresJump }
{}

/// Each instruction that is generated for a method has an operand of its opcode's form, whose numbers
/// fit, where the method has at most 255 locals; its stack is never deeper than its code is long.
pub fn code_fits()
    ensures fits { CodeFits }
{}

/// The class file of a class that exceeds no limit can be laid out, is well formed, and its codes
/// are sound, where its methods can stand in a file and its jumps lead to instructions.
/// So are all class files of a core that exceeds no limit, where its names are plain, its texts are
/// UTF-8 and its ints of 32 bits, and each class has fewer than 65,536 fields and 65,535 methods.
pub fn files_fit()
    ensures spelled { FilesFit }
    ensures cores { CoresFit }
{}

/// Where nothing exceeds a limit, no class of a core has 65,536 fields or 65,535 methods: the names of
/// either are apart, and all of them are texts of a pool of at most 65,534 constants.
pub fn members_are_few()
    ensures few { CoresAreSmall }
{}
