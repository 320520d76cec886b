//! The words that Java reserves, which name nothing.
//! Protocols and sources both ask for them.

ghost use Rattle.std.specs.Prelude.{◌≡◌, ◌↔◌, IsTrue};
ghost use Rattle.std.specs.Bool.{OnFalse};
ghost use Rattle.std.specs.List.{Contains};
ghost use Rattle.mg_text.specs.JavaWords.{java_words};

const JAVA_WORDS: [&str; 53] = [
    "boolean",
    "break",
    "case",
    "class",
    "continue",
    "default",
    "do",
    "else",
    "enum",
    "final",
    "if",
    "import",
    "int",
    "new",
    "package",
    "private",
    "protected",
    "public",
    "return",
    "static",
    "switch",
    "this",
    "void",
    "while",
    "true",
    "false",
    "null",
    "abstract",
    "assert",
    "byte",
    "catch",
    "char",
    "const",
    "double",
    "extends",
    "finally",
    "float",
    "for",
    "goto",
    "implements",
    "instanceof",
    "interface",
    "long",
    "native",
    "short",
    "strictfp",
    "super",
    "synchronized",
    "throw",
    "throws",
    "transient",
    "try",
    "volatile",
];

// By their first letters, from a on: bit n is set where a word of n bytes begins so.
const LENGTHS: [u16; 26] = [
    0x0140, 0x00b0, 0x0130, 0x00c4, 0x0090, 0x00a8, 0x0010, 0x0000, 0x064c, 0x0000, 0x0000, 0x0010,
    0x0000, 0x0058, 0x0000, 0x02c0, 0x0000, 0x0040, 0x1160, 0x0278, 0x0000, 0x0110, 0x0020, 0x0000,
    0x0000, 0x0000,
];

const FIRST_LETTER: usize = 97;

const MOST_BYTES: usize = 12;

// False where no word begins with the letter of a text and is as long.
fn may_be_word(text: &str) -> bool
    ensures { OnFalse result (Contains java_words text.now → ⊥) }
{
    let bytes = text.as_bytes();
    let count = bytes.len();
    if count == 0 {
        return false;
    }
    if count > MOST_BYTES {
        return false;
    }
    let first = bytes[0] as usize;
    if first < FIRST_LETTER {
        return false;
    }
    let place = first - FIRST_LETTER;
    if place >= LENGTHS.len() {
        return false;
    }
    (LENGTHS[place] >> count) & 1 == 1
}

/// Whether Java reserves a word, also where the sources here may not use it.
pub fn is_java_word(text: &str) -> bool
    ensures { IsTrue result ↔ Contains java_words text.now }
{
    if !may_be_word(text) {
        return false;
    }
    JAVA_WORDS.contains(&text)
}
