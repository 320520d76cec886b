//! The signs of Java, of one byte and of two.
//! The longest sign that stands there is taken.

ghost use Rattle.std.specs.Prelude.{◌≡◌};
ghost use Rattle.jv_lex.specs.inner.Front.{bracket, operator, mark, single, with_equals, doubled, pair};

use jv_tree::Sign;

fn bracket(byte: u8) -> Option<Sign>
    ensures { result ≡ bracket byte }
{
    match byte {
        b'{' => Some(Sign::OpenBrace),
        b'}' => Some(Sign::CloseBrace),
        b'(' => Some(Sign::OpenParen),
        b')' => Some(Sign::CloseParen),
        b'[' => Some(Sign::OpenBracket),
        b']' => Some(Sign::CloseBracket),
        b';' => Some(Sign::Semicolon),
        b',' => Some(Sign::Comma),
        b'.' => Some(Sign::Dot),
        _ => None,
    }
}

fn operator(byte: u8) -> Option<Sign>
    ensures { result ≡ operator byte }
{
    match byte {
        b'=' => Some(Sign::Assign),
        b'<' => Some(Sign::Less),
        b'>' => Some(Sign::Greater),
        b'+' => Some(Sign::Plus),
        b'-' => Some(Sign::Minus),
        b'*' => Some(Sign::Star),
        b'/' => Some(Sign::Slash),
        b'%' => Some(Sign::Percent),
        b'!' => Some(Sign::Bang),
        _ => None,
    }
}

fn mark(byte: u8) -> Option<Sign>
    ensures { result ≡ mark byte }
{
    match byte {
        b':' => Some(Sign::Colon),
        b'@' => Some(Sign::At),
        b'?' => Some(Sign::Question),
        b'&' => Some(Sign::Ampersand),
        b'|' => Some(Sign::Bar),
        b'^' => Some(Sign::Caret),
        b'~' => Some(Sign::Tilde),
        _ => None,
    }
}

/// The sign that a byte is.
pub(crate) fn single(byte: u8) -> Option<Sign>
    ensures { result ≡ single byte }
{
    if let Some(sign) = bracket(byte) {
        return Some(sign);
    }
    if let Some(sign) = operator(byte) {
        return Some(sign);
    }
    mark(byte)
}

// The sign that a sign and "=" are.
fn with_equals(sign: Sign) -> Option<Sign>
    ensures { result ≡ with_equals sign }
{
    match sign {
        Sign::Assign => Some(Sign::Equal),
        Sign::Bang => Some(Sign::NotEqual),
        Sign::Less => Some(Sign::LessEqual),
        Sign::Greater => Some(Sign::GreaterEqual),
        Sign::Plus => Some(Sign::PlusAssign),
        Sign::Minus => Some(Sign::MinusAssign),
        Sign::Star => Some(Sign::StarAssign),
        Sign::Slash => Some(Sign::SlashAssign),
        Sign::Percent => Some(Sign::PercentAssign),
        _ => None,
    }
}

// The sign that a byte is which stands twice.
fn doubled(byte: u8) -> Option<Sign>
    ensures { result ≡ doubled byte }
{
    match byte {
        b'+' => Some(Sign::PlusPlus),
        b'-' => Some(Sign::MinusMinus),
        b'&' => Some(Sign::AndAnd),
        b'|' => Some(Sign::OrOr),
        _ => None,
    }
}

/// The longer sign that a sign, whose byte is the first, and the second byte are.
pub(crate) fn pair(sign: Sign, first: u8, second: u8) -> Option<Sign>
    ensures { result ≡ pair sign first second }
{
    if second == b'=' {
        return with_equals(sign);
    }
    if first == second {
        return doubled(first);
    }
    None
}
