//! The automata of the tokens that have more than one state.

ghost use Rattle.std.specs.Prelude.{◌≡◌, ◌<◌, MatchOption, IsTrue, false, true};
ghost use Rattle.jsx_base.specs.Token.{is_hex, hex_value, is_letter, is_base_digit};
ghost use Rattle.jsx_lex.specs.Automaton.{base_of};

/// The digits of a number with a prefix.
#[derive(Clone, Copy)]
pub enum Base {
    Hexadecimal,
    Octal,
    Binary,
}

/// What was taken of a number. A flag says whether the last character is a digit.
#[derive(Clone, Copy)]
pub enum Number {
    /// A 0 at the begin.
    BehindZero,
    InDigits(bool),
    BehindPoint,
    InFraction(bool),
    BehindE,
    BehindSign,
    InExponent(bool),
    InBase(Base, bool),
    BehindN,
}

/// What was taken of a string.
#[derive(Clone, Copy)]
pub enum Quoted {
    InBody,
    InEscape,
    /// This many hexadecimal digits are to come.
    InHex(u8),
    InUnicode,
    /// In braces, behind some digit or none, with the value so far.
    InBraces(bool, u32),
    BehindNul,
    BehindCr,
    Closed,
}

/// What was taken of a regular expression. A flag says whether it is in a class.
#[derive(Clone, Copy)]
pub enum RegExp {
    AtStart,
    InBody(bool),
    InEscape(bool),
    InFlags,
}

/// What was taken of a template's piece.
#[derive(Clone, Copy)]
pub enum Template {
    InBody,
    InEscape,
    BehindDollar,
    /// By its backquote.
    Closed,
    /// By its `${`.
    Substituted,
}

#[derive(Clone, Copy)]
pub enum State {
    Dead,
    Number(Number),
    /// With its quote.
    Quoted(char, Quoted),
    RegExp(RegExp),
    /// Whether it is the template's first piece, and what was taken of it.
    Template(bool, Template),
}

#[inline]
pub fn is_letter(lower: char, c: char) -> bool
    requires { lower < 128 }
    ensures { result ≡ is_letter lower c }
{
    c == lower || (c as u32) + 32 == lower as u32
}

/// The value of a hexadecimal digit.
#[inline]
pub fn hex_value(c: char) -> Option<u32>
    ensures { MatchOption result (is_hex c ≡ false) (λ v. (is_hex c ≡ true) × (v ≡ hex_value c) × (v < 16)) }
{
    if c.is_ascii_digit() {
        return Some(c as u32 - 48);
    }
    if c >= 'A' && c <= 'F' {
        return Some(c as u32 - 55);
    }
    if c >= 'a' && c <= 'f' {
        return Some(c as u32 - 87);
    }
    None
}

#[inline]
pub fn is_hex(c: char) -> bool
    ensures { result ≡ is_hex c }
{
    c.is_ascii_digit() || (c >= 'A' && c <= 'F') || (c >= 'a' && c <= 'f')
}

#[inline]
pub fn is_base_digit(base: Base, c: char) -> bool
    ensures { result ≡ is_base_digit (base_of base) c }
{
    match base {
        Base::Hexadecimal => is_hex(c),
        Base::Octal => c >= '0' && c <= '7',
        Base::Binary => c >= '0' && c <= '1',
    }
}
