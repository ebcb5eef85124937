//! The automaton of numbers.

ghost use Rattle.std.specs.Prelude.{◌≡◌};
ghost use Rattle.jsx_base.specs.Token.{step, behind_zero, InDigits, BehindE, InExponent, InBase};
ghost use Rattle.jsx_lex.specs.Automaton.{state_of, number_state, base_of, in_fraction};

use crate::automaton::{Base, Number, State, is_base_digit, is_letter};

/// A character behind a 0 at the begin.
fn behind_zero(c: char) -> State
    ensures { state_of result ≡ behind_zero c }
{
    if c == '.' {
        State::Number(Number::BehindPoint)
    } else if is_letter('e', c) {
        State::Number(Number::BehindE)
    } else if c == 'n' {
        State::Number(Number::BehindN)
    } else if is_letter('x', c) {
        State::Number(Number::InBase(Base::Hexadecimal, false))
    } else if is_letter('o', c) {
        State::Number(Number::InBase(Base::Octal, false))
    } else if is_letter('b', c) {
        State::Number(Number::InBase(Base::Binary, false))
    } else {
        State::Dead
    }
}

/// A character among the digits of the integer.
fn in_digits(is_digit: bool, c: char) -> State
    ensures { state_of result ≡ step (InDigits is_digit) c }
{
    if c.is_ascii_digit() {
        State::Number(Number::InDigits(true))
    } else if !is_digit {
        State::Dead
    } else if c == '_' {
        State::Number(Number::InDigits(false))
    } else if c == '.' {
        State::Number(Number::BehindPoint)
    } else if is_letter('e', c) {
        State::Number(Number::BehindE)
    } else if c == 'n' {
        State::Number(Number::BehindN)
    } else {
        State::Dead
    }
}

/// A character among the digits of the fraction, or before the first of them.
fn in_fraction(is_digit: bool, is_first: bool, c: char) -> State
    ensures { state_of result ≡ in_fraction is_digit is_first c }
{
    if c.is_ascii_digit() {
        State::Number(Number::InFraction(true))
    } else if is_digit && c == '_' {
        State::Number(Number::InFraction(false))
    } else if (is_digit || is_first) && is_letter('e', c) {
        State::Number(Number::BehindE)
    } else {
        State::Dead
    }
}

/// A character among the digits of the exponent.
fn in_exponent(is_digit: bool, c: char) -> State
    ensures { state_of result ≡ step (InExponent is_digit) c }
{
    if c.is_ascii_digit() {
        State::Number(Number::InExponent(true))
    } else if is_digit && c == '_' {
        State::Number(Number::InExponent(false))
    } else {
        State::Dead
    }
}

/// A character behind the `e` of an exponent.
fn behind_e(c: char) -> State
    ensures { state_of result ≡ step BehindE c }
{
    if c.is_ascii_digit() {
        State::Number(Number::InExponent(true))
    } else if c == '+' || c == '-' {
        State::Number(Number::BehindSign)
    } else {
        State::Dead
    }
}

/// A character among the digits of a base.
fn in_base(base: Base, is_digit: bool, c: char) -> State
    ensures { state_of result ≡ step (InBase (base_of base) is_digit) c }
{
    if is_base_digit(base, c) {
        State::Number(Number::InBase(base, true))
    } else if is_digit && c == '_' {
        State::Number(Number::InBase(base, false))
    } else if is_digit && c == 'n' {
        State::Number(Number::BehindN)
    } else {
        State::Dead
    }
}

/// The state a character further.
pub fn number_step(number: Number, c: char) -> State
    ensures { state_of result ≡ step (number_state number) c }
{
    match number {
        Number::BehindZero => behind_zero(c),
        Number::InDigits(is_digit) => in_digits(is_digit, c),
        Number::BehindPoint => in_fraction(false, true, c),
        Number::InFraction(is_digit) => in_fraction(is_digit, false, c),
        Number::BehindE => behind_e(c),
        Number::BehindSign => in_exponent(false, c),
        Number::InExponent(is_digit) => in_exponent(is_digit, c),
        Number::InBase(base, is_digit) => in_base(base, is_digit, c),
        Number::BehindN => State::Dead,
    }
}
