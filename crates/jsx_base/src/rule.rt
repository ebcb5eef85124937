//! Rules: closures that a caller makes, with the relation that their answers meet.

ghost use Rattle.std.specs.Prelude.{◌≡◌, ◌/◌};

use std::marker::{Model, PhantomData};

/// A closure from `A` to `B` by name: a type of the caller's, which holds what the closure captures and says by
/// which relation it answers.
///
/// It stands for `Fn(&A) -> B`, since a type that holds a closure can't keep a fact about it yet.
pub trait Answers<A, B> {
    /// It may be called on every value.
    ghost answers_all: { Self → Type 0 };

    /// It may give this answer for the value.
    ghost gives: { Self → A → B → Type 0 };

    /// The answer for a value.
    fn answer(&self, a: &A) -> B
        requires { answers_all self.now }
        ensures { gives self.now a.now result };
}

/// A closure that may be called on every `A`, and its relation, by which each value has one answer. Contracts see a
/// rule as its closure.
#[derive(Drop)]
pub struct Rule<A, B, F: Answers<A, B>> {
    closure: F,
    asked: PhantomData<A>,
    answered: PhantomData<B>,
}

impl<A, B, F: Answers<A, B>> Model for Rule<A, B, F> {
    ghost Value = { F };

    ghost view = { λ rule. rule.closure };

    ghost invariant = { λ rule. F.answers_all rule.closure × ((a : A) (b c : B) → F.gives rule.closure a b → F.gives rule.closure a c → b ≡ c) };
}

impl<A, B, F: Answers<A, B>> Rule<A, B, F> {
    /// The rule that answers as the closure does.
    pub fn new(f: F) -> Rule<A, B, F>
        requires answers_all { F.answers_all f }
        requires one_answer { (a : A) (b c : B) → F.gives f a b → F.gives f a c → b ≡ c }
        ensures { result ≡ f }
    {
        Rule {
            closure: f,
            asked: PhantomData,
            answered: PhantomData,
        }
    }

    /// The answer for a value: it meets the relation, and no other does.
    pub fn apply(&self, a: &A) -> B
        ensures by_relation { F.gives self.now a.now result }
        ensures no_other { (b : B) → F.gives self.now a.now b → b ≡ result }
    {
        self.closure.answer(a)
    }
}

#[cfg(test)]
mod tests {
    use super::{Answers, Rule};

    // Divides by a number that isn't 0.
    #[derive(Drop)]
    struct DividedBy {
        divisor: u8,
    }

    impl Answers<u8, u8> for DividedBy {
        ghost use Rattle.std.specs.Prelude.{◌<◌};

        ghost answers_all = { λ f. 0 < f.divisor };

        ghost gives = { λ f a b. b ≡ a / f.divisor };

        fn answer(&self, a: &u8) -> u8 {
            *a / self.divisor
        }
    }

    fn half_of_ten() -> u8
        ensures { result ≡ 5 }
    {
        let rule: Rule<u8, u8, DividedBy> = Rule::new(DividedBy { divisor: 2 });
        rule.apply(&10)
    }

    #[test]
    fn a_rule_answers_by_its_closure(rt: HostRuntime) {
        assert!(rt; half_of_ten() == 5);
    }
}
