//! Laws of lists of events: their early errors by number are those that the definitions find by place.

ghost use Rattle.std.specs.Prelude.{◌≡◌, Bool, List, [], map};
ghost use Rattle.std.specs.List.{list_any};
ghost use Rattle.std.specs.Option.{option_map};
ghost use Rattle.jsx_tree.specs.Clashes.{Place};
ghost use Rattle.jsx_names.specs.Answers.{answers, evals_in, faults, first_fault};
ghost use Rattle.jsx_names.specs.Bindings.{bindings};
ghost use Rattle.jsx_names.specs.ByNumber.{answers_by, names_in, node_at, owns_at};
ghost use Rattle.jsx_names.specs.Events.{Event};
ghost use Rattle.jsx_names.specs.Least.{IsLeastOf, IsOrdered};
ghost use Rattle.jsx_names.specs.Faults.{called_at, calls, faulty, first_faulty, placed_at};

/// Whatever is asked of a place: one of the early errors that are found scope by scope has it, exactly
/// where one of those that are found event by event has it.
pub fn faults_are_numbered()
    ensures { (P : Place → Bool) (es : List Event) → list_any P (faults es) ≡ list_any (λ k. P (placed_at es k)) (faulty es) }
{}

/// The first early error is the least of these numbers.
pub fn first_is_least()
    ensures { (es : List Event) → IsLeastOf (first_faulty es) (faulty es) }
{}

/// The calls of `eval` by number are those that are told.
pub fn calls_are_numbered()
    ensures { (es : List Event) → evals_in es ≡ map (called_at es) (calls 0 es) }
{}

/// So where places rise, it has the place of the first that is found scope by scope.
pub fn first_has_its_place()
    ensures { (es : List Event) → IsOrdered (first_faulty es) es → first_fault es ≡ option_map (placed_at es) (first_faulty es) }
{}

/// What each name refers to is told by the numbers of the events that begin their scopes.
pub fn answers_are_numbered()
    ensures { (es : List Event) → answers [] es ≡ answers_by (node_at es) (owns_at es) (names_in es) (bindings 0 [] es) }
{}
