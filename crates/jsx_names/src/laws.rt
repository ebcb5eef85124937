//! Laws of the definitions: what the events of a tree say is what the tree says.

ghost use Rattle.std.specs.Prelude.{◌≡◌, List, [], true};
ghost use Rattle.std.specs.Option.{option_map};
ghost use Rattle.jsx_base.specs.Token.{Text};
ghost use Rattle.jsx_tree.specs.declared.text.Goal.{Goal};
ghost use Rattle.jsx_tree.specs.Program.{Reads};
ghost use Rattle.jsx_tree.specs.Normal.{without_parentheses};
ghost use Rattle.jsx_tree.specs.Kinds.{Script, program, Tree};
ghost use Rattle.jsx_tree.specs.Nonterminals.{WholeProgram};
ghost use Rattle.jsx_tree.specs.Clashes.{direct_evals, first_clash};
ghost use Rattle.jsx_tree.specs.Scopes.{Path, refers};
ghost use Rattle.jsx_names.specs.Events.{Event, Plain, events};
ghost use Rattle.jsx_names.specs.Answers.{answers, clashing, evals_in, first_fault};
ghost use Rattle.jsx_names.specs.Faults.{calls, first_faulty, placed_at};
ghost use Rattle.jsx_names.specs.Heard.{bare_all, heard_in};
ghost use Rattle.jsx_names.specs.Resolved.{resolved, clashed};
ghost use Rattle.jsx_names.specs.Proper.{proper};
ghost use Rattle.jsx_names.specs.Rising.{places_in, rising};
ghost use Rattle.jsx_names.specs.Referred.{all_referred, answer_at};

/// What the names among the events refer to, by a stack of the scopes that stand open, is what they refer to in the tree, by
/// what its nodes give to the scopes round them.
pub fn answers_of_a_tree()
    ensures { (t : Tree) → answers [] (events t) ≡ resolved [] Plain (program Script) WholeProgram [] t }
{}

/// So are the declarations that clash, scope by scope.
pub fn clashes_of_a_tree()
    ensures { (t : Tree) → clashing (events t) ≡ clashed Plain (program Script) [] t }
{}

/// The calls among the events are the direct calls of `eval` (ECMA-262 section 13.3.6.1).
pub fn calls_of_a_tree()
    ensures { (t : Tree) → proper t ≡ true → evals_in (events t) ≡ direct_evals t }
{}

/// The first of the early errors on names among the events is that of the definitions: two declarations in one scope that clash
/// (ECMA-262 sections 14.2.1, 14.7, 14.12.1, 14.15.1, 15.1.1, 15.2.1, 16.1.1 and 16.2.1), an export given twice, or an exported
/// name that isn't declared (section 16.2.1).
pub fn faults_of_a_tree()
    ensures { (t : Tree) → proper t ≡ true → first_fault (events t) ≡ first_clash t }
{}

/// The events stand in the order of the text: of the places where names are declared, exported and wanted each is behind those
/// that stand in front of it, or at the same place. So the first event that is an early error is at the least place of one.
pub fn order_of_events()
    ensures { (t : Tree) → proper t ≡ true → rising (places_in (events t)) ≡ true }
{}

/// So the first early error on names is at the place of the first event that is one.
pub fn faults_in_order()
    ensures placed { (t : Tree) → proper t ≡ true → first_clash t ≡ option_map (placed_at (events t)) (first_faulty (events t)) }
    // A walk hears the events without their paths, which it doesn't know; and no number hangs on these.
    ensures heard { (t : Tree) → heard_in t ≡ bare_all (events t) }
    ensures bare { (es : List Event) → first_faulty (bare_all es) ≡ first_faulty es }
    ensures calls { (es : List Event) → calls 0 (bare_all es) ≡ calls 0 es }
{}

/// What the name at a place refers to (ECMA-262 section 8.2, scope analysis) is the answer there among those to the events, and
/// nothing where no name stands.
pub fn references_of_a_tree()
    ensures told { (t : Tree) (p : Path) → proper t ≡ true → refers t p ≡ answer_at p (answers [] (events t)) }
    // One answer for each name, in the order of the tree.
    ensures all { (t : Tree) → proper t ≡ true → answers [] (events t) ≡ all_referred t }
{}

/// The tree that a text reads as is proper, and so it is with its parentheses off.
pub fn trees_that_read()
    ensures written { (goal : Goal) (text : Text) (t : Tree) → Reads goal text t → proper t ≡ true }
    ensures bare { (goal : Goal) (text : Text) (t : Tree) → Reads goal text t → proper (without_parentheses t) ≡ true }
{}
