//! Laws of the definitions: a layout reads back, parentheses are put where they are needed, and a normal form is normal.

ghost use Rattle.std.specs.Prelude.{◌≡◌, ℕ, List, Bool, IsTrue};
ghost use Rattle.jsx_base.specs.Token.{Text};
ghost use Rattle.jsx_tree.specs.declared.text.Goal.{Goal};
ghost use Rattle.jsx_tree.specs.Kinds.{Tree};
ghost use Rattle.jsx_tree.specs.Nonterminals.{Nonterminal};
ghost use Rattle.jsx_tree.specs.Form.{is};
ghost use Rattle.jsx_tree.specs.Spelling.{spelled};
ghost use Rattle.jsx_tree.specs.Program.{is_goal, Reads};
ghost use Rattle.jsx_tree.specs.Normal.{nf, laid_tree, without_parentheses};
ghost use Rattle.jsx_tree.specs.Layout.{Note, printed};
ghost use Rattle.jsx_tree.specs.Notes.{noted, all_notes, at_code, marks, noted_layout};
ghost use Rattle.jsx_tree.specs.Parentheses.{parenthesise};
ghost use Rattle.jsx_tree.specs.Fits.{fits};
ghost use Rattle.jsx_tree.specs.Sound.{formed, is_sound, has_no_jsx};

/// The layout of a module or script that fits reads as that program: each token is read as that token again, no two join, and
/// no semicolon, directive or `else` changes its meaning.
pub fn layout_reads_back()
    ensures { (goal : Goal) (t : Tree) → IsTrue (is_goal goal t) → IsTrue (fits t) → Reads goal (printed t) (laid_tree t) }
{}

/// So does its layout with comments before the tokens. A line comment stands on a line of its own; a comment beside a token
/// has no line terminator, nor has one where none may stand (ECMA-262 section 12.10.1).
pub fn comments_read_back()
    ensures { (goal : Goal) (f : ℕ → List Note) (t : Tree) → ((i : ℕ) → IsTrue (all_notes (f i))) → IsTrue (noted f 0 (spelled (laid_tree t)))
        → IsTrue (is_goal goal t) → IsTrue (fits t) → Reads goal (noted_layout f t) (laid_tree t) }
{}

/// And its layout with pure marks before tokens, each but those of a template's later pieces.
pub fn marks_read_back()
    ensures { (goal : Goal) (at : ℕ → Bool) (t : Tree) → IsTrue (at_code at 0 (spelled (laid_tree t)))
        → IsTrue (is_goal goal t) → IsTrue (fits t) → Reads goal (noted_layout (marks at) t) (laid_tree t) }
{}

/// A tree that is sound fits once parentheses are put: each expression is one of its place's level, no statement begins as
/// another one, no string statement is a directive, and no `in` stands open in the head of a `for`.
pub fn parentheses_fit()
    ensures fits { (t : Tree) → IsTrue (is_sound t) → IsTrue (fits (parenthesise t)) }
    ensures goal { (goal : Goal) (t : Tree) → IsTrue (is_goal goal t) → IsTrue (is_goal goal (parenthesise t)) }
{}

/// So a sound program, printed in parentheses, is read as a program that says the same.
pub fn sound_programs_read_back()
    ensures reads { (goal : Goal) (t : Tree) → IsTrue (is_goal goal t) → IsTrue (is_sound t) → Reads goal (printed (parenthesise t)) (laid_tree (parenthesise t)) }
    ensures same { (t : Tree) → IsTrue (is_sound t) → nf (laid_tree (parenthesise t)) ≡ nf t }
{}

/// No pair is put where none is needed: a program that fits as it is laid stays as it is.
pub fn parentheses_are_needed()
    ensures { (t : Tree) → IsTrue (fits t) → parenthesise (laid_tree t) ≡ laid_tree t }
{}

/// Parentheses change nothing that a tree says.
pub fn parentheses_say_nothing()
    ensures { (t : Tree) → nf (parenthesise t) ≡ nf t }
{}

/// What layout writes in another form says the same: of each tree that the grammar has, and of each that it has but for
/// parentheses.
pub fn laying_says_nothing()
    ensures of_the_grammar { (c : Nonterminal) (t : Tree) → IsTrue (is c t) → nf (laid_tree t) ≡ nf t }
    ensures but_for_parentheses { (t : Tree) → IsTrue (formed t) → nf (laid_tree t) ≡ nf t }
{}

/// A normal form is its own, of the same trees.
pub fn normal_form_is_normal()
    ensures of_the_grammar { (c : Nonterminal) (t : Tree) → IsTrue (is c t) → nf (nf t) ≡ nf t }
    ensures but_for_parentheses { (t : Tree) → IsTrue (formed t) → nf (nf t) ≡ nf t }
{}

/// A program that is read and has no JSX is sound with its parentheses off. It says the same then, as a module or a script as
/// before.
pub fn what_reads_is_sound()
    ensures sound { (goal : Goal) (text : Text) (t : Tree) → IsTrue (has_no_jsx t) → Reads goal text t → IsTrue (is_sound (without_parentheses t)) }
    ensures goal { (goal : Goal) (t : Tree) → IsTrue (is_goal goal t) → IsTrue (is_goal goal (without_parentheses t)) }
    ensures same { (t : Tree) → nf (without_parentheses t) ≡ nf t }
{}
