//! The tree of a program over borrowed text, and the definitions of the grammar that it is a tree of.
#![tactic(auto)]

mod one_reading;
mod operator;
mod program;
mod reading_back;
mod text;
mod tree;

pub use one_reading::one_tree;
pub use operator::{
    AssignOp, BinaryOp, BitOp, EqualityOp, ProductOp, RelationOp, ShiftOp, SumOp, UnaryOp,
    UpdateOp, UpdateSide,
};
pub use program::{ImportClause, ImportNames, Item, Module, Program, Script, Specifier};
pub use reading_back::{
    comments_read_back, laying_says_nothing, layout_reads_back, marks_read_back,
    normal_form_is_normal, parentheses_are_needed, parentheses_fit, parentheses_say_nothing,
    sound_programs_read_back, what_reads_is_sound,
};
pub use text::{DeclareWord, Goal, Ident, LinkForm, LiteralKind, Placement, Text, Word};
pub use tree::{Access, AttrName, Control, Expr, Jsx, Key, Link, Operation, Pat, Prop, Stmt, Tag};
