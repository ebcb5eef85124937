//! What every other crate stands on: places in a text, bytes that come in and go out, rules.
#![tactic(auto)]

mod calls;
mod columns;
mod comments;
mod file_name;
mod marks;
mod multi_span;
mod node;
mod place;
mod rule;
mod sink;
mod source;
mod source_file;
mod source_map;
mod source_mapper;
mod span_laws;
mod token_laws;

pub use comments::{Comment, CommentKind, Comments, SingleThreadedComments};
pub use file_name::FileName;
pub use marks::{BaseError, Globals, Mark, Marks, SyntaxContext};
pub use multi_span::{MultiSpan, SpanLabel};
pub use node::AstNode;
pub use place::{BytePos, CharPos, DUMMY_SP, Span, Spanned};
pub use rule::{Answers, Rule};
pub use sink::{MemSink, QuietSink, Sink, StdSink};
pub use source::{Failed, MemSource, Source, StdSource};
pub use source_file::SourceFile;
pub use source_map::SourceMap;
pub use source_mapper::{FileLines, LineInfo, LinesError, Loc, SourceMapper};
pub use span_laws::{lines_hold_text, merged_hold_both};
pub use token_laws::{strings_are_parts, templates_are_parts};
