//! The calls that add a label or a note.

ghost use Rattle.std.specs.Prelude.{◌≡◌, [], ◌∷◌, ◌++◌, None, IfOk, OnOk, OnErr, string_bytes, map};
ghost use Rattle.std.specs.Option.{option_map};
ghost use Rattle.jsx_base.specs.MultiSpan.{relabelled, spans_of};
ghost use Rattle.jsx_diag.specs.Data.{child_of, part_of, parts_of, piece_of, report_of};
ghost use Rattle.jsx_diag.specs.Adds.{plain_child, nowhere, note_of, part_piece, plain_piece, trait_signature, expected_found, with_child, with_details, with_label};

use super::clone_code;
use crate::message::one_plain;
use crate::sub_diagnostic::clone_children;
use crate::{Diagnostic, DiagnosticStyledString, Level, Message, StringPart, Style, SubDiagnostic};
use jsx_base::{MultiSpan, Span};
use std::alloc::{AllocError, Global};

impl Diagnostic {
    /// Adds a label at a span.
    ///
    /// # Errors
    ///
    /// `AllocError` for want of memory. The call under it, `push_label`, then changes nothing.
    pub fn span_label(&mut self, span: Span, label: String) -> Result<&mut Self, AllocError>
        ensures same_reference { IfOk result (λ it. it.ghost_name ≡ self.entry.ghost_name) }
        ensures added { IfOk result (λ it. report_of it.now ≡ with_label (report_of self.old) span (string_bytes label)) }
    {
        self.push_label(span, label)?;
        Ok(self)
    }

    /// Adds a note of this level and one plain message. `render_span` is shown in place of `span`.
    ///
    /// # Errors
    ///
    /// `AllocError` for want of memory. The call under it, `push_child`, then changes nothing.
    pub fn sub(
        &mut self,
        level: Level,
        message: &str,
        span: MultiSpan,
        render_span: Option<MultiSpan>,
    ) -> Result<&mut Self, AllocError>
        ensures same_reference { IfOk result (λ it. it.ghost_name ≡ self.entry.ghost_name) }
        ensures added { IfOk result (λ it. report_of it.now ≡ with_child (report_of self.old) (plain_child level message.now (spans_of span) (option_map spans_of render_span))) }
    {
        self.push_plain(level, message, span, render_span)?;
        Ok(self)
    }

    /// Adds a note that points nowhere.
    ///
    /// # Errors
    ///
    /// `AllocError` for want of memory. The call under it, `push_child`, then changes nothing.
    pub fn note(&mut self, msg: &str) -> Result<&mut Self, AllocError>
        ensures same_reference { IfOk result (λ it. it.ghost_name ≡ self.entry.ghost_name) }
        ensures added { IfOk result (λ it. report_of it.now ≡ with_child (report_of self.old) (plain_child Level.Note msg.now nowhere None)) }
    {
        let span = MultiSpan::new(*self.children.allocator());
        self.push_plain(Level::Note, msg, span, None)?;
        Ok(self)
    }

    /// Adds a note that points at these spans.
    ///
    /// # Errors
    ///
    /// `AllocError` for want of memory. The call under it, `push_child`, then changes nothing.
    pub fn span_note(&mut self, sp: MultiSpan, msg: &str) -> Result<&mut Self, AllocError>
        ensures same_reference { IfOk result (λ it. it.ghost_name ≡ self.entry.ghost_name) }
        ensures added { IfOk result (λ it. report_of it.now ≡ with_child (report_of self.old) (plain_child Level.Note msg.now (spans_of sp) None)) }
    {
        self.push_plain(Level::Note, msg, sp, None)?;
        Ok(self)
    }

    /// Adds a warning that points nowhere.
    ///
    /// # Errors
    ///
    /// `AllocError` for want of memory. The call under it, `push_child`, then changes nothing.
    pub fn warn(&mut self, msg: &str) -> Result<&mut Self, AllocError>
        ensures same_reference { IfOk result (λ it. it.ghost_name ≡ self.entry.ghost_name) }
        ensures added { IfOk result (λ it. report_of it.now ≡ with_child (report_of self.old) (plain_child Level.Warning msg.now nowhere None)) }
    {
        let span = MultiSpan::new(*self.children.allocator());
        self.push_plain(Level::Warning, msg, span, None)?;
        Ok(self)
    }

    /// Adds a warning that points at these spans.
    ///
    /// # Errors
    ///
    /// `AllocError` for want of memory. The call under it, `push_child`, then changes nothing.
    pub fn span_warn(&mut self, sp: MultiSpan, msg: &str) -> Result<&mut Self, AllocError>
        ensures same_reference { IfOk result (λ it. it.ghost_name ≡ self.entry.ghost_name) }
        ensures added { IfOk result (λ it. report_of it.now ≡ with_child (report_of self.old) (plain_child Level.Warning msg.now (spans_of sp) None)) }
    {
        self.push_plain(Level::Warning, msg, sp, None)?;
        Ok(self)
    }

    /// Adds a help that points nowhere.
    ///
    /// # Errors
    ///
    /// `AllocError` for want of memory. The call under it, `push_child`, then changes nothing.
    pub fn help(&mut self, msg: &str) -> Result<&mut Self, AllocError>
        ensures same_reference { IfOk result (λ it. it.ghost_name ≡ self.entry.ghost_name) }
        ensures added { IfOk result (λ it. report_of it.now ≡ with_child (report_of self.old) (plain_child Level.Help msg.now nowhere None)) }
    {
        let span = MultiSpan::new(*self.children.allocator());
        self.push_plain(Level::Help, msg, span, None)?;
        Ok(self)
    }

    /// Adds a help that points at these spans.
    ///
    /// # Errors
    ///
    /// `AllocError` for want of memory. The call under it, `push_child`, then changes nothing.
    pub fn span_help(&mut self, sp: MultiSpan, msg: &str) -> Result<&mut Self, AllocError>
        ensures same_reference { IfOk result (λ it. it.ghost_name ≡ self.entry.ghost_name) }
        ensures added { IfOk result (λ it. report_of it.now ≡ with_child (report_of self.old) (plain_child Level.Help msg.now (spans_of sp) None)) }
    {
        self.push_plain(Level::Help, msg, sp, None)?;
        Ok(self)
    }

    /// Adds a note of these pieces.
    ///
    /// # Errors
    ///
    /// `AllocError` for want of memory. The call under it, `push_child`, then changes nothing.
    pub fn highlighted_note(&mut self, msg: Vec<Message>) -> Result<&mut Self, AllocError>
        ensures same_reference { IfOk result (λ it. it.ghost_name ≡ self.entry.ghost_name) }
        ensures added { IfOk result (λ it. report_of it.now ≡ with_child (report_of self.old) (note_of (map piece_of msg.items))) }
    {
        self.push_note(msg)?;
        Ok(self)
    }

    /// From now on it has one primary span, and the text of each old label stands there.
    ///
    /// # Errors
    ///
    /// `AllocError` for want of memory. The call under it, `relabel`, then changes nothing.
    pub fn replace_span_with(&mut self, after: Span) -> Result<&mut Self, AllocError>
        ensures same_reference { IfOk result (λ it. it.ghost_name ≡ self.entry.ghost_name) }
        ensures replaced { IfOk result (λ it. report_of it.now ≡ record (report_of self.old) { span = relabelled (report_of self.old).span after }) }
    {
        self.relabel(after)?;
        Ok(self)
    }

    /// Adds a note that shows what a trait asks of a method.
    ///
    /// # Errors
    ///
    /// `AllocError` for want of memory. The call under it, `push_child`, then changes nothing.
    pub fn note_trait_signature(
        &mut self,
        name: String,
        signature: String,
    ) -> Result<&mut Self, AllocError>
        ensures same_reference { IfOk result (λ it. it.ghost_name ≡ self.entry.ghost_name) }
        ensures added { IfOk result (λ it. report_of it.now ≡ with_child (report_of self.old) (note_of (trait_signature (string_bytes name) (string_bytes signature)))) }
    {
        let alloc = *self.children.allocator();
        let mut pieces = Vec::new(alloc);
        pieces.push(Message(format!(in alloc; "`{name}` from trait: `")?, Style::NoStyle))?;
        pieces.push(Message(signature, Style::Highlight))?;
        pieces.push(Message::plain(alloc, "`")?)?;
        self.push_note(pieces)?;
        Ok(self)
    }

    /// Adds a note that shows, on a line each, what was expected and what was found.
    ///
    /// # Errors
    ///
    /// `AllocError` for want of memory. The call under it, `push_child`, then changes nothing.
    pub fn note_expected_found(
        &mut self,
        label: &str,
        expected: DiagnosticStyledString,
        found: DiagnosticStyledString,
    ) -> Result<&mut Self, AllocError>
        ensures same_reference { IfOk result (λ it. it.ghost_name ≡ self.entry.ghost_name) }
        ensures added { IfOk result (λ it. report_of it.now ≡ with_child (report_of self.old) (note_of (expected_found label.now (parts_of expected) (parts_of found) [] []))) }
    {
        self.note_expected_found_extra(label, expected, found, "", "")
    }

    /// The same, with a text behind each.
    ///
    /// # Errors
    ///
    /// `AllocError` for want of memory. The call under it, `push_child`, then changes nothing.
    pub fn note_expected_found_extra(
        &mut self,
        label: &str,
        expected: DiagnosticStyledString,
        found: DiagnosticStyledString,
        expected_extra: &str,
        found_extra: &str,
    ) -> Result<&mut Self, AllocError>
        ensures same_reference { IfOk result (λ it. it.ghost_name ≡ self.entry.ghost_name) }
        ensures added { IfOk result (λ it. report_of it.now ≡ with_child (report_of self.old) (note_of (expected_found label.now (parts_of expected) (parts_of found) expected_extra.now found_extra.now))) }
    {
        let pieces = expected_and_found(
            *self.children.allocator(),
            label,
            &expected,
            &found,
            expected_extra,
            found_extra,
        )?;
        self.push_note(pieces)?;
        Ok(self)
    }

    /// Adds the notes of another report, and takes over its span and its code.
    ///
    /// # Errors
    ///
    /// `AllocError` for want of memory. The call under it, `push_details`, then changes nothing.
    pub fn copy_details_not_message(&mut self, from: &Diagnostic) -> Result<&mut Self, AllocError>
        ensures same_reference { IfOk result (λ it. it.ghost_name ≡ self.entry.ghost_name) }
        ensures copied { IfOk result (λ it. report_of it.now ≡ with_details (report_of self.old) (report_of from.now)) }
    {
        self.push_details(from)?;
        Ok(self)
    }

    /// Adds a label at a span, as `span_label` does.
    ///
    /// # Errors
    ///
    /// `AllocError` for want of memory. Then nothing has changed.
    pub fn push_label(&mut self, span: Span, label: String) -> Result<(), AllocError>
        ensures added { OnOk result (report_of self.new ≡ with_label (report_of self.old) span (string_bytes label)) }
        ensures kept { OnErr result (report_of self.new ≡ report_of self.old) }
    {
        self.span.push_span_label(span, label)
    }

    /// Adds a note, as `sub` does.
    ///
    /// # Errors
    ///
    /// `AllocError` for want of memory. Then nothing has changed.
    pub fn push_child(&mut self, child: SubDiagnostic) -> Result<(), AllocError>
        ensures added { OnOk result (report_of self.new ≡ with_child (report_of self.old) (child_of child)) }
        ensures kept { OnErr result (report_of self.new ≡ report_of self.old) }
    {
        self.children.push(child)?;
        Ok(())
    }

    /// Moves its labels to one primary span, as `replace_span_with` does.
    ///
    /// # Errors
    ///
    /// `AllocError` for want of memory. Then nothing has changed.
    pub fn relabel(&mut self, after: Span) -> Result<(), AllocError>
        ensures replaced { OnOk result (report_of self.new ≡ record (report_of self.old) { span = relabelled (report_of self.old).span after }) }
        ensures kept { OnErr result (report_of self.new ≡ report_of self.old) }
    {
        let span = self.span.moved_to(*self.children.allocator(), after)?;
        self.span = span;
        Ok(())
    }

    /// Takes over notes, span and code, as `copy_details_not_message` does.
    ///
    /// # Errors
    ///
    /// `AllocError` for want of memory. Then nothing has changed.
    pub fn push_details(&mut self, from: &Diagnostic) -> Result<(), AllocError>
        ensures copied { OnOk result (report_of self.new ≡ with_details (report_of self.old) (report_of from.now)) }
        ensures kept { OnErr result (report_of self.new ≡ report_of self.old) }
    {
        let alloc = *self.children.allocator();
        let span = from.span.try_clone(alloc)?;
        let code = clone_code(alloc, &from.code)?;
        let mut children = clone_children(alloc, &from.children)?;
        self.children.append(&mut children)?;
        self.span = span;
        self.code = code;
        Ok(())
    }

    // A note of one plain message.
    fn push_plain(
        &mut self,
        level: Level,
        message: &str,
        span: MultiSpan,
        render_span: Option<MultiSpan>,
    ) -> Result<(), AllocError>
        ensures added { OnOk result (report_of self.new ≡ with_child (report_of self.old) (plain_child level message.now (spans_of span) (option_map spans_of render_span))) }
        ensures kept { OnErr result (report_of self.new ≡ report_of self.old) }
    {
        let alloc = *self.children.allocator();
        let message = one_plain(alloc, message)?;
        self.push_child(SubDiagnostic {
            level,
            message,
            span,
            render_span,
        })
    }

    // A note of these pieces, that points nowhere.
    pub(super) fn push_note(&mut self, message: Vec<Message>) -> Result<(), AllocError>
        ensures added { OnOk result (report_of self.new ≡ with_child (report_of self.old) (note_of (map piece_of message.items))) }
        ensures kept { OnErr result (report_of self.new ≡ report_of self.old) }
    {
        let span = MultiSpan::new(*self.children.allocator());
        self.push_child(SubDiagnostic {
            level: Level::Note,
            message,
            span,
            render_span: None,
        })
    }
}

// The pieces that show what was expected and what was found.
fn expected_and_found(
    alloc: Global,
    label: &str,
    expected: &DiagnosticStyledString,
    found: &DiagnosticStyledString,
    expected_extra: &str,
    found_extra: &str,
) -> Result<Vec<Message>, AllocError>
    ensures { IfOk result (λ pieces. map piece_of pieces.items ≡ expected_found label.now (parts_of expected.now) (parts_of found.now) expected_extra.now found_extra.now) }
{
    let mut pieces = Vec::new(alloc);
    push_text(alloc, &mut pieces, "expected ", label, " `")?;
    push_parts(alloc, &mut pieces, &expected.0)?;
    push_text(alloc, &mut pieces, "`", expected_extra, "\n")?;
    push_text(alloc, &mut pieces, "   found ", label, " `")?;
    push_parts(alloc, &mut pieces, &found.0)?;
    push_text(alloc, &mut pieces, "", "`", found_extra)?;
    Ok(pieces)
}

// Adds a plain piece of these texts, one after another.
fn push_text(
    alloc: Global,
    pieces: &mut Vec<Message>,
    before: &str,
    text: &str,
    after: &str,
) -> Result<(), AllocError>
    ensures { OnOk result (map piece_of pieces.new.items ≡ map piece_of pieces.old.items ++ plain_piece (before.now ++ text.now ++ after.now) ∷ []) }
{
    pieces.push(Message(format!(in alloc; "{before}{text}{after}")?, Style::NoStyle))?;
    Ok(())
}

// Adds a piece for each part.
fn push_parts(
    alloc: Global,
    pieces: &mut Vec<Message>,
    parts: &[StringPart],
) -> Result<(), AllocError>
    ensures { OnOk result (map piece_of pieces.new.items ≡ map piece_of pieces.old.items ++ map part_piece (map part_of parts.now)) }
{
    for part in parts {
        pieces.push(part.piece(alloc)?)?;
    }
    Ok(())
}
