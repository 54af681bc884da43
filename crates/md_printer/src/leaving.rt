//! The step at the exit of a node.

ghost use Rattle.std.specs.Prelude.{OnOk, ◌<◌, ◌^◌};
ghost use Rattle.md_tree.specs.Texts.{ExitsAt};
ghost use Rattle.md_printer.specs.Supplies.{Leaves};

use crate::context::Context;
use crate::printer::Printer;
use md_base::Name;
use md_facts::{contributing_left_at, is_last_at, rank_left_at, text_left_at};
use std::alloc::AllocError;

impl<'a> Printer<'a> {
    /// Leaves a node.
    ///
    /// # Errors
    ///
    /// Returns an error only if memory runs out.
    pub fn exit(
        &mut self,
        context: &Context<'a>,
        index: usize,
        name: Name,
    ) -> Result<(), AllocError>
        requires there { ExitsAt context.now.checked.now.events index name }
        requires cells { self.old.cells < 2 ^ 63 }
        requires fences { self.old.fences < 2 ^ 63 }
        ensures { OnOk result (Leaves context.now index name self.old self.new) }
    {
        match name {
            Name::Data => self.leave_text(text_left_at(context.checked, index), Name::Data),
            Name::LineEnding => self.leave_line_ending(text_left_at(context.checked, index)),
            Name::Paragraph => self.leave_paragraph(),
            Name::ListItem => {
                self.leave_item(context.ending, contributing_left_at(context.checked, index))
            }
            Name::Emphasis => self.leave_span("</em>", Name::Emphasis),
            Name::Strong => self.leave_span("</strong>", Name::Strong),
            Name::GfmStrikethrough => self.leave_span("</del>", Name::GfmStrikethrough),
            Name::GfmTableCell => self.leave_cell(),
            Name::GfmTableRow => self.leave_row(context.ending),
            Name::CodeTextData => {
                self.leave_text(text_left_at(context.checked, index), Name::CodeTextData)
            }
            Name::CharacterEscapeValue => {
                self.leave_text(
                    text_left_at(context.checked, index),
                    Name::CharacterEscapeValue,
                )
            }
            Name::Other(_) | Name::BlockQuotePrefix | Name::SpaceOrTab => {
                self.ended = Some(name);
                Ok(())
            }
            Name::ListItemPrefix
            | Name::LabelText
            | Name::HeadingAtxText
            | Name::GfmFootnoteDefinitionLabelString
            | Name::GfmTableDelimiterCellValue
            | Name::GfmTableDelimiterMarker
            | Name::ListItemValue
            | Name::ListItemMarker
            | Name::CharacterReferenceMarker
            | Name::DefinitionLabelString
            | Name::HeadingAtxSequence
            | Name::MdxEsm
            | Name::MdxFlowExpression
            | Name::MdxTextExpression
            | Name::MdxJsxFlowTag
            | Name::MdxJsxTextTag => {
                self.ended = Some(name);
                self.marker = b'&';
                Ok(())
            }
            Name::BlankLineEnding => {
                self.leave_blank(context.ending, is_last_at(context.checked, index))
            }
            Name::BlockQuote => self.leave_quote(context.ending),
            Name::ListOrdered => self.leave_list(context.ending, "</ol>", Name::ListOrdered),
            Name::ListUnordered => self.leave_list(context.ending, "</ul>", Name::ListUnordered),
            Name::HeadingAtx => {
                self.leave_heading(context.alloc, rank_left_at(context.checked, index))
            }
            Name::HeadingSetextText => self.leave_setext_text(),
            Name::HeadingSetextUnderlineSequence => self.leave_underline(context, index),
            Name::CodeIndented => self.leave_indented(context.ending),
            Name::CodeFenced => self.leave_fenced(context.ending, Name::CodeFenced),
            Name::MathFlow => self.leave_fenced(context.ending, Name::MathFlow),
            Name::CodeFencedFence => self.leave_fence(Name::CodeFencedFence),
            Name::MathFlowFence => self.leave_fence(Name::MathFlowFence),
            Name::CodeFencedFenceInfo => {
                self.ends(Name::CodeFencedFenceInfo);
                self.put("\"")
            }
            Name::CodeFlowChunk => self.leave_chunk(context, index, Name::CodeFlowChunk),
            Name::MathFlowChunk => self.leave_chunk(context, index, Name::MathFlowChunk),
            Name::ThematicBreak => self.leave_line(context.ending, "<hr />", Name::ThematicBreak),
            Name::GfmTable => {
                self.pop_scope();
                self.leave_line(context.ending, "</table>", Name::GfmTable)
            }
            Name::GfmTableHead => {
                self.pop_scope();
                self.leave_line(context.ending, "</thead>", Name::GfmTableHead)
            }
            Name::GfmTableBody => self.leave_line(context.ending, "</tbody>", Name::GfmTableBody),
            Name::MathTextData => {
                self.leave_text(text_left_at(context.checked, index), Name::MathTextData)
            }
            Name::CharacterReferenceValue => self.leave_reference(context, index),
            Name::HtmlFlowData => self.leave_html(context, index, Name::HtmlFlowData),
            Name::HtmlTextData => self.leave_html(context, index, Name::HtmlTextData),
            Name::CodeText => self.leave_code(context.alloc, Name::CodeText),
            Name::MathText => self.leave_code(context.alloc, Name::MathText),
            Name::HardBreakEscape => self.leave_break(Name::HardBreakEscape),
            Name::HardBreakTrailing => self.leave_break(Name::HardBreakTrailing),
            Name::GfmTaskListItemCheck => self.leave_span("/>", Name::GfmTaskListItemCheck),
            Name::GfmTaskListItemValueChecked => {
                self.leave_span("checked=\"\" ", Name::GfmTaskListItemValueChecked)
            }
            Name::AutolinkEmail => {
                self.leave_autolink(context, index, "mailto:", Name::AutolinkEmail)
            }
            Name::AutolinkProtocol => {
                self.leave_autolink(context, index, "", Name::AutolinkProtocol)
            }
            Name::GfmAutolinkLiteralEmail => self.leave_mail(context, index),
            Name::GfmAutolinkLiteralWww => {
                self.leave_literal(context, index, "http://", Name::GfmAutolinkLiteralWww)
            }
            Name::GfmAutolinkLiteralMailto => {
                self.leave_literal(context, index, "", Name::GfmAutolinkLiteralMailto)
            }
            Name::GfmAutolinkLiteralProtocol => {
                self.leave_literal(context, index, "", Name::GfmAutolinkLiteralProtocol)
            }
            Name::GfmAutolinkLiteralXmpp => {
                self.leave_literal(context, index, "", Name::GfmAutolinkLiteralXmpp)
            }
            Name::Link => self.leave_link(context, index),
            Name::Image => self.leave_image(context, index),
            Name::Label => {
                self.forget_resource();
                self.ends(Name::Label);
                Ok(())
            }
            Name::Resource => self.leave_resource(),
            Name::DefinitionDestinationString => {
                self.leave_destination(Name::DefinitionDestinationString)
            }
            Name::ResourceDestinationString => {
                self.leave_destination(Name::ResourceDestinationString)
            }
            Name::DefinitionTitleString => self.leave_title(Name::DefinitionTitleString),
            Name::ResourceTitleString => self.leave_title(Name::ResourceTitleString),
            Name::GfmFootnoteCall => self.leave_call(context, index),
            Name::GfmFootnoteDefinition => self.leave_footnote(context, index),
            Name::Definition => {
                self.pop_scope();
                self.leave_dropped(Name::Definition)
            }
            Name::Frontmatter => {
                self.leave_front();
                Ok(())
            }
            Name::HtmlFlow => {
                self.pop_scope();
                self.ends(Name::HtmlFlow);
                Ok(())
            }
            Name::HtmlText => {
                self.pop_scope();
                self.ends(Name::HtmlText);
                Ok(())
            }
            Name::CodeFencedFenceMeta => {
                self.ended = Some(Name::CodeFencedFenceMeta);
                self.marker = b'&';
                self.discard();
                Ok(())
            }
            Name::MathFlowFenceMeta => {
                self.ended = Some(Name::MathFlowFenceMeta);
                self.marker = b'&';
                self.discard();
                Ok(())
            }
            Name::ReferenceString => {
                self.ended = Some(Name::ReferenceString);
                self.marker = b'&';
                self.discard();
                Ok(())
            }
            Name::GfmTableDelimiterRow => {
                self.ended = Some(Name::GfmTableDelimiterRow);
                self.marker = b'&';
                self.discard();
                Ok(())
            }
            Name::GfmFootnoteDefinitionPrefix => {
                self.ended = Some(Name::GfmFootnoteDefinitionPrefix);
                self.marker = b'&';
                self.discard();
                Ok(())
            }
            Name::CharacterReferenceMarkerNumeric => {
                self.ended = Some(Name::CharacterReferenceMarkerNumeric);
                self.marker = b'#';
                Ok(())
            }
            Name::CharacterReferenceMarkerHexadecimal => {
                self.ended = Some(Name::CharacterReferenceMarkerHexadecimal);
                self.marker = b'x';
                Ok(())
            }
        }
    }
}
