//! The step at the entry of a node.

ghost use Rattle.std.specs.Prelude.{OnOk};
ghost use Rattle.md_tree.specs.Texts.{EntersAt};
ghost use Rattle.md_printer.specs.Supplies.{Enters};

use crate::columns::columns_at;
use crate::context::Context;
use crate::printer::Printer;
use md_base::Name;
use md_facts::{is_loose_at, rank_at};
use std::alloc::AllocError;

impl<'a> Printer<'a> {
    /// Enters a node.
    ///
    /// # Errors
    ///
    /// Returns an error only if memory runs out.
    #[inline(always)]
    pub fn enter(
        &mut self,
        context: &Context<'a>,
        index: usize,
        name: Name,
    ) -> Result<(), AllocError>
        requires { EntersAt context.now.checked.now.events index name }
        ensures { OnOk result (Enters context.now index name self.old self.new) }
    {
        match name {
            Name::Paragraph => self.enter_paragraph(context.ending),
            Name::ListItem => self.enter_line(context.ending, "<li>"),
            Name::Emphasis => self.enter_span("<em>"),
            Name::Strong => self.enter_span("<strong>"),
            Name::GfmStrikethrough => self.enter_span("<del>"),
            Name::GfmTableCell => self.enter_cell(context.ending),
            Name::GfmTableRow => self.enter_row(context.ending),
            Name::Data
            | Name::CharacterEscapeValue
            | Name::CodeTextData
            | Name::MathTextData
            | Name::ListItemPrefix
            | Name::Label
            | Name::LabelText
            | Name::HeadingAtxText
            | Name::CodeFencedFence
            | Name::GfmFootnoteDefinitionLabelString
            | Name::GfmTableDelimiterCellValue
            | Name::GfmTableDelimiterMarker
            | Name::AutolinkEmail
            | Name::AutolinkProtocol => {
                self.enters();
                Ok(())
            }
            Name::GfmAutolinkLiteralEmail
            | Name::GfmAutolinkLiteralMailto
            | Name::GfmAutolinkLiteralProtocol
            | Name::GfmAutolinkLiteralWww
            | Name::GfmAutolinkLiteralXmpp
            | Name::BlankLineEnding
            | Name::ListItemValue
            | Name::ListItemMarker
            | Name::CharacterReferenceMarker
            | Name::CharacterReferenceMarkerNumeric
            | Name::CharacterReferenceMarkerHexadecimal
            | Name::CodeFlowChunk
            | Name::MathFlowFence
            | Name::MathFlowChunk => {
                self.enters();
                Ok(())
            }
            Name::HtmlFlowData
            | Name::HtmlTextData
            | Name::DefinitionLabelString
            | Name::HeadingAtxSequence
            | Name::HeadingSetextUnderlineSequence
            | Name::GfmTaskListItemValueChecked
            | Name::HardBreakEscape
            | Name::HardBreakTrailing
            | Name::ThematicBreak
            | Name::MdxEsm
            | Name::MdxFlowExpression
            | Name::MdxTextExpression
            | Name::MdxJsxFlowTag
            | Name::MdxJsxTextTag => {
                self.enters();
                Ok(())
            }
            Name::LineEnding => {
                self.marker = b'&';
                Ok(())
            }
            Name::Other(_)
            | Name::BlockQuotePrefix
            | Name::SpaceOrTab
            | Name::CharacterReferenceValue => {
                self.ended = None;
                Ok(())
            }
            Name::BlockQuote => {
                self.enter_line(context.ending, "<blockquote>")?;
                self.push_contained()
            }
            Name::ListUnordered => {
                self.enter_line(context.ending, "<ul>")?;
                self.push_list(is_loose_at(context.checked, index))
            }
            Name::ListOrdered => {
                self.open_list(context, index)?;
                self.push_list(is_loose_at(context.checked, index))
            }
            Name::HeadingAtx => self.enter_heading(context, rank_at(context.checked, index)),
            Name::CodeIndented => self.enter_raw(context.ending, "<pre><code>"),
            Name::CodeFenced => self.enter_raw(context.ending, "<pre><code"),
            Name::MathFlow => {
                self.enter_raw(
                    context.ending,
                    "<pre><code class=\"language-math math-display\"",
                )
            }
            Name::CodeFencedFenceInfo => {
                self.enters();
                self.put(" class=\"language-")
            }
            Name::HtmlFlow => {
                self.need(context.ending)?;
                self.enter_html(context.options.allow_dangerous_html)
            }
            Name::HtmlText => self.enter_html(context.options.allow_dangerous_html),
            Name::GfmTable => {
                self.enter_line(context.ending, "<table>")?;
                self.push_table(columns_at(context.checked, index))
            }
            Name::GfmTableHead => {
                self.enter_line(context.ending, "<thead>")?;
                self.push_head()
            }
            Name::GfmTableBody => {
                self.enters();
                self.put("<tbody>")
            }
            Name::GfmTaskListItemCheck => {
                self.enter_task(context.options.gfm_task_list_item_checkable)
            }
            Name::CodeText => {
                self.enters();
                self.enter_code("<code>")
            }
            Name::MathText => {
                self.enters();
                self.enter_code("<code class=\"language-math math-inline\">")
            }
            Name::Link => {
                self.enters();
                self.enter_label()?;
                self.push_link()
            }
            Name::Image => {
                self.enters();
                self.enter_label()?;
                self.push_image()
            }
            Name::Resource => {
                self.enters();
                self.enter_target()
            }
            Name::Definition => {
                self.enters();
                self.enter_target()?;
                self.push_definition()
            }
            Name::DefinitionDestinationString => {
                self.enters();
                self.enter_destination()
            }
            Name::ResourceDestinationString => {
                self.enters();
                self.enter_destination()
            }
            Name::GfmFootnoteDefinition => {
                self.enters();
                self.capture()?;
                self.push_contained()
            }
            Name::GfmFootnoteCall => {
                self.enters();
                self.forget_resource();
                self.capture()
            }
            Name::HeadingSetextText => {
                self.enters();
                self.capture()
            }
            Name::CodeFencedFenceMeta => {
                self.enters();
                self.capture()
            }
            Name::MathFlowFenceMeta => {
                self.enters();
                self.capture()
            }
            Name::ReferenceString => {
                self.enters();
                self.capture()
            }
            Name::DefinitionTitleString => {
                self.enters();
                self.capture()
            }
            Name::ResourceTitleString => {
                self.enters();
                self.capture()
            }
            Name::GfmTableDelimiterRow => {
                self.enters();
                self.capture()
            }
            Name::GfmFootnoteDefinitionPrefix => {
                self.enters();
                self.capture()
            }
            Name::Frontmatter => {
                self.enters();
                self.capture()
            }
        }
    }
}
