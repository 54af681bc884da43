//! The class of each name in the grammar.

ghost use Rattle.std.specs.Prelude.{◌≡◌};
ghost use Rattle.md_pattern.specs.Standing.{standing_of};

use crate::kinds::{Reading, Role, Standing};
use md_base::Name;

/// The class of this name.
#[inline(always)]
pub fn standing_of(name: Name) -> Standing
    ensures { result ≡ standing_of name }
{
    // A reading that has the same name as a symbol needs the prefix `Reading::`.
    use crate::kinds::Reading::{
        Call, Definition, FootnoteDefinition, Free, Holder, Identifier, Mark, Media, Number,
        Underline, Value,
    };
    use crate::kinds::Standing::{Mdx, Solid, Space, Through};
    use crate::kinds::Symbol::*;

    match name {
        Name::AutolinkEmail => Solid(Span, Role::Empty, Reading::Text),
        Name::AutolinkProtocol => Solid(Span, Role::Empty, Reading::Text),
        Name::GfmAutolinkLiteralEmail => Solid(Span, Role::Empty, Reading::Text),
        Name::GfmAutolinkLiteralMailto => Solid(Span, Role::Empty, Reading::Text),
        Name::GfmAutolinkLiteralProtocol => Solid(Span, Role::Empty, Reading::Text),
        Name::GfmAutolinkLiteralWww => Solid(Span, Role::Empty, Reading::Text),
        Name::GfmAutolinkLiteralXmpp => Solid(Span, Role::Empty, Reading::Text),
        Name::LineEnding => Solid(LineEnding, Role::Childless, Reading::LineEnding),
        Name::BlankLineEnding => Solid(BlankLineEnding, Role::Childless, Reading::LineEnding),
        Name::BlockQuote => Solid(Block, Role::Flow, Free),
        Name::BlockQuotePrefix => Through,
        Name::ListOrdered => Solid(Block, Role::OrderedList, Free),
        Name::ListUnordered => Solid(Block, Role::UnorderedList, Free),
        Name::ListItem => Solid(ListItem, Role::Item, Free),
        Name::ListItemPrefix => Solid(ListItemPrefix, Role::Prefix, Free),
        Name::ListItemValue => Solid(ListItemValue, Role::Empty, Number),
        Name::ListItemMarker => Solid(ListItemMarker, Role::Empty, Free),
        Name::GfmFootnoteDefinition => Solid(Block, Role::FootnoteDefinition, FootnoteDefinition),
        Name::GfmFootnoteDefinitionPrefix => Solid(FootnotePrefix, Role::FootnotePrefix, Holder),
        Name::GfmFootnoteDefinitionLabelString => Solid(FootnoteLabel, Role::String, Identifier),
        Name::Data => Solid(Text, Role::Empty, Reading::Text),
        Name::CharacterEscapeValue => Solid(Text, Role::Empty, Reading::Text),
        Name::CharacterReferenceMarker => Solid(ReferenceMarker, Role::Empty, Free),
        Name::CharacterReferenceMarkerNumeric => Solid(ReferenceNumeric, Role::Empty, Free),
        Name::CharacterReferenceMarkerHexadecimal => Solid(ReferenceHexadecimal, Role::Empty, Free),
        Name::CharacterReferenceValue => Solid(ReferenceValue, Role::Empty, Value),
        Name::CodeIndented => Solid(Block, Role::CodeIndented, Free),
        Name::CodeFenced => Solid(Block, Role::CodeFenced, Free),
        Name::CodeFencedFence => Solid(CodeFence, Role::CodeFence, Free),
        Name::CodeFencedFenceInfo => Solid(CodeInfo, Role::String, Free),
        Name::CodeFencedFenceMeta => Solid(CodeMeta, Role::String, Free),
        Name::CodeFlowChunk => Solid(CodeFlowChunk, Role::Empty, Reading::Text),
        Name::MathFlow => Solid(Block, Role::Math, Free),
        Name::MathFlowFence => Solid(MathFence, Role::MathFence, Free),
        Name::MathFlowFenceMeta => Solid(MathMeta, Role::String, Free),
        Name::MathFlowChunk => Solid(MathFlowChunk, Role::Empty, Reading::Text),
        Name::CodeText => Solid(Span, Role::CodeText, Free),
        Name::CodeTextData => Solid(CodeTextData, Role::Empty, Reading::Text),
        Name::MathText => Solid(Span, Role::MathText, Free),
        Name::MathTextData => Solid(MathTextData, Role::Empty, Reading::Text),
        Name::HtmlFlow => Solid(Block, Role::HtmlFlow, Free),
        Name::HtmlFlowData => Solid(HtmlFlowData, Role::Empty, Reading::Text),
        Name::HtmlText => Solid(Span, Role::HtmlText, Free),
        Name::HtmlTextData => Solid(HtmlTextData, Role::Empty, Reading::Text),
        Name::Definition => Solid(Block, Role::Definition, Definition),
        Name::DefinitionLabelString => Solid(DefinitionLabel, Role::String, Identifier),
        Name::DefinitionDestinationString => Solid(DefinitionDestination, Role::String, Free),
        Name::DefinitionTitleString => Solid(DefinitionTitle, Role::String, Free),
        Name::Link => Solid(Span, Role::Media, Media),
        Name::Image => Solid(Span, Role::Media, Media),
        Name::Label => Solid(Label, Role::Label, Holder),
        Name::LabelText => Solid(LabelText, Role::Phrasing, Identifier),
        Name::Resource => Solid(Resource, Role::Resource, Reading::Resource),
        Name::ResourceDestinationString => Solid(ResourceDestination, Role::String, Free),
        Name::ResourceTitleString => Solid(ResourceTitle, Role::String, Free),
        Name::ReferenceString => Solid(ReferenceString, Role::String, Identifier),
        Name::GfmFootnoteCall => Solid(Span, Role::FootnoteCall, Call),
        Name::HeadingAtx => Solid(Block, Role::Heading, Free),
        Name::HeadingAtxSequence => Solid(HeadingSequence, Role::Empty, Mark),
        Name::HeadingAtxText => Solid(HeadingText, Role::Phrasing, Free),
        Name::HeadingSetextText => Solid(SetextText, Role::Phrasing, Free),
        Name::HeadingSetextUnderlineSequence => Solid(SetextUnderline, Role::Empty, Underline),
        Name::GfmTable => Solid(Block, Role::Table, Free),
        Name::GfmTableHead => Solid(TableHead, Role::TableHead, Free),
        Name::GfmTableBody => Solid(TableBody, Role::TableBody, Free),
        Name::GfmTableRow => Solid(TableRow, Role::TableRow, Free),
        Name::GfmTableCell => Solid(TableCell, Role::Phrasing, Free),
        Name::GfmTableDelimiterRow => Solid(TableDelimiterRow, Role::TableDelimiterRow, Free),
        Name::GfmTableDelimiterCellValue => Solid(
            TableDelimiterValue,
            Role::TableDelimiterValue,
            Free,
        ),
        Name::GfmTableDelimiterMarker => Solid(TableDelimiterMarker, Role::Empty, Free),
        Name::Emphasis => Solid(Span, Role::Phrasing, Free),
        Name::Strong => Solid(Span, Role::Phrasing, Free),
        Name::GfmStrikethrough => Solid(Span, Role::Phrasing, Free),
        Name::GfmTaskListItemCheck => Solid(Span, Role::TaskCheck, Free),
        Name::GfmTaskListItemValueChecked => Solid(TaskChecked, Role::Empty, Free),
        Name::HardBreakEscape => Solid(Span, Role::Empty, Free),
        Name::HardBreakTrailing => Solid(Span, Role::Empty, Free),
        Name::Paragraph => Solid(Block, Role::Phrasing, Free),
        Name::ThematicBreak => Solid(Block, Role::Empty, Free),
        Name::Frontmatter => Solid(Block, Role::Frontmatter, Free),
        Name::SpaceOrTab => Space,
        Name::MdxEsm => Mdx,
        Name::MdxFlowExpression => Mdx,
        Name::MdxTextExpression => Mdx,
        Name::MdxJsxFlowTag => Mdx,
        Name::MdxJsxTextTag => Mdx,
        Name::Other(_) => Through,
    }
}
