//! Whether the HTML of events is what authors may write.

ghost use Rattle.std.specs.Prelude.{◌≡◌, ◌∷◌, IfSome, IsTrue, List};
ghost use Rattle.md_base.specs.declared.event.Event.{Event};
ghost use Rattle.md_kept.specs.Pieces.{ArePieces, is_html_data};
ghost use Rattle.md_reader.specs.Pieces.{IsAuthorsPiece};

use md_base::{Event, Kind, Name, SAFE_PROTOCOL_HREF, SAFE_PROTOCOL_SRC};
use md_reader::{Protocols, is_authors_piece};

/// Whether each HTML of events is a piece that authors may write, and these pieces are the bytes
/// from an index on.
///
/// # Examples
///
/// ```
/// let kept = keep(alloc, &events, text, text.len(), DocumentHtml::Text)?;
/// whole.extend_from_slice(kept.pieces.as_bytes())?;
/// assert!(are_pieces(kept.events.as_slice(), whole.as_slice(), text.len()));
/// ```
pub fn are_pieces(events: &[Event], bytes: &[u8], from: usize) -> bool
    ensures { IsTrue result → ArePieces bytes.now from events.now }
{
    let mut at = from;
    let mut rest = events;
    'events: while let Some((event, following)) = rest.split_first() {
        match past_event(event, bytes, at) {
            Some(next) => at = next,
            None => return false,
        }
        rest = following;
    }
    at == bytes.len()
}

/// The index after an event's piece, if the next piece begins at this index.
fn past_event(event: &Event, bytes: &[u8], at: usize) -> Option<usize>
    ensures { IfSome result (λ next. (rest : List Event)
        → ArePieces bytes.now next rest → ArePieces bytes.now at (event.now ∷ rest)) }
{
    if !is_html_data(event.name) {
        return Some(at);
    }
    let index = event.point.index;
    if event.point.vs != 0 || index < at || index > bytes.len() {
        return None;
    }
    match event.kind {
        Kind::Enter => if index == at { Some(at) } else { None },
        Kind::Exit => if is_piece(&bytes[at..index]) {
            Some(index)
        } else {
            None
        },
    }
}

/// Whether a name is of a node that is HTML as it stands.
fn is_html_data(name: Name) -> bool
    ensures { result ≡ is_html_data name }
{
    matches!(name, Name::HtmlFlowData | Name::HtmlTextData)
}

/// Whether a text is a piece that authors may write, with the protocols that are permitted.
fn is_piece(text: &[u8]) -> bool
    ensures { IsTrue result → IsAuthorsPiece text.now }
{
    let protocols = Protocols {
        links: &SAFE_PROTOCOL_HREF,
        images: &SAFE_PROTOCOL_SRC,
    };
    is_authors_piece(text, protocols)
}
