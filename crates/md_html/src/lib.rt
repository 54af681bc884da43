//! Compiles Markdown events to HTML.
#![tactic(auto)]

mod compiler;
mod definitions;
mod ending;
pub mod laws;
mod rendering;
mod rendering_within;
mod reuse;
mod running;
mod safe_html;
mod unnested;
mod within;
mod work;

pub use compiler::{Counted, compile, compile_checked, compile_counted};
pub use md_base::{
    AlignKind, Event, GFM_HTML_TAGFILTER_NAMES, Kind, Name, Point, Position, SAFE_PROTOCOL_HREF,
    SAFE_PROTOCOL_SRC, Slice, decode_character_reference, is_same_name, normalize_identifier,
};
pub use md_text::{
    CompileOptions, LineEnding, LineEndingError, encode, gfm_tagfilter, sanitize,
    sanitize_with_protocols,
};
pub use md_tree::{
    Checked, CompileError, Rule, check, gfm_table_align, list_item_loose, list_loose,
};
pub use reuse::reuse_of;
pub use safe_html::{SafeError, SafeHtml, compile_safe};
pub use unnested::{UnnestedError, compile_unnested, has_nested_link};
pub use within::{
    Limits, SafeWithinError, WithinError, compile_safe_measured, compile_safe_within,
    compile_within,
};
pub use work::{MeasuredEvents, depth_of, is_over, work_of};
