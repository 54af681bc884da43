//! The settings of the arguments.

use md_markdown::{DocumentHtml, MarkdownOptions};
use std::env;
use std::io::{self, Error, ErrorKind};
use std::rt::Env;

/// The settings of the arguments.
#[derive(Drop)]
pub(crate) struct Settings {
    pub(crate) options: MarkdownOptions,
    /// Whether the input is a sequence of documents.
    pub(crate) has_frames: bool,
    /// Whether HTML that authors write is kept.
    pub(crate) keeps_html: bool,
}

/// Reads the arguments.
///
/// # Errors
///
/// Returns an error if an argument is no option, or memory runs out.
pub(crate) fn read_settings<R: Env + AllocGlobal>(rt: &R) -> io::Result<Settings> {
    let mut settings = Settings {
        options: MarkdownOptions::default(),
        has_frames: false,
        keeps_html: false,
    };
    for word in env::args(rt)?.skip(1) {
        set(rt, &mut settings, word.as_str())?;
    }
    Ok(settings)
}

/// Applies an argument.
fn set<R: AllocGlobal>(rt: &R, settings: &mut Settings, word: &str) -> io::Result<()> {
    match word {
        "--frames" => settings.has_frames = true,
        "--math" => settings.options.math = true,
        "--front-matter" => settings.options.front_matter = true,
        "--no-footnotes" => settings.options.footnotes = false,
        "--no-tables" => settings.options.tables = false,
        "--no-bare-links" => settings.options.bare_links = false,
        "--hard-breaks" => settings.options.hard_breaks = true,
        "--number-ids" => settings.options.number_ids = true,
        "--html=text" => settings.options.html = DocumentHtml::Text,
        "--html=left-out" => settings.options.html = DocumentHtml::LeftOut,
        "--html=without-comments" => settings.options.html = DocumentHtml::WithoutComments,
        "--html=kept" => keep_html(settings, DocumentHtml::LeftOut),
        "--html=kept-or-text" => keep_html(settings, DocumentHtml::WithoutComments),
        _ => return set_text(rt, settings, word),
    }
    Ok(())
}

/// Keeps HTML that authors write. `others` is what is done with all other HTML.
fn keep_html(settings: &mut Settings, others: DocumentHtml) {
    settings.keeps_html = true;
    settings.options.html = others;
}

/// Applies an argument with a text.
fn set_text<R: AllocGlobal>(rt: &R, settings: &mut Settings, word: &str) -> io::Result<()> {
    if let Some(prefix) = word.strip_prefix("--footnote-prefix=") {
        settings.options.footnote_prefix = Some(String::from_str(rt.alloc(), prefix)?);
    } else if let Some(base) = word.strip_prefix("--base=") {
        settings.options.base = Some(String::from_str(rt.alloc(), base)?);
    } else {
        return Err(Error::from(ErrorKind::InvalidInput));
    }
    Ok(())
}
