//! Front matter.

use md_blocks::front_matter;

/// Returns the front matter of a Markdown document: the text between the two lines of `---` at its
/// beginning, with the line ending of each of its lines, or `None` if it has none. A byte order
/// mark before it is skipped.
///
/// # Examples
///
/// ```
/// assert_eq!(front_matter_of("---\na: b\n---\n# c\n"), Some("a: b\n"));
/// ```
pub fn front_matter_of(text: &str) -> Option<&str> {
    let found = front_matter(text.as_bytes())?;
    text.get(found.text.start..found.text.end)
}
