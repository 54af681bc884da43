//! The line ending to print.

ghost use Rattle.std.specs.Prelude.{◌≡◌};
ghost use Rattle.md_base.specs.Tree.{Forest, flatten};
ghost use Rattle.md_meaning.specs.Meaning.{ending_at};
ghost use Rattle.md_meaning.specs.Meaning.Finds.{first_ending};
ghost use Rattle.md_tree.specs.Grammar.{IsChecked};

use md_text::CompileOptions;
use md_tree::Checked;

/// The text of the document's first line ending, else the default.
pub(crate) fn ending_of<'a>(checked: &Checked<'a>, options: &'a CompileOptions) -> &'a str
    ensures ending { (document : Forest) → flatten document ≡ checked.now.events
        → result.now ≡ ending_at options.now checked.now.bytes (first_ending document) }
    ensures grammatical { IsChecked checked.now }
{
    match checked.first_ending() {
        Some(index) => checked.text(index),
        None => options.default_line_ending.as_str(),
    }
}
