//! The columns of a table, as input for the steps.

ghost use Rattle.std.specs.Prelude.{◌≡◌};
ghost use Rattle.md_base.specs.declared.event.Name.TheVariants as name;
ghost use Rattle.md_tree.specs.Texts.{EntersAt};
ghost use Rattle.md_facts.specs.NodeFacts.{IsNoticedAt};
ghost use Rattle.md_steps.specs.Run.{Noticed};

use md_base::AlignKind;
use md_tree::Checked;

/// The alignments of the columns of the table that the event at an index enters.
pub(crate) fn columns_at<'a>(checked: &'a Checked, index: usize) -> &'a [AlignKind]
    requires { EntersAt checked.now.events index name.GfmTable }
    ensures { (one : Noticed) → IsNoticedAt checked.now index one → result.now ≡ one.facts.columns }
{
    checked.columns(index)
}
