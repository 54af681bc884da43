//! The meanings of worked trees, computed: each is the contract of a function that does nothing.
#![tactic(auto, unfolding(crate::proofs::Computed::is_utf8, crate::proofs::Computed::chars, crate::proofs::Computed::encode, crate::proofs::Computed::caseless, crate::proofs::Computed::digits))]

pub mod blocks;
pub mod endings;
pub mod footnotes;
pub mod lists;
pub mod media;
pub mod options;
pub mod spans;
pub mod tables;

ghost use Rattle.std.specs.Prelude.{◌≡◌, []};
ghost use Rattle.md_base.specs.Tree.{Empty};
ghost use Rattle.md_meaning.specs.Meaning.{meaning};
ghost use Rattle.md_text.specs.declared.options.CompileOptions.{CompileOptions};

/// The meaning of no nodes, under all options: no text.
pub fn meaning_of_nothing()
    ensures { (options : CompileOptions) → meaning options [] [] Empty ≡ [] }
{}
