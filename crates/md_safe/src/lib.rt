//! Safe options make safe output, and the HTML content model holds in it: facts about the meaning
//! itself (`laws`). Also what a browser does with the HTML that is written: the HTML Standard's
//! tokenizer and tree construction and the URL Standard's schemes, and laws about them over the
//! HTML grammar: about a text (`tokens`), about a text between two others, as in a template
//! (`embedding`), and about the tree that is built (`trees`).
#![tactic(auto)]

pub mod embedding;
pub mod laws;
pub mod tokens;
pub mod trees;
