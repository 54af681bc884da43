//! The surroundings of a node: facts that its ancestors decide.

/// The innermost block quote, list or footnote definition that contains a node.
#[derive(Clone, Copy)]
pub enum Container {
    /// No container.
    Nothing,
    /// A list whose paragraphs are printed without tags.
    TightList,
    /// Any other container.
    Another,
}

/// What a node inherits from its ancestors.
#[derive(Clone, Copy)]
pub struct Surroundings {
    /// The innermost container.
    pub container: Container,
    /// The node has no parent.
    pub is_outermost: bool,
    /// An image contains it.
    pub in_image: bool,
    /// A link contains it.
    pub in_link: bool,
    /// A table contains it.
    pub in_table: bool,
    /// A table's head contains it.
    pub in_head: bool,
    /// Code or math in a text contains it.
    pub in_code: bool,
    /// A definition contains it.
    pub in_definition: bool,
    /// Special characters are escaped.
    pub is_escaping: bool,
}
