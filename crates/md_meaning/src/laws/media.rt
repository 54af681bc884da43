//! The meanings of worked trees with links and images.

ghost use Rattle.md_meaning.specs.Trees.Media as media;
ghost use Rattle.md_meaning.specs.Trees.{Means, MeansWith};

/// The meaning of first definition.
pub fn meaning_of_first_definition()
    ensures { Means media.first_definition_bytes media.first_definition
        media.first_definition_text }
{}

/// The meaning of image text.
pub fn meaning_of_image_text()
    ensures { Means media.image_text_bytes media.image_text media.image_text_text }
{}

/// The meaning of nested autolink.
pub fn meaning_of_nested_autolink()
    ensures { Means media.nested_autolink_bytes media.nested_autolink media.nested_autolink_text }
{}

/// The meaning of code, a break, a task, strong text, an autolink and a link in the
/// label of an image.
pub fn meaning_of_image_around_other_names()
    ensures { Means media.image_around_other_names_bytes media.image_around_other_names
        media.image_around_other_names_text }
{}

/// The meaning of a reference beside a label.
pub fn meaning_of_reference_beside_a_label()
    ensures { Means media.reference_beside_a_label_bytes media.reference_beside_a_label
        media.reference_beside_a_label_text }
{}

/// The meaning of empty title.
pub fn meaning_of_empty_title()
    ensures { Means media.empty_title_bytes media.empty_title media.empty_title_text }
{}

/// The meaning of protocols that are not permitted.
pub fn meaning_of_protocols_that_are_not_permitted()
    ensures { Means media.protocols_that_are_not_permitted_bytes
        media.protocols_that_are_not_permitted
        media.protocols_that_are_not_permitted_text }
{}

/// The meaning of autolinks: of mail, literals, one in a link, and one whose protocol
/// is not permitted.
pub fn meaning_of_literal_autolinks()
    ensures { Means media.literal_autolinks_bytes media.literal_autolinks
        media.literal_autolinks_text }
{}

/// The meaning of links and images of any protocol, if the options allow it.
pub fn meaning_of_any_protocol()
    ensures { MeansWith media.any_protocol_options media.any_protocol_bytes media.any_protocol
        media.any_protocol_text }
{}

/// The meaning of a definition with `&` in its destination, which is escaped once.
pub fn meaning_of_ampersand_in_a_destination()
    ensures { Means media.ampersand_in_a_destination_bytes media.ampersand_in_a_destination
        media.ampersand_in_a_destination_text }
{}

/// The meaning of a label with CR in it, which is compared as a space.
pub fn meaning_of_carriage_return_in_a_label()
    ensures { Means media.carriage_return_in_a_label_bytes media.carriage_return_in_a_label
        media.carriage_return_in_a_label_text }
{}
