//! Whether a link contains a link, decided event by event.

ghost use Rattle.std.specs.Prelude.{◌≡◌, ◌<◌, ◌^◌, ◌||◌, false};
ghost use Rattle.md_safe.specs.Links.{prints_link};
ghost use Rattle.md_measure.specs.Nesting.{is_nested, is_link, is_image, link_after, images_after};
ghost use Rattle.md_measure.specs.Nesting.{bears_on_links};

use md_base::{Event, Kind, Name};

/// The open links and images, and whether a link contained a link so far.
#[derive(Clone, Copy)]
pub struct Links {
    /// Whether a link is open that isn't in an image. After the end of a link in a link it is
    /// false, but `nested` is true by then.
    pub in_link: bool,
    /// How many images are open.
    pub images: usize,
    /// Whether a link began in a link, and neither in an image.
    pub nested: bool,
}

impl Links {
    /// The state before any event.
    pub fn new() -> Links
        ensures in_link { result.in_link ≡ false }
        ensures images { result.images ≡ 0 }
        ensures nested { result.nested ≡ false }
    {
        Links {
            in_link: false,
            images: 0,
            nested: false,
        }
    }

    /// Follows one more event.
    #[inline(always)]
    pub fn note(&mut self, event: &Event)
        requires { self.old.images < 2 ^ 63 }
        ensures in_link { self.new.in_link
            ≡ link_after self.old.in_link self.old.images event.now }
        ensures images { self.new.images ≡ images_after self.old.images event.now }
        ensures nested { self.new.nested
            ≡ self.old.nested || is_nested self.old.in_link self.old.images event.now }
    {
        if bears_on_links(event.name) {
            *self = self.after_link(event);
        }
    }

    /// The state after an event of a link or of an image.
    #[inline(never)]
    fn after_link(self, event: &Event) -> Links
        requires { self.images < 2 ^ 63 }
        ensures in_link { result.in_link ≡ link_after self.in_link self.images event.now }
        ensures images { result.images ≡ images_after self.images event.now }
        ensures nested { result.nested
            ≡ self.nested || is_nested self.in_link self.images event.now }
    {
        Links {
            in_link: link_after(self.in_link, self.images, event),
            images: images_after(self.images, event),
            nested: self.nested || is_nested(self.in_link, self.images, event),
        }
    }
}

/// Whether a name prints a link, or is that of an image.
#[inline(always)]
fn bears_on_links(name: Name) -> bool
    ensures { result ≡ bears_on_links name }
{
    matches!(
        name,
        Name::Link
            | Name::Image
            | Name::AutolinkEmail
            | Name::AutolinkProtocol
            | Name::GfmFootnoteCall
    )
}

/// Whether an event begins a link in a link, outside images.
#[inline(always)]
fn is_nested(in_link: bool, images: usize, event: &Event) -> bool
    ensures { result ≡ is_nested in_link images event.now }
{
    match event.kind {
        Kind::Enter => images == 0 && in_link && prints_link(event.name),
        Kind::Exit => false,
    }
}

/// Whether the events after an event are in a link, outside images.
#[inline(always)]
fn link_after(in_link: bool, images: usize, event: &Event) -> bool
    ensures { result ≡ link_after in_link images event.now }
{
    if images == 0 && is_link(event.name) {
        return matches!(event.kind, Kind::Enter);
    }
    in_link
}

/// How many images contain the events after an event.
#[inline(always)]
fn images_after(images: usize, event: &Event) -> usize
    requires { images < 2 ^ 63 }
    ensures { result ≡ images_after images event.now }
{
    if !is_image(event.name) {
        return images;
    }
    match event.kind {
        Kind::Enter => images + 1,
        Kind::Exit => images.saturating_sub(1),
    }
}

/// Whether a name prints a link except in images.
#[inline(always)]
fn prints_link(name: Name) -> bool
    ensures { result ≡ prints_link name }
{
    matches!(
        name,
        Name::Link | Name::AutolinkEmail | Name::AutolinkProtocol | Name::GfmFootnoteCall
    )
}

#[inline(always)]
fn is_link(name: Name) -> bool
    ensures { result ≡ is_link name }
{
    matches!(name, Name::Link)
}

#[inline(always)]
fn is_image(name: Name) -> bool
    ensures { result ≡ is_image name }
{
    matches!(name, Name::Image)
}
