//! Whether a link contains a link, for events as C passes them.

ghost use Rattle.std.specs.Prelude.{◌≡◌, OnOk, IfOk, IfErr, false};
ghost use Rattle.md_base.specs.Tree.{Forest, flatten};
ghost use Rattle.md_safe.specs.Links.{has_nested_link};
ghost use Rattle.md_abi.specs.Standing.{StandFor};
ghost use Rattle.md_abi.specs.Events.{event_of};
ghost use Rattle.md_abi.specs.Failures.{IsEventFault};
ghost use Rattle.md_abi.specs.Links.{TellsOfLinks, AreRead};

use crate::answer::{Answer, NESTED, OK, about, answer_to};
use crate::event::{CEvent, read_c_events};
use crate::failure::Failure;
use md_html::has_nested_link;
use std::alloc::Global;

/// The answer that says whether a link contains a link.
pub fn answer_to_links(alloc: Global, events: &[CEvent]) -> Answer
    ensures { TellsOfLinks events.now result }
{
    match nested_link_in(alloc, events) {
        Ok(true) => about(NESTED, 0),
        Ok(false) => about(OK, 0),
        Err(failure) => answer_to(&failure),
    }
}

/// Whether a link contains a link in the document that events encode.
fn nested_link_in(alloc: Global, events: &[CEvent]) -> Result<bool, Failure>
    ensures read { OnOk result (AreRead events.now) }
    ensures ok { IfOk result (λ nested. (document : Forest)
        → StandFor event_of events.now (flatten document)
        → nested ≡ has_nested_link false document) }
    ensures err { IfErr result (IsEventFault events.now) }
{
    let read = read_c_events(alloc, events)?;
    Ok(has_nested_link(read.as_slice()))
}
