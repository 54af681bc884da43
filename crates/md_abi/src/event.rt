//! Events as C passes them.

ghost use Rattle.std.specs.Prelude.{◌≡◌, ◌++◌, [], ◌∷◌, IfOk, IfErr, OnOk};
ghost use Rattle.md_abi.specs.Events.{event_of, kind_of};
ghost use Rattle.md_abi.specs.Standing.{StandFor};
ghost use Rattle.md_abi.specs.Failures.{IsEventFault};

use crate::failure::Failure;
use crate::names::name_under;
use md_base::{Event, Kind, Point};
use std::alloc::{AllocError, Global};

/// An event.
#[repr(C)]
#[derive(Clone, Copy)]
pub struct CEvent {
    /// How many bytes of the document precede it.
    pub index: usize,
    /// The number of the name that it enters or exits.
    pub name: u16,
    /// The number of `Other`, for the name that no other number encodes.
    pub other: u16,
    /// 1 for entering a node, 2 for exiting one.
    pub kind: u8,
    /// How many columns of a tab precede the point, from 0 to 4.
    pub columns: u8,
}

/// The events that a slice encodes.
///
/// # Errors
///
/// Reports the index of the first invalid event, or that memory ran out.
pub(crate) fn read_c_events(alloc: Global, events: &[CEvent]) -> Result<Vec<Event>, Failure>
    ensures ok { IfOk result (λ read. StandFor event_of events.now read.items) }
    ensures err { IfErr result (IsEventFault events.now) }
{
    let mut read = Vec::with_capacity(alloc, events.len())?;
    for event in events {
        match read_c_event(event) {
            Some(event) => add_event(&mut read, event)?,
            None => return Err(Failure::Event(read.as_slice().len())),
        }
    }
    Ok(read)
}

/// Appends an event. There is capacity for all, so no call is made.
#[inline(always)]
fn add_event(events: &mut Vec<Event>, event: Event) -> Result<(), AllocError>
    ensures { OnOk result (events.new.items ≡ events.old.items ++ event ∷ []) }
{
    if events.len() == events.capacity() {
        events.reserve(1)?;
    }
    events.push_reserved(event);
    Ok(())
}

/// The event that a C event encodes.
fn read_c_event(event: &CEvent) -> Option<Event>
    ensures { result ≡ event_of event.now }
{
    let kind = kind_under(event.kind)?;
    let name = name_under(event.name, event.other)?;
    let point = Point {
        line: 1,
        column: 1,
        index: event.index,
        vs: usize::from(event.columns),
    };
    Some(Event { kind, name, point })
}

/// The kind with a number.
fn kind_under(number: u8) -> Option<Kind>
    ensures { result ≡ kind_of number }
{
    match number {
        1 => Some(Kind::Enter),
        2 => Some(Kind::Exit),
        _ => None,
    }
}
