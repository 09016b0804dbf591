// Events: what kind, and three rows.
ghost use Rattle.std.specs.Prelude.{◌≡◌, ⊤};
ghost use Rattle.segment_rows.specs.EventParts as parts;
ghost use Rattle.segment_rows.specs.PartLaws.{event_kind_exact, event_exact};
ghost use Rattle.segment_rows.specs.Ranges.{IsEvent};
ghost use Rattle.segment_rows.specs.Reading.{coded_at, event_at, event_kind_of};
ghost use Rattle.segment_rows.specs.Spelling.{event_kind_byte, spelled_event_kind, spelled_event};

use crate::field::Field;
use crate::number::take_byte;
use std::alloc::{AllocError, Global};
use value_core::{Event, EventKind, Row};

/// Whether a delete has no columns, and a truncate neither key nor columns.
pub fn has_its_parts(event: &Event) -> bool
    ensures { result ≡ parts.has_its_parts event.now }
{
    match event.kind {
        EventKind::Upsert => true,
        EventKind::Delete => event.columns.is_empty(),
        EventKind::Truncate => event.key.is_empty() && event.columns.is_empty(),
    }
}

fn byte_of(kind: EventKind) -> u8
    ensures { result ≡ event_kind_byte kind }
{
    match kind {
        EventKind::Upsert => 1,
        EventKind::Delete => 2,
        EventKind::Truncate => 3,
    }
}

fn meaning_of(byte: u8) -> Option<EventKind>
    ensures { result ≡ event_kind_of byte }
{
    match byte {
        1 => Some(EventKind::Upsert),
        2 => Some(EventKind::Delete),
        3 => Some(EventKind::Truncate),
        _ => None,
    }
}

impl Field for EventKind {
    ghost spelled = { spelled_event_kind };

    ghost in_range = { λ kind. ⊤ };

    ghost reading = { coded_at event_kind_of };

    ghost exact = { event_kind_exact };

    fn put(&self, out: &mut Vec<u8>) -> Result<(), AllocError> {
        out.push(byte_of(*self))?;
        Ok(())
    }

    #[tactic(auto, unfolding(crate::specs::Reading::coded_at))]
    fn take(
        _alloc: Global,
        bytes: &[u8],
        at: usize,
    ) -> Result<Option<(EventKind, usize)>, AllocError> {
        let Some((byte, end)) = take_byte(bytes, at) else {
            return Ok(None);
        };
        match meaning_of(byte) {
            Some(kind) => Ok(Some((kind, end))),
            None => Ok(None),
        }
    }
}

impl Field for Event {
    ghost spelled = { spelled_event };

    ghost in_range = { IsEvent };

    ghost reading = { event_at };

    ghost exact = { event_exact };

    fn put(&self, out: &mut Vec<u8>) -> Result<(), AllocError> {
        self.kind.put(out)?;
        self.sequence.put(out)?;
        self.key.put(out)?;
        self.columns.put(out)
    }

    fn take(alloc: Global, bytes: &[u8], at: usize) -> Result<Option<(Event, usize)>, AllocError> {
        let Some((kind, at)) = EventKind::take(alloc, bytes, at)? else {
            return Ok(None);
        };
        let Some((sequence, at)) = Row::take(alloc, bytes, at)? else {
            return Ok(None);
        };
        let Some((key, at)) = Row::take(alloc, bytes, at)? else {
            return Ok(None);
        };
        let Some((columns, at)) = Row::take(alloc, bytes, at)? else {
            return Ok(None);
        };
        let event = Event {
            kind,
            sequence,
            key,
            columns,
        };
        Ok(Some((event, at)))
    }
}
