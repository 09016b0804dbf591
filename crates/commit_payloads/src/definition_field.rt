// Definitions as fields of bytes.
ghost use Rattle.std.specs.Prelude.{◌≡◌, ⊤};
ghost use Rattle.segment_rows.specs.Reading.{coded_at};
ghost use Rattle.commit_payloads.specs.PartLaws.{body_exact, action_exact, expectation_exact, flow_exact, definition_exact};
ghost use Rattle.commit_payloads.specs.Ranges.{IsExpectation, IsFlow, IsDefinition};
ghost use Rattle.commit_payloads.specs.Reading as reading;
ghost use Rattle.commit_payloads.specs.Reading.{expectation_at, flow_at, definition_at};
ghost use Rattle.commit_payloads.specs.Spelling as spelling;
ghost use Rattle.commit_payloads.specs.Spelling.{spelled_body, spelled_action, spelled_expectation, spelled_flow, spelled_definition};

use crate::definition::{
    Definition, StoredAction, StoredBody, StoredExpectation, StoredExpectations, StoredFlow,
    StoredFlows, StoredOrigin,
};
use segment_rows::Field;
use std::alloc::{AllocError, Global};
use value_core::{Kinds, Name, Numbers, Schema, Text};

fn body_byte(body: StoredBody) -> u8
    ensures { result ≡ spelling.body_byte body }
{
    match body {
        StoredBody::Append => 0,
        StoredBody::Scd1 => 1,
        StoredBody::Scd2 => 2,
        StoredBody::View => 3,
    }
}

fn body_of(byte: u8) -> Option<StoredBody>
    ensures { result ≡ reading.body_of byte }
{
    match byte {
        0 => Some(StoredBody::Append),
        1 => Some(StoredBody::Scd1),
        2 => Some(StoredBody::Scd2),
        3 => Some(StoredBody::View),
        _ => None,
    }
}

fn action_byte(action: StoredAction) -> u8
    ensures { result ≡ spelling.action_byte action }
{
    match action {
        StoredAction::Warn => 0,
        StoredAction::DropRow => 1,
        StoredAction::FailUpdate => 2,
    }
}

fn action_of(byte: u8) -> Option<StoredAction>
    ensures { result ≡ reading.action_of byte }
{
    match byte {
        0 => Some(StoredAction::Warn),
        1 => Some(StoredAction::DropRow),
        2 => Some(StoredAction::FailUpdate),
        _ => None,
    }
}

impl Field for StoredBody {
    ghost spelled = { spelled_body };

    ghost in_range = { λ body. ⊤ };

    ghost reading = { coded_at reading.body_of };

    ghost exact = { body_exact };

    fn put(&self, out: &mut Vec<u8>) -> Result<(), AllocError> {
        body_byte(*self).put(out)
    }

    #[tactic(auto, unfolding(segment_rows::specs::Reading::coded_at))]
    fn take(
        alloc: Global,
        bytes: &[u8],
        at: usize,
    ) -> Result<Option<(StoredBody, usize)>, AllocError> {
        let Some((byte, end)) = u8::take(alloc, bytes, at)? else {
            return Ok(None);
        };
        match body_of(byte) {
            Some(body) => Ok(Some((body, end))),
            None => Ok(None),
        }
    }
}

impl Field for StoredAction {
    ghost spelled = { spelled_action };

    ghost in_range = { λ action. ⊤ };

    ghost reading = { coded_at reading.action_of };

    ghost exact = { action_exact };

    fn put(&self, out: &mut Vec<u8>) -> Result<(), AllocError> {
        action_byte(*self).put(out)
    }

    #[tactic(auto, unfolding(segment_rows::specs::Reading::coded_at))]
    fn take(
        alloc: Global,
        bytes: &[u8],
        at: usize,
    ) -> Result<Option<(StoredAction, usize)>, AllocError> {
        let Some((byte, end)) = u8::take(alloc, bytes, at)? else {
            return Ok(None);
        };
        match action_of(byte) {
            Some(action) => Ok(Some((action, end))),
            None => Ok(None),
        }
    }
}

impl Field for StoredExpectation {
    ghost spelled = { spelled_expectation };

    ghost in_range = { IsExpectation };

    ghost reading = { expectation_at };

    ghost exact = { expectation_exact };

    fn put(&self, out: &mut Vec<u8>) -> Result<(), AllocError> {
        self.name.put(out)?;
        self.action.put(out)
    }

    fn take(
        alloc: Global,
        bytes: &[u8],
        at: usize,
    ) -> Result<Option<(StoredExpectation, usize)>, AllocError> {
        let Some((name, at)) = Name::take(alloc, bytes, at)? else {
            return Ok(None);
        };
        let Some((action, at)) = StoredAction::take(alloc, bytes, at)? else {
            return Ok(None);
        };
        Ok(Some((StoredExpectation { name, action }, at)))
    }
}

impl Field for StoredFlow {
    ghost spelled = { spelled_flow };

    ghost in_range = { IsFlow };

    ghost reading = { flow_at };

    ghost exact = { flow_exact };

    fn put(&self, out: &mut Vec<u8>) -> Result<(), AllocError> {
        self.name.put(out)?;
        self.origin.put(out)
    }

    fn take(
        alloc: Global,
        bytes: &[u8],
        at: usize,
    ) -> Result<Option<(StoredFlow, usize)>, AllocError> {
        let Some((name, at)) = Name::take(alloc, bytes, at)? else {
            return Ok(None);
        };
        let Some((origin, at)) = StoredOrigin::take(alloc, bytes, at)? else {
            return Ok(None);
        };
        Ok(Some((StoredFlow { name, origin }, at)))
    }
}

impl Field for Definition {
    ghost spelled = { spelled_definition };

    ghost in_range = { IsDefinition };

    ghost reading = { definition_at };

    ghost exact = { definition_exact };

    fn put(&self, out: &mut Vec<u8>) -> Result<(), AllocError> {
        self.name.put(out)?;
        self.text.put(out)?;
        self.body.put(out)?;
        self.columns.put(out)?;
        self.expectations.put(out)?;
        self.flows.put(out)?;
        self.keys.put(out)?;
        self.sequence.put(out)
    }

    fn take(
        alloc: Global,
        bytes: &[u8],
        at: usize,
    ) -> Result<Option<(Definition, usize)>, AllocError> {
        let Some((name, at)) = Name::take(alloc, bytes, at)? else {
            return Ok(None);
        };
        let Some((text, at)) = Text::take(alloc, bytes, at)? else {
            return Ok(None);
        };
        let Some((body, at)) = StoredBody::take(alloc, bytes, at)? else {
            return Ok(None);
        };
        let Some((columns, at)) = Schema::take(alloc, bytes, at)? else {
            return Ok(None);
        };
        let Some((expectations, at)) = StoredExpectations::take(alloc, bytes, at)? else {
            return Ok(None);
        };
        let Some((flows, at)) = StoredFlows::take(alloc, bytes, at)? else {
            return Ok(None);
        };
        let Some((keys, at)) = Numbers::take(alloc, bytes, at)? else {
            return Ok(None);
        };
        let Some((sequence, at)) = Kinds::take(alloc, bytes, at)? else {
            return Ok(None);
        };
        let definition = Definition {
            name,
            text,
            body,
            columns,
            expectations,
            flows,
            keys,
            sequence,
        };
        Ok(Some((definition, at)))
    }
}
