// Where flows read, as fields of bytes.
ghost use Rattle.std.specs.Prelude.{◌≤◌, IfOk, length};
ghost use Rattle.segment_rows.specs.Reading.{Reads, made_at, text_at};
ghost use Rattle.commit_payloads.specs.declared.definition.StoredOrigin.TheVariants.{Folder, Table};
ghost use Rattle.commit_payloads.specs.PartLaws.{origin_exact};
ghost use Rattle.commit_payloads.specs.Ranges.{IsOrigin};
ghost use Rattle.commit_payloads.specs.Reading.{origin_at};
ghost use Rattle.commit_payloads.specs.Spelling.{spelled_origin};

use crate::definition::StoredOrigin;
use segment_rows::Field;
use std::alloc::{AllocError, Global};
use value_core::{Name, Text};

fn take_folder(
    alloc: Global,
    bytes: &[u8],
    at: usize,
) -> Result<Option<(StoredOrigin, usize)>, AllocError>
    requires { at ≤ length bytes.now }
    ensures { IfOk result (λ found. Reads (made_at Folder text_at) bytes.now at found) }
{
    let Some((folder, end)) = Text::take(alloc, bytes, at)? else {
        return Ok(None);
    };
    Ok(Some((StoredOrigin::Folder(folder), end)))
}

fn take_table(
    alloc: Global,
    bytes: &[u8],
    at: usize,
) -> Result<Option<(StoredOrigin, usize)>, AllocError>
    requires { at ≤ length bytes.now }
    ensures { IfOk result (λ found. Reads (made_at Table text_at) bytes.now at found) }
{
    let Some((name, end)) = Name::take(alloc, bytes, at)? else {
        return Ok(None);
    };
    Ok(Some((StoredOrigin::Table(name), end)))
}

impl Field for StoredOrigin {
    ghost spelled = { spelled_origin };

    ghost in_range = { IsOrigin };

    ghost reading = { origin_at };

    ghost exact = { origin_exact };

    fn put(&self, out: &mut Vec<u8>) -> Result<(), AllocError> {
        match self {
            StoredOrigin::Folder(folder) => {
                out.push(0)?;
                folder.put(out)
            }
            StoredOrigin::Table(name) => {
                out.push(1)?;
                name.put(out)
            }
        }
    }

    #[tactic(auto, unfolding(segment_rows::specs::Reading::tagged_at))]
    fn take(
        alloc: Global,
        bytes: &[u8],
        at: usize,
    ) -> Result<Option<(StoredOrigin, usize)>, AllocError> {
        let Some((tag, at)) = u8::take(alloc, bytes, at)? else {
            return Ok(None);
        };
        if tag == 0 {
            take_folder(alloc, bytes, at)
        } else if tag == 1 {
            take_table(alloc, bytes, at)
        } else {
            Ok(None)
        }
    }
}
