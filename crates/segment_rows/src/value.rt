// Values: a byte for the kind, and what it holds.
ghost use Rattle.std.specs.Prelude.{◌≤◌, IfOk, length};
ghost use Rattle.std.specs.Int.{w32, w64, cast_signed};
ghost use Rattle.value_core.specs.declared.value.Value.TheVariants.{Int, Big, Str};
ghost use Rattle.segment_rows.specs.Ranges.{IsValue};
ghost use Rattle.segment_rows.specs.Reading.{Reads, half_at, made_at, number_at, text_at, value_at};
ghost use Rattle.segment_rows.specs.Spelling.{spelled_value};
ghost use Rattle.segment_rows.specs.ValueLaws.{value_exact};

use crate::field::Field;
use crate::number::{take_byte, take_half, take_number};
use std::alloc::{AllocError, Global};
use value_core::{Text, Value};

impl Field for Value {
    ghost spelled = { spelled_value };

    ghost in_range = { IsValue };

    ghost reading = { value_at };

    ghost exact = { value_exact };

    #[tactic(auto, unfolding(crate::specs::Spelling::spelled_half, crate::specs::Spelling::spelled_number))]
    fn put(&self, out: &mut Vec<u8>) -> Result<(), AllocError> {
        match self {
            Value::Null => Ok(out.push(0)?),
            Value::Bool(false) => Ok(out.push(1)?),
            Value::Bool(true) => Ok(out.push(2)?),
            Value::Int(int) => {
                out.push(3)?;
                out.extend_from_slice(&int.to_be_bytes())
            }
            Value::Big(big) => {
                out.push(4)?;
                out.extend_from_slice(&big.to_be_bytes())
            }
            Value::Str(text) => {
                out.push(5)?;
                text.put(out)
            }
        }
    }

    #[tactic(auto, unfolding(crate::specs::Reading::tagged_at))]
    fn take(alloc: Global, bytes: &[u8], at: usize) -> Result<Option<(Value, usize)>, AllocError> {
        let Some((tag, at)) = take_byte(bytes, at) else {
            return Ok(None);
        };
        if tag == 0 {
            Ok(Some((Value::Null, at)))
        } else if tag == 1 {
            Ok(Some((Value::Bool(false), at)))
        } else if tag == 2 {
            Ok(Some((Value::Bool(true), at)))
        } else if tag == 3 {
            Ok(take_int(bytes, at))
        } else if tag == 4 {
            Ok(take_big(bytes, at))
        } else if tag == 5 {
            take_string(alloc, bytes, at)
        } else {
            Ok(None)
        }
    }
}

fn take_int(bytes: &[u8], at: usize) -> Option<(Value, usize)>
    requires { at ≤ length bytes.now }
    ensures { Reads (made_at (λ n. Int (cast_signed w32 n)) half_at) bytes.now at result }
{
    let (number, end) = take_half(bytes, at)?;
    Some((Value::Int(number.cast_signed()), end))
}

fn take_big(bytes: &[u8], at: usize) -> Option<(Value, usize)>
    requires { at ≤ length bytes.now }
    ensures { Reads (made_at (λ n. Big (cast_signed w64 n)) number_at) bytes.now at result }
{
    let (number, end) = take_number(bytes, at)?;
    Some((Value::Big(number.cast_signed()), end))
}

fn take_string(alloc: Global, bytes: &[u8], at: usize) -> Result<Option<(Value, usize)>, AllocError>
    requires { at ≤ length bytes.now }
    ensures { IfOk result (λ found. Reads (made_at Str text_at) bytes.now at found) }
{
    let Some((text, end)) = Text::take(alloc, bytes, at)? else {
        return Ok(None);
    };
    Ok(Some((Value::Str(text), end)))
}
