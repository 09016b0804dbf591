// The lines of a generated feed.
ghost use Rattle.std.specs.Prelude.{◌≡◌, ◌++◌, IfOk, OnOk};
ghost use Rattle.data_gen.specs.Generated.{generated_line, generated_lines, generated_op};

use std::alloc::{AllocError, Global};

/// What a line does to its key: each eleventh deletes it.
fn op_of(place: u64) -> &'static str
    ensures { result.now ≡ generated_op place }
{
    if place % 11 == 0 {
        return "DELETE";
    }
    "UPDATE"
}

/// Puts the line at a place behind others.
fn put_line(out: &mut Vec<u8>, alloc: Global, place: u32) -> Result<(), AllocError>
    ensures { OnOk result (out.new.items ≡ out.old.items ++ generated_line place) }
{
    let place = u64::from(place);
    let key = 37 * place % 101;
    let city = place * place % 7;
    let op = op_of(place);
    let sequence = place ^ 5;
    let line = format!(in alloc;
        "{{\"id\":{key},\"city\":\"c{city}\",\"op\":\"{op}\",\"seq\":{sequence}}}\n"
    )?;
    out.extend_from_slice(line.as_bytes())?;
    Ok(())
}

/// The first lines of a change feed of JSON (one object a line, each line ended by LF), `count` of them: the line at a place from
/// 0 has a key below 101 in `id`, one of seven cities, what it does to the key in `op`, and in `seq` a sequence that no other
/// line has. Fails for want of memory alone.
pub fn lines(alloc: Global, count: u32) -> Result<Vec<u8>, AllocError>
    ensures { IfOk result (λ text. text.items ≡ generated_lines count) }
{
    let mut text = Vec::new(alloc);
    for place in 0..count {
        put_line(&mut text, alloc, place)?;
    }
    Ok(text)
}
