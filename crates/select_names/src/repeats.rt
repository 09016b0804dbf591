//! The first output that has the name of an earlier one.

ghost use Rattle.std.specs.Prelude.{◌≡◌, ◌++◌, ◌∷◌, [], not, if◌then◌else◌, None, IfOk};
ghost use Rattle.std.specs.List.{list_any};
ghost use Rattle.std.specs.Option.{option_copied};
ghost use Rattle.value_core.specs.NameFold.{same_name};
ghost use Rattle.sql_tree.specs.declared.statement.Out.TheVariants as out;
ghost use Rattle.statement_checks.specs.Repeats.{repeat_behind, first_repeat};
ghost use Rattle.select_names.specs.SelectNames as spec;

use crate::folded::Folded;
use crate::names::{is_left, out_name};
use indexmap::IndexSet;
use sql_tree::{Out, SqlExpr};
use statement_checks::CheckFault;
use std::alloc::{AllocError, Global};
use std::marker::Model;
use value_core::{Column, Name};

/// Names that were seen, which contracts see as their list. No two of them are the same but for the
/// case of ASCII letters.
#[derive(Debug, Drop)]
struct SeenNames<'a> {
    names: IndexSet<Folded<'a>>,
}

impl<'a> Model for SeenNames<'a> {
    ghost use Rattle.std.specs.Prelude.{List, ℕ, map};

    ghost Value = { List (List ℕ) };

    ghost view = { λ seen. map (λ key. key.text.now) seen.names.keys };
}

impl<'a> SeenNames<'a> {
    fn new(alloc: Global) -> SeenNames<'a>
        ensures { result ≡ [] }
    {
        SeenNames {
            names: IndexSet::new(alloc),
        }
    }

    /// Puts a name behind the others and answers true, or answers false where it was seen.
    fn add(&mut self, name: &'a Name) -> Result<bool, AllocError>
        ensures is_new { IfOk result (λ added. added ≡ not (list_any (same_name name.now) self.old)) }
        ensures added { IfOk result (λ added. self.new ≡ (if added then self.old ++ name.now ∷ [] else self.old)) }
    {
        let key = Folded {
            text: name.as_str(),
        };
        let added = self.names.insert(key)?;
        Ok(added)
    }
}

/// The first of the columns that `* EXCEPT` leaves whose name was seen; where there is none their
/// names are seen then.
fn repeat_in_star<'a>(
    seen: &mut SeenNames<'a>,
    source: &'a [Column],
    except: &[Name],
) -> Result<Option<&'a Name>, AllocError>
    ensures found { IfOk result (λ found. option_copied found ≡ repeat_behind same_name seen.old (spec.out_names source.now (out.Star except.now))) }
    ensures seen { IfOk result (λ found. option_copied found ≡ None → seen.new ≡ seen.old ++ spec.out_names source.now (out.Star except.now)) }
{
    for column in source {
        if is_left(except, column) {
            let name = &column.name;
            if !seen.add(name)? {
                return Ok(Some(name));
            }
        }
    }
    Ok(None)
}

/// The name of an output, where it was seen; else it is seen then.
fn repeat_in_one<'a>(
    seen: &mut SeenNames<'a>,
    source: &'a [Column],
    tree: &SqlExpr,
    own: &'a Option<Name>,
) -> Result<Option<&'a Name>, AllocError>
    ensures found { IfOk result (λ found. option_copied found ≡ repeat_behind same_name seen.old (spec.out_names source.now (out.One tree.now own.now))) }
    ensures seen { IfOk result (λ found. option_copied found ≡ None → seen.new ≡ seen.old ++ spec.out_names source.now (out.One tree.now own.now)) }
{
    let Some(name) = out_name(source, tree, own) else {
        return Ok(None);
    };
    if seen.add(name)? {
        return Ok(None);
    }
    Ok(Some(name))
}

fn repeat_in_out<'a>(
    seen: &mut SeenNames<'a>,
    source: &'a [Column],
    output: &'a Out,
) -> Result<Option<&'a Name>, AllocError>
    ensures found { IfOk result (λ found. option_copied found ≡ repeat_behind same_name seen.old (spec.out_names source.now output.now)) }
    ensures seen { IfOk result (λ found. option_copied found ≡ None → seen.new ≡ seen.old ++ spec.out_names source.now output.now) }
{
    match output {
        Out::Star { except } => repeat_in_star(seen, source, except.as_slice()),
        Out::One { expr, name } => repeat_in_one(seen, source, expr, name),
    }
}

/// The first name of an output that an earlier one has. Each name is looked up once, and none is
/// behind the first repeat.
fn repeat_in_outs<'a>(
    alloc: Global,
    source: &'a [Column],
    outs: &'a [Out],
) -> Result<Option<&'a Name>, AllocError>
    ensures { IfOk result (λ found. option_copied found ≡ first_repeat (spec.select_names source.now outs.now)) }
{
    let mut seen = SeenNames::new(alloc);
    for output in outs {
        let found = repeat_in_out(&mut seen, source, output)?;
        if found.is_some() {
            return Ok(found);
        }
    }
    Ok(None)
}

/// The fault of the first output that has the name of an earlier one but for the case of ASCII
/// letters, if there is one: Duplicate, in the later one's spelling. A column of `*` is an output.
/// Fails for want of memory alone.
pub fn repeated_output(
    alloc: Global,
    source: &[Column],
    outs: &[Out],
) -> Result<Option<CheckFault>, AllocError>
    ensures { IfOk result (λ fault. fault ≡ spec.outputs_differ source.now outs.now) }
{
    let Some(name) = repeat_in_outs(alloc, source, outs)? else {
        return Ok(None);
    };
    let name = name.copy(alloc)?;
    Ok(Some(CheckFault::Duplicate { name }))
}
