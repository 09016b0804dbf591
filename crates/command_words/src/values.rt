// The values that arguments give, each once at most.
ghost use Rattle.std.specs.Prelude.{◌≡◌, [], option_map};
ghost use Rattle.std.specs.Option.{option_copied};
ghost use Rattle.command_words.specs.Refreshes.{is_empty};
ghost use Rattle.command_words.specs.Values as spec;

use crate::arguments::{Argument, CommandOption};
use value_core::Text;

fn same_option(one: CommandOption, other: CommandOption) -> bool
    ensures { result ≡ spec.same_option one other }
{
    matches!(
        (one, other),
        (CommandOption::FullRefresh, CommandOption::FullRefresh)
            | (CommandOption::Workers, CommandOption::Workers)
            | (CommandOption::Version, CommandOption::Version)
    )
}

fn value_of(option: CommandOption, argument: &Argument) -> Option<&Text>
    ensures { option_copied result ≡ spec.value_of option argument.now }
{
    match argument {
        Argument::Valued {
            option: given,
            value,
        } if same_option(option, *given) => Some(value),
        _ => None,
    }
}

fn operand_of(argument: &Argument) -> Option<&Text>
    ensures { option_copied result ≡ spec.operand_of argument.now }
{
    match argument {
        Argument::Operand(word) => Some(word),
        _ => None,
    }
}

/// Whether an option is not given.
pub(crate) fn lacks(option: CommandOption, list: &[Argument]) -> bool
    ensures { result ≡ is_empty (spec.values option list.now) }
{
    for argument in list {
        if value_of(option, argument).is_some() {
            return false;
        }
    }
    true
}

/// Whether there is no operand.
pub(crate) fn lacks_operand(list: &[Argument]) -> bool
    ensures { result ≡ is_empty (spec.operands list.now) }
{
    for argument in list {
        if operand_of(argument).is_some() {
            return false;
        }
    }
    true
}

/// The value of an option, if it is given; `None` where it is given more than once.
pub(crate) fn sole_value(option: CommandOption, list: &[Argument]) -> Option<Option<&Text>>
    ensures { option_map option_copied result ≡ spec.at_most_one (spec.values option list.now) }
{
    let mut found = None;
    for argument in list {
        let value = value_of(option, argument);
        if value.is_some() && found.is_some() {
            return None;
        }
        found = value.or(found);
    }
    Some(found)
}

/// The operand, if there is one; `None` where there is more than one.
pub(crate) fn sole_operand(list: &[Argument]) -> Option<Option<&Text>>
    ensures { option_map option_copied result ≡ spec.at_most_one (spec.operands list.now) }
{
    let mut found = None;
    for argument in list {
        let word = operand_of(argument);
        if word.is_some() && found.is_some() {
            return None;
        }
        found = word.or(found);
    }
    Some(found)
}
