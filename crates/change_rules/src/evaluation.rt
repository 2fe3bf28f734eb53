//! The whole evaluation of a node.

ghost use Rattle.std.specs.Prelude.{◌≡◌, ◌+◌, ◌≤◌, length, false, IfOk, IfSome};
ghost use Rattle.arrays_core.specs.Arrays.{IsAnswerTo};
ghost use Rattle.index_region.specs.Checks.{whole};
ghost use Rattle.change_core.specs.Meters.{ticked};
ghost use Rattle.change_core.specs.RuleModels.{form_size};
ghost use Rattle.index_region.specs.declared.delta.Delta.TheVariants.{Whole};
ghost use Rattle.change_rules.specs.Copies.{AreCopies};
ghost use Rattle.change_rules.specs.Nodes.{is_error};
ghost use Rattle.change_rules.specs.Evaluation.{evaluation};

use arrays_core::{ApplyFault, Array, Fault, outcome};
use change_core::{Meter, Rule};
use index_region::Seen;
use std::alloc::{AllocError, Global};

/// Evaluates the rule; an error of the rule becomes the value.
pub(crate) fn evaluate<R: Rule>(
    alloc: Global,
    rule: &R,
    args: &[Seen],
    meter: &mut Meter,
) -> Result<Result<Array, Fault>, AllocError>
    requires { length args.now ≡ length (R.model rule.now).selectors }
    ensures is { IfOk result (λ r. r ≡ evaluation (R.model rule.now) args.now) }
    ensures ticks { meter.new.ticks ≤ meter.old.ticks + form_size ((R.model rule.now).form args.now) }
    ensures exact { IfOk result (λ r. is_error (Whole r) ≡ false → meter.new.ticks ≡ ticked meter.old.ticks (form_size ((R.model rule.now).form args.now))) }
    ensures rises { meter.old.ticks ≤ meter.new.ticks }
    ensures joins { meter.new.joins ≡ meter.old.joins }
{
    outcome(all_of(alloc, rule, args, meter))
}

/// Evaluates the rule. First copies each argument that carries a patch, so that the rule reads plain arrays.
pub(crate) fn all_of<R: Rule>(
    alloc: Global,
    rule: &R,
    args: &[Seen],
    meter: &mut Meter,
) -> Result<Array, ApplyFault>
    requires { length args.now ≡ length (R.model rule.now).selectors }
    ensures is { IsAnswerTo (whole ((R.model rule.now).form args.now) ((R.model rule.now).item args.now)) result }
    ensures ticks { meter.new.ticks ≤ meter.old.ticks + form_size ((R.model rule.now).form args.now) }
    ensures exact { IfOk result (λ _. meter.new.ticks ≡ ticked meter.old.ticks (form_size ((R.model rule.now).form args.now))) }
    ensures rises { meter.old.ticks ≤ meter.new.ticks }
    ensures joins { meter.new.joins ≡ meter.old.joins }
{
    if args.iter().all(|arg| arg.array().is_some()) {
        return rule.all(alloc, args, meter);
    }
    let copies = copies_of(alloc, args)?;
    let views = views_of_copies(alloc, args, &copies)?;
    rule.all(alloc, &views, meter)
}

/// Copies each argument that carries a patch.
fn copies_of(alloc: Global, args: &[Seen]) -> Result<Vec<Option<Array>>, AllocError>
    ensures { IfOk result (λ v. AreCopies args.now v.items) }
{
    let mut copies = Vec::new(alloc);
    for arg in args {
        copies.push(copy_of(arg)?)?;
    }
    Ok(copies)
}

/// Copies an argument if it carries a patch.
fn copy_of(arg: &Seen) -> Result<Option<Array>, AllocError>
    ensures { IfOk result (λ copy. IfSome copy (λ a. a ≡ arg.now)) }
{
    match arg.array() {
        Some(_) => Ok(None),
        None => Ok(Some(arg.copy()?)),
    }
}

/// Returns views of the arguments, with the copies in place of their originals.
fn views_of_copies<'x>(
    alloc: Global,
    args: &'x [Seen],
    copies: &'x [Option<Array>],
) -> Result<Vec<Seen<'x>>, AllocError>
    requires { AreCopies args.now copies.now }
    ensures { IfOk result (λ v. v.items ≡ args.now) }
{
    let mut views = Vec::new(alloc);
    for (which, arg) in args.iter().enumerate() {
        let view = match copies.get(which) {
            Some(Some(array)) => Seen::plain(array),
            _ => arg.again(),
        };
        views.push(view)?;
    }
    Ok(views)
}
