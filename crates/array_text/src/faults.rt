//! The text of an error.

ghost use Rattle.std.specs.Prelude.{◌≡◌, ◌++◌, IfOk, OnOk, string_bytes};
ghost use Rattle.array_text.specs.Text.{kind_text, origin_text, fault_text};

use arrays_core::{Fault, Kind};
use names::Name;
use std::alloc::{AllocError, Global};

/// Returns the name of an error.
fn kind_name(kind: Kind) -> &'static str
    ensures { result.now ≡ kind_text kind }
{
    match kind {
        Kind::Domain => "DOMAIN",
        Kind::Rank => "RANK",
        Kind::Length => "LENGTH",
        Kind::Index => "INDEX",
        Kind::Axis => "AXIS",
        Kind::Limit => "LIMIT",
        Kind::Value => "VALUE",
    }
}

/// Appends the name whose formula caused the error, if there is one.
fn push_origin(out: &mut String, origin: Option<Name>) -> Result<(), AllocError>
    ensures { OnOk result (string_bytes out.new ≡ string_bytes out.old ++ origin_text origin) }
{
    let Some(name) = origin else {
        return Ok(());
    };
    out.push_str(" IN ")?;
    out.push_str(name.text())
}

/// Returns the line of an error: its name and `ERROR`, then `IN` and the name whose formula caused it, if there is one.
pub fn print_fault(alloc: Global, fault: &Fault) -> Result<String, AllocError>
    ensures { IfOk result (λ text. string_bytes text ≡ fault_text fault.now) }
{
    let mut text = String::new(alloc);
    text.push_str(kind_name(fault.kind))?;
    text.push_str(" ERROR")?;
    push_origin(&mut text, fault.origin)?;
    text.push('\n')?;
    Ok(text)
}
