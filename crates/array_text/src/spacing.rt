//! The blanks and empty lines between the items of a text.

ghost use Rattle.std.specs.Prelude.{◌≡◌, ◌++◌, OnOk, string_bytes, replicate};
ghost use Rattle.array_text.specs.Text.{between_numbers, line_end, gap};

use std::alloc::AllocError;

/// Appends the blank before each number of a line but the first; `earlier` numbers come before it.
#[tactic(auto, unfolding(crate::specs::Text::gap))]
pub(crate) fn push_blank_between(out: &mut String, earlier: usize) -> Result<(), AllocError>
    ensures { OnOk result (string_bytes out.new ≡ string_bytes out.old ++ gap between_numbers earlier) }
{
    if earlier == 0 {
        return Ok(());
    }
    out.push(' ')
}

/// Appends the empty line before each plane but the first; `earlier` planes come before it.
#[tactic(auto, unfolding(crate::specs::Text::gap))]
pub(crate) fn push_line_between(out: &mut String, earlier: usize) -> Result<(), AllocError>
    ensures { OnOk result (string_bytes out.new ≡ string_bytes out.old ++ gap line_end earlier) }
{
    if earlier == 0 {
        return Ok(());
    }
    out.push('\n')
}

/// Appends blanks.
pub(crate) fn push_blanks(out: &mut String, count: usize) -> Result<(), AllocError>
    ensures { OnOk result (string_bytes out.new ≡ string_bytes out.old ++ replicate count 32) }
{
    for _blank in 0..count {
        out.push(' ')?;
    }
    Ok(())
}
