//! The lines of refusals.
ghost use Rattle.std.specs.Prelude.{◌≡◌, ◌++◌, OnOk, string_bytes};
ghost use Rattle.zlab.specs.Text.{refused_line, refused_trace_line};

use std::alloc::AllocError;

/// Adds the line that answers a refused input: the number of its faulty line, and the name of the
/// fault. Where memory is refused, a beginning of the line may stand there.
pub fn push_refusal(text: &mut String, line: u64, name: &str) -> Result<(), AllocError>
    ensures { OnOk result (string_bytes text.new ≡ string_bytes text.old ++ refused_line line
        name.now) }
{
    write!(text, "refused {line} {name}\n")
}

/// Adds the line that answers a refused trace: the number of its faulty line, and the name of the
/// fault. Where memory is refused, a beginning of the line may stand there.
pub fn push_trace_refusal(text: &mut String, line: u64, name: &str) -> Result<(), AllocError>
    ensures { OnOk result (string_bytes text.new ≡ string_bytes text.old
        ++ refused_trace_line line name.now) }
{
    write!(text, "refused trace {line} {name}\n")
}
