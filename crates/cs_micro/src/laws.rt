//! Laws of what a trace breaks into. A call of a function here does nothing: its contract is the
//! law.
ghost use Rattle.std.specs.Prelude.{◌≡◌, false};
ghost use Rattle.cs_trace.specs.Earlier.Same.{trace_before};
ghost use Rattle.cs_trace_lines.specs.Versions.{is_fourth};
ghost use Rattle.cs_micro.specs.Earlier.Micros.{micros_in as micros_before};
ghost use Rattle.cs_micro.specs.Earlier.Same.{micros_as_before};
ghost use Rattle.cs_micro.specs.Micros.{micros_in};

use cs_names::laws::know;
use cs_trace::Trace;

/// For a trace of versions 1 to 3, the definitions of today (`specs`) and those from before version
/// 4 (`specs/Earlier`) agree on the micro-operations and the sync points.
pub fn earlier_versions_break_up_as_before(trace: &Trace)
    requires { is_fourth trace.now.version ≡ false }
    ensures { micros_as_before (micros_in trace.now) ≡ micros_before (trace_before trace.now) }
{
    // By the contract of `operations`, the entries at the start are a tree, and each operation is
    // legal in what those before it leave.
    know(trace.operations());
}
