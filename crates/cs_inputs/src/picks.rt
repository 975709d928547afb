//! The picks of a file, line by line.
ghost use Rattle.std.specs.Prelude.{◌≡◌, ◌≢◌, ◌++◌, Some, None, Ok, Err, IfErr, IfOk, OnOk};
ghost use Rattle.std.specs.Prelude.{option_map};
ghost use Rattle.cs_inputs.specs.Picks.{picks_in, picks_on};
ghost use Rattle.cs_inputs.specs.declared.picks_fault.PicksFault.TheVariants.{Memory, Syntax};

use crate::pick_line::pick_in;
use crate::picks_fault::PicksFault;
use cs_names::Pieces;
use cs_plan::Places;
use std::alloc::Global;

/// Appends the pick of the line of that number; nothing if the line is empty. The error is Syntax
/// if the line isn't an array of places, or Memory. After an error the picks are as they were.
fn push_pick(
    alloc: Global,
    picks: &mut Vec<Places>,
    number: usize,
    line: &[u8],
) -> Result<(), PicksFault>
    ensures kept { OnOk result
        (option_map (λ more. picks.old.items ++ more) (picks_on line.now) ≡ Some picks.new.items) }
    ensures fault { IfErr result
        (λ fault. fault ≢ Memory → (fault ≡ Syntax number) × (picks_on line.now ≡ None)) }
{
    if line.is_empty() {
        return Ok(());
    }
    let Some(pick) = pick_in(alloc, line)? else {
        return Err(PicksFault::Syntax(number));
    };
    if picks.push(pick).is_err() {
        return Err(PicksFault::Memory);
    }
    Ok(())
}

/// The picks of a file: in each line an array of places, as `[0,2,5]` in JSON. Lines are cut at
/// line feeds, and empty ones are skipped; an empty file has no picks. The error is Syntax at the
/// first line that isn't such an array, also at one of only blanks; or Memory if an allocation
/// failed before such a line.
pub fn read_picks(alloc: Global, bytes: &[u8]) -> Result<Vec<Places>, PicksFault>
    ensures read { IfOk result (λ picks. picks_in bytes.now ≡ Ok picks.items) }
    ensures fault { IfErr result (λ fault. fault ≢ Memory → picks_in bytes.now ≡ Err fault) }
{
    let mut picks = Vec::new(alloc);
    let mut before = 0;
    for line in Pieces::of(bytes, b'\n') {
        if let Err(fault) = push_pick(alloc, &mut picks, before + 1, line) {
            return Err(fault);
        }
        before += 1;
    }
    Ok(picks)
}
