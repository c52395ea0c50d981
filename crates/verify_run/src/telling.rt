// Why a proof is refused, in words.
ghost use Rattle.std.specs.Prelude.{◌≡◌, ◌++◌, codes, IfOk, string_bytes};
ghost use Rattle.hex.specs.Hex.{encode_lower};
ghost use Rattle.proof_model.specs.CauseWords.{cause_words};
ghost use Rattle.proof_check.specs.RefusalReasons.{seen_cause};

use bit_keys::Id;
use mdb_base::NoMemory;
use proof_check::{Refusal, VerifyFault};
use std::alloc::Global;

// The words of two roots that differ.
fn roots_text(alloc: Global, have: &Id, want: &Id) -> Result<String, NoMemory>
    ensures { IfOk result (λ text. string_bytes text ≡ codes "root differs " ++ encode_lower have.now ++ codes " " ++ encode_lower want.now) }
{
    let have = hex::encode(alloc, have.as_slice())?;
    let want = hex::encode(alloc, want.as_slice())?;
    Ok(format!(in alloc; "root differs {have} {want}")?)
}

/// Why a proof is refused, in words. Of bytes that are no proof the place of the first field that is wrong is told.
pub fn cause_text(alloc: Global, cause: &Refusal) -> Result<String, NoMemory>
    ensures { IfOk result (λ text. string_bytes text ≡ cause_words (seen_cause cause.now)) }
{
    let fault = match cause {
        Refusal::Wire(fault) => {
            let at = fault.at;
            return Ok(format!(in alloc; "bytes at {at}")?);
        }
        Refusal::Verify(fault) => *fault,
    };
    let text = match fault {
        VerifyFault::Unsorted(i) => format!(in alloc; "unsorted {i}")?,
        VerifyFault::Outside(i) => format!(in alloc; "outside {i}")?,
        VerifyFault::PathOrder(i) => format!(in alloc; "path order {i}")?,
        VerifyFault::PathsDiffer(i) => format!(in alloc; "paths differ {i}")?,
        VerifyFault::Idle(i) => format!(in alloc; "idle {i}")?,
        VerifyFault::RootDiffers { have, want } => roots_text(alloc, &have, &want)?,
        // No refusal is made of these.
        VerifyFault::Failed | VerifyFault::NoMemory => return Err(NoMemory),
    };
    Ok(text)
}
