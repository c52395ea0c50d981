use crate::verify_fault::VerifyFault;
use crate::wire_fault::WireFault;
use thiserror::Error;

/// Why bytes do not prove what they are to prove. Want of memory and a failed source are answers of their
/// own: no refusal is made of them.
#[derive(Clone, Copy, Debug, PartialEq, Eq, Error)]
pub enum Refusal {
    /// They are no proof.
    #[error("{0}")]
    Wire(WireFault),
    /// They are a proof that is refused.
    #[error("{0}")]
    Verify(VerifyFault),
}
