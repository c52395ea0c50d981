ghost use Rattle.std.specs.Prelude.{◌≡◌, ◌≢◌, ◌^◌, IfSome, IfNone};
ghost use Rattle.bit_keys.specs.declared.branch.Branch.{Branch};
ghost use Rattle.bit_keys.specs.Branch.{width_of, factor_of};

/// How many children a node may have, which is the number of values of a token.
#[derive(Clone, Copy, Debug, PartialEq, Eq)]
pub enum Branch {
    B2,
    B4,
    B16,
    B256,
}

impl Branch {
    /// The branch whose tokens have `n` values.
    pub fn from_factor(n: u64) -> Option<Branch>
        ensures found { IfSome result (λ b. factor_of b ≡ n) }
        ensures none { IfNone result ((b : Branch) → factor_of b ≢ n) }
    {
        match n {
            2 => Some(Branch::B2),
            4 => Some(Branch::B4),
            16 => Some(Branch::B16),
            256 => Some(Branch::B256),
            _ => None,
        }
    }

    /// The number of values of a token.
    pub fn factor(&self) -> u16
        ensures value { result ≡ factor_of self.now }
        ensures power { factor_of self.now ≡ 2 ^ width_of self.now }
    {
        match self {
            Branch::B2 => 2,
            Branch::B4 => 4,
            Branch::B16 => 16,
            Branch::B256 => 256,
        }
    }

    /// The bits of a token.
    pub fn width(&self) -> u8
        ensures { result ≡ width_of self.now }
    {
        match self {
            Branch::B2 => 1,
            Branch::B4 => 2,
            Branch::B16 => 4,
            Branch::B256 => 8,
        }
    }
}
