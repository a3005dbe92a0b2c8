ghost use Rattle.std.specs.Prelude.{◌≡◌, ◌+◌, ◌*◌};
ghost use Rattle.nesting.specs.Capped.{capped};

/// Steps are cut off here: any more is too many all the same, and so no sum or product is ever too large.
const CAP: u32 = 65_536;

/// The sum, cut off.
pub fn capped_sum(a: u32, b: u32) -> u32
    ensures { result ≡ capped (a + b) }
{
    a.saturating_add(b).min(CAP)
}

/// The product, cut off.
pub fn capped_product(a: u32, b: u32) -> u32
    ensures { result ≡ capped (a * b) }
{
    a.saturating_mul(b).min(CAP)
}
