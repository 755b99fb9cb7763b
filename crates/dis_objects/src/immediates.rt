//! Which numbers an instruction holds itself.

ghost use Rattle.std.specs.Prelude.{◌≡◌};
ghost use Rattle.dis_objects.specs.Code as dis;

// The least and greatest immediates of a source, and of a middle.
const LEAST_SOURCE: i64 = -536_870_912;

const GREATEST_SOURCE: i64 = 536_870_911;

const LEAST_MIDDLE: i64 = -32_768;

const GREATEST_MIDDLE: i64 = 32_767;

/// Whether a number is an immediate of a source, which has 30 bits.
pub fn fits_source(number: i64) -> bool
    ensures { result ≡ dis.fits_source number }
{
    LEAST_SOURCE <= number && number <= GREATEST_SOURCE
}

/// Whether a number is an immediate of a middle, which has 16 bits.
pub fn fits_middle(number: i64) -> bool
    ensures { result ≡ dis.fits_middle number }
{
    LEAST_MIDDLE <= number && number <= GREATEST_MIDDLE
}
