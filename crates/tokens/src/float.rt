// Floats are equal when their widths agree and f32 calls the values equal.
ghost use Rattle.std.specs.Prelude.{◌≡◌};
ghost use Rattle.std.specs.Float.Ieee.{nan_bits};
ghost use Rattle.std.specs.Float.{binary32};
ghost use Rattle.tokens.specs.Floats.{value_equal, float_equal, float_laws};

use crate::token::Float;

// By the bits: `from_bits` wants a number.
fn is_nan(bits: u32) -> bool
    ensures { result ≡ nan_bits binary32 bits }
{
    bits % 0x8000_0000 > 0x7f80_0000
}

// By the values: two zeros are equal, and no NaN equals anything.
fn same_value(a: u32, b: u32) -> bool
    ensures { result ≡ value_equal a b }
{
    if is_nan(a) || is_nan(b) {
        return false;
    }
    f32::from_bits(a) == f32::from_bits(b)
}

impl PartialEq for Float {
    ghost eq = { float_equal };

    ghost laws = { float_laws };

    fn eq(&self, other: &Float) -> bool {
        self.width == other.width && same_value(self.bits, other.bits)
    }
}
