// Exact doubles: the fraction and the exponent of a magnitude.
#![tactic(auto)]

ghost use Rattle.std.specs.Prelude.{◌≡◌, ◌+◌, ◌-◌, ◌*◌, ◌^◌, ◌<◌, ◌≤◌, not, T, pos, negsuc, ◌-ℤ◌, ◌≤ℤ◌, from_bits};
ghost use Rattle.std.specs.Float.{binary64};
ghost use Rattle.std.specs.Float.Ieee.{size};
ghost use Rattle.double.specs.Double.{fraction, exponent, finite_nonzero, units, zero_double, Splits};

// The leading binary digit of a mantissa of 53.
const LEADING_DIGIT: u64 = 1 << 52;

// A magnitude other than zero: mantissa × 2^shift units of 2^-1074.
#[derive(Clone, Copy)]
struct Parts {
    mantissa: u64,
    shift: u32,
    ghost nonzero: { 0 < mantissa },
    ghost digits: { mantissa < 2 ^ 53 },
    ghost small: { shift < 2046 },
}

impl Parts {
    // The magnitude of v.
    fn of(v: f64) -> Parts
        requires { T (finite_nonzero v) }
        ensures { result.mantissa * 2 ^ result.shift ≡ units v }
    {
        let bits = v.abs().to_bits();
        let field = bits >> 52;
        let digits = bits % LEADING_DIGIT;
        if field == 0 {
            Parts {
                mantissa: digits,
                shift: 0,
            }
        } else {
            Parts {
                mantissa: digits + LEADING_DIGIT,
                // `as`, since no `From` leads to a narrower type; the field has eleven digits
                shift: (field - 1) as u32,
            }
        }
    }

    // How many binary digits the mantissa has.
    fn digits(self) -> u32
        ensures value { result ≡ size self.mantissa }
        ensures few { result ≤ 53 }
    {
        u64::BITS - self.mantissa.leading_zeros()
    }

    // The mantissa divided by 2^digits: at least 0.5 and below 1.
    fn fraction(self) -> f64
        ensures { result ≡ from_bits binary64 (1021 * 2 ^ 52 + self.mantissa * 2 ^ (53 - size self.mantissa)) }
    {
        f64::from_bits((1021 << 52) + (self.mantissa << (53 - self.digits())))
    }

    // The power of two that the fraction is times, to make the magnitude. `as` changes the sign's type alone.
    fn exponent(self) -> i32
        ensures value { result ≡ pos (self.shift + size self.mantissa) -ℤ pos 1074 }
        ensures range { (negsuc 1073 ≤ℤ result) × (result ≤ℤ pos 1024) }
    {
        (self.shift + self.digits()) as i32 - 1074
    }
}

// The magnitude of v as fraction × 2^exponent, exactly, the fraction at least 0.5 and below 1, subnormals included.
// (0, 0) for zero, an infinity and a NaN, and no `Option`: it is published so, and cannot fail.
pub fn frexp(v: f64) -> (f64, i32)
    ensures value { result ≡ (fraction v, exponent v) }
    ensures splits { T (finite_nonzero v) → Splits v result.0 result.1 }
    ensures range { (negsuc 1073 ≤ℤ result.1) × (result.1 ≤ℤ pos 1024) }
    ensures nothing { T (not (finite_nonzero v)) → result ≡ (zero_double, pos 0) }
{
    if !v.is_finite() || v == 0.0 {
        return (0.0, 0);
    }
    let parts = Parts::of(v);
    (parts.fraction(), parts.exponent())
}
