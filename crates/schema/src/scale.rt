// Doubles made from a mantissa and a power of two.
ghost use Rattle.std.specs.Prelude.{◌≡◌, ◌^◌, ◌<◌, ◌≤◌, pos, negsuc, ◌+ℤ◌, ◌≤ℤ◌};
ghost use Rattle.double.specs.Double.{largest};
ghost use Rattle.schema.specs.Bounds.{scaled};

// The leading binary digit of a mantissa of 53.
pub(crate) const LEADING_DIGIT: u64 = 1 << 52;

// The largest double that is at most mantissa × 2^(power - 53), for a mantissa of 53 binary digits; infinity above 2^1024.
pub(crate) fn scale(mantissa: u64, power: i64) -> f64
    requires low { 2 ^ 52 ≤ mantissa }
    requires high { mantissa < 2 ^ 53 }
    requires least { negsuc 1099511627776 ≤ℤ power }
    requires most { power ≤ℤ pos 1099511627776 }
    ensures { result ≡ largest (scaled mantissa (power +ℤ pos 1021)) }
{
    match power + 1021 {
        2047.. => f64::INFINITY,
        2046 if mantissa > LEADING_DIGIT => f64::INFINITY,
        2046 => f64::MAX,
        shift @ 0.. => f64::from_bits((shift.unsigned_abs() << 52) + mantissa),
        shift @ -52.. => f64::from_bits(mantissa >> shift.unsigned_abs()),
        _ => 0.0,
    }
}
