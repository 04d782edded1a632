// Powers of two, and doubles in a fixed order that looks like none.
use random::Random;
use std::num::nearest_u64_to_f64;

// 2^exponent: zero below 2^-1074, infinity from 2^1024 on. A negative power of 2 would be 0 from 2^-1024 on.
pub fn power_of_two(exponent: i32) -> f64 {
    if exponent < 0 {
        0.5f64.powi(exponent.saturating_neg())
    } else {
        2.0f64.powi(exponent)
    }
}

// A number of up to 53 binary digits, in any octave; now and then it is zero or infinity. `as`, since no `From` leads to
// a narrower type.
pub fn any_double(random: &mut Random) -> f64 {
    let exponent = (random.next_u64() % 2110) as i32 - 1127;
    nearest_u64_to_f64(random.next_u64() >> 11) * power_of_two(exponent)
}
