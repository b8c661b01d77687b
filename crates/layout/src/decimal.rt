// Numbers in decimal digits, for whoever spells one.
ghost use Rattle.std.specs.Prelude.{◌≡◌, ◌+◌, ◌^◌, ◌≤◌, length};
ghost use Rattle.layout.specs.Decimal.{decimal};
ghost use Rattle.layout.specs.Patch.{patch};

use crate::writer::put;

// Stores the decimal digits of a number below 10^most, and gives the place behind them. The library writes digits into a formatter or
// a text of its own: to bring them from there into the buffer, no more than `most` of them, takes as many lines.
pub fn put_decimal(v: u64, most: u32, out: &mut [u8], at: usize) -> usize
    requires { (most ≤ 20) × (at ≤ 2 ^ 40) }
    ensures is { (result ≡ at + length (decimal most v)) × (length (decimal most v) ≤ most) }
    ensures kept { out.new ≡ patch out.old at (decimal most v) }
{
    if most == 0 {
        return at;
    }
    if v < 10 {
        put(out, at, b'0' + v as u8);
        return at + 1;
    }
    let end = put_decimal(v / 10, most - 1, out, at);
    put(out, end, b'0' + (v % 10) as u8);
    end + 1
}
