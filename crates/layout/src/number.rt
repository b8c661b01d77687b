// Number payloads: the Rust's `compact_encode` and `decode` of util.rs.
ghost use Rattle.std.specs.Prelude.{◌≡◌, ◌∷◌, ◌+◌, ◌-◌, ◌*◌, ◌^◌, ◌≤◌, ◌<◌, T, length};
ghost use Rattle.layout.specs.Ended.{Ended, into};
ghost use Rattle.layout.specs.Bytes.{be_value, be_bytes};
ghost use Rattle.layout.specs.Number.{listed, is_integer, signed, pattern, decoded};
ghost use Rattle.layout.specs.Number.{is_width, decimal_of, number_of};
ghost use Rattle.layout.specs.Number.{uint_width, int_width, uint_payload};
ghost use Rattle.layout.specs.Number.{int_payload, float_payload};
ghost use Rattle.layout.specs.Number.{decimal_payload};

use crate::constants::{
    NUMBER_DECIMAL, NUMBER_FLOAT, NUMBER_INF, NUMBER_INT, NUMBER_NAN, NUMBER_NEG_INF, NUMBER_UINT,
    NUMBER_ZERO,
};
use crate::ending::Ending;
use crate::refusal::Refusal;
use crate::util::byte;
use crate::writer::{put, put_be};

// A 64-bit decimal's payload: its first byte, the value and the scale.
const DECIMAL64_SIZE: usize = 10;

// The patterns of the infinite floats.
const INFINITY: u64 = 0x7ff0_0000_0000_0000;

const NEG_INFINITY: u64 = 0xfff0_0000_0000_0000;

// What a payload stands for. A float is its 64 bits: the language's floats have one NaN, and every pattern of bits is listed. Of
// a decimal that is wider than 64 bits only the length is given, 17 or 33: the bytes behind the first.
#[derive(Clone, Copy)]
pub enum Number {
    Nan,
    Infinity,
    NegInfinity,
    Int64(i64),
    UInt64(u64),
    Float64(u64),
    Decimal64(i64, u8),
    WideDecimal(usize),
}

// Whether the payload is one that document 01 lists: by its first byte, and by how many follow it. The tests are joined without a
// branch: with `matches!` the check of the telemetry limits took 1.5 times as long, and a `match` on the first byte takes twice as long
// over payloads of all kinds.
pub fn is_number(payload: &[u8]) -> bool
    ensures { result ≡ listed payload.now }
{
    if payload.len() == 0 {
        return false;
    }
    let ty = byte(payload, 0);
    let n = payload.len() - 1;
    let alone = (ty == NUMBER_ZERO)
        | ((ty == NUMBER_NAN) | ((ty == NUMBER_INF) | (ty == NUMBER_NEG_INF)));
    let integer = (ty == NUMBER_INT) | (ty == NUMBER_UINT);
    (alone & (n == 0))
        | ((integer & ((n == 1) | ((n == 2) | ((n == 4) | (n == 8)))))
            | (((ty == NUMBER_FLOAT) & (n == 8))
                | ((ty == NUMBER_DECIMAL) & ((n == 9) | ((n == 17) | (n == 33))))))
}

// Whether a listed payload is an integer: by its first byte, with tests joined as above.
pub fn is_integer(payload: &[u8]) -> bool
    ensures { result ≡ is_integer payload.now }
{
    if payload.len() == 0 {
        return false;
    }
    let ty = byte(payload, 0);
    (ty == NUMBER_ZERO) | ((ty == NUMBER_INT) | (ty == NUMBER_UINT))
}

// The number that up to eight bytes write, the high byte first.
fn read_be(s: &[u8]) -> u64
    requires { length s.now ≤ 8 }
    ensures { (result ≡ be_value s.now) × (result < 256 ^ length s.now) }
{
    let mut value = 0;
    for b in s {
        value = value * 256 + u64::from(*b);
    }
    value
}

// The number that a pattern of n bytes stands for in two's complement.
fn from_twos_complement(n: usize, x: u64) -> i64
    requires { T (is_width n) × (x < 256 ^ n) }
    ensures { result ≡ signed n x }
{
    match n {
        1 => i64::from((x as u8).cast_signed()),
        2 => i64::from((x as u16).cast_signed()),
        4 => i64::from((x as u32).cast_signed()),
        _ => x.cast_signed(),
    }
}

// The number of a decimal payload behind its first byte.
fn decode_decimal(rest: &[u8]) -> Number
    ensures { result ≡ decimal_of rest.now }
{
    if rest.len() == 9 {
        return Number::Decimal64(from_twos_complement(8, read_be(&rest[0..8])), rest[8]);
    }
    Number::WideDecimal(rest.len())
}

// The number of a listed payload, which is its first byte and the rest.
fn decode_listed(ty: u8, rest: &[u8]) -> Number
    requires { T (listed (ty ∷ rest.now)) }
    ensures { result ≡ number_of ty rest.now }
{
    match ty {
        NUMBER_ZERO => Number::UInt64(0),
        NUMBER_NAN => Number::Nan,
        NUMBER_INF => Number::Infinity,
        NUMBER_NEG_INF => Number::NegInfinity,
        NUMBER_INT => Number::Int64(from_twos_complement(rest.len(), read_be(rest))),
        NUMBER_UINT => Number::UInt64(read_be(rest)),
        NUMBER_FLOAT => Number::Float64(read_be(rest)),
        _ => decode_decimal(rest),
    }
}

impl Number {
    // Reads a payload back.
    pub fn decode(bytes: &[u8]) -> Result<Number, Refusal>
        ensures { result ≡ decoded bytes.now }
    {
        if !is_number(bytes) {
            return Err(Refusal::Number);
        }
        Ok(decode_listed(byte(bytes, 0), &bytes[1..]))
    }
}

// The least width that holds a number without a sign.
fn uint_width(v: u64) -> usize
    ensures { result ≡ uint_width v }
{
    match v {
        0..=0xff => 1,
        0x100..=0xffff => 2,
        0x1_0000..=0xffff_ffff => 4,
        _ => 8,
    }
}

// The least width that holds the number of a pattern of eight bytes: the sign takes one bit more.
fn int_width(x: u64) -> usize
    ensures { result ≡ int_width (signed 8 x) }
{
    if x <= i64::MAX as u64 {
        return uint_width(2 * x);
    }
    uint_width(2 * (u64::MAX - x))
}

// Fills the buffer with a first byte and the low n bytes of x, if it has the room.
fn encode(ty: u8, n: usize, x: u64, out: &mut [u8]) -> Ending
    requires { n ≤ 8 }
    ensures { Ended result out.old out.new (into (length out.old) (ty ∷ be_bytes n x)) }
{
    if out.len() < n + 1 {
        return Err(Refusal::Buffer);
    }
    put(out, 0, ty);
    put_be(out, 1, n, x);
    Ok(Some(n + 1))
}

// Makes a signed integer's payload. It and the next stay two functions: the width, the first byte and the type are each its own, and
// what they share is `encode`.
pub fn encode_int64(v: i64, out: &mut [u8]) -> Ending
    ensures { Ended result out.old out.new (into (length out.old) (int_payload v)) }
{
    let x = v.cast_unsigned();
    if x == 0 {
        return encode(NUMBER_ZERO, 0, 0, out);
    }
    encode(NUMBER_INT, int_width(x), x, out)
}

// Makes an unsigned integer's payload.
pub fn encode_uint64(v: u64, out: &mut [u8]) -> Ending
    ensures { Ended result out.old out.new (into (length out.old) (uint_payload v)) }
{
    if v == 0 {
        return encode(NUMBER_ZERO, 0, 0, out);
    }
    encode(NUMBER_UINT, uint_width(v), v, out)
}

// Makes a float's payload. A NaN has no known bits, so it is told first.
pub fn encode_float64(v: f64, out: &mut [u8]) -> Ending
    ensures { Ended result out.old out.new (into (length out.old) (float_payload v)) }
{
    if v != v {
        return encode(NUMBER_NAN, 0, 0, out);
    }
    let bits: u64 = f64::to_bits(v);
    if bits == INFINITY {
        return encode(NUMBER_INF, 0, 0, out);
    }
    if bits == NEG_INFINITY {
        return encode(NUMBER_NEG_INF, 0, 0, out);
    }
    encode(NUMBER_FLOAT, 8, bits, out)
}

// Makes a 64-bit decimal's payload.
pub fn encode_decimal64(value: i64, scale: u8, out: &mut [u8]) -> Ending
    ensures { Ended result out.old out.new (into (length out.old) (decimal_payload value scale)) }
{
    if out.len() < DECIMAL64_SIZE {
        return Err(Refusal::Buffer);
    }
    put(out, 0, NUMBER_DECIMAL);
    put_be(out, 1, 8, value.cast_unsigned());
    put(out, 9, scale);
    Ok(Some(DECIMAL64_SIZE))
}
