// The numbers of the layout, after the Rust's constants.rs. Where the Rust masks a field in place, here a shift brings it down,
// so that a code is a number from 0 to 7.

// A header, and an entry, in bytes.
pub const HEADER_SIZE: usize = 4;

pub const JENTRY_SIZE: usize = 4;

// Where the payload of a scalar record starts: behind its header and its one entry.
pub const SCALAR_START: usize = 8;

// Headers: the top three bits are the type, the low 29 the count.
pub const ARRAY_CONTAINER_TAG: u32 = 0x8000_0000;

pub const OBJECT_CONTAINER_TAG: u32 = 0x4000_0000;

pub const SCALAR_CONTAINER_TAG: u32 = 0x2000_0000;

pub const CONTAINER_HEADER_TYPE_SHIFT: u32 = 29;

pub const CONTAINER_HEADER_LEN_MASK: u32 = 0x1fff_ffff;

// Entries: bit 31 is clear, bits 28 to 30 are the type code, the low 28 the length.
pub const JENTRY_IS_OFF_SHIFT: u32 = 31;

pub const JENTRY_CODE_SHIFT: u32 = 28;

pub const JENTRY_CODE_MASK: u32 = 7;

pub const JENTRY_OFF_LEN_MASK: u32 = 0x0fff_ffff;

// The type codes of an entry.
pub const NULL_CODE: u32 = 0;

pub const STRING_CODE: u32 = 1;

pub const NUMBER_CODE: u32 = 2;

pub const FALSE_CODE: u32 = 3;

pub const TRUE_CODE: u32 = 4;

pub const CONTAINER_CODE: u32 = 5;

pub const EXTENSION_CODE: u32 = 6;

// The code that has no meaning.
pub const UNUSED_CODE: u32 = 7;

// The first byte of a number's payload.
pub const NUMBER_ZERO: u8 = 0x00;

pub const NUMBER_NAN: u8 = 0x10;

pub const NUMBER_INF: u8 = 0x20;

pub const NUMBER_NEG_INF: u8 = 0x30;

pub const NUMBER_INT: u8 = 0x40;

pub const NUMBER_UINT: u8 = 0x50;

pub const NUMBER_FLOAT: u8 = 0x60;

pub const NUMBER_DECIMAL: u8 = 0x70;

// The limits of a record: document 01, "Readable and sound", rules 1 and 4.
pub const RECORD_LIMIT: usize = 65536;

pub const DEPTH_LIMIT: u32 = 64;
