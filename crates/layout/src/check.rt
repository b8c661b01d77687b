// The check of a record: document 01, "Readable and sound", rules 1 to 6. The Rust has none and reads lazily.
ghost use Rattle.std.specs.Prelude.{◌≡◌, ◌&&◌, ◌+◌, ◌-◌, ◌*◌, ◌^◌, ◌≤◌, ◌<◌, eqb, length, drop, Some, Err};
ghost use Rattle.layout.specs.Read.{read, nested, scalar_in};
ghost use Rattle.layout.specs.Entry.{lengths};
ghost use Rattle.layout.specs.Place.{body, table_ok};
ghost use Rattle.layout.specs.Check.{checked, nesting, nesting_to};
ghost use Rattle.layout.specs.Pass.{item_checked, items_checked};
ghost use Rattle.layout.specs.Pass.{names_end, payload_refusal};

use crate::constants::{
    CONTAINER_CODE, DEPTH_LIMIT, EXTENSION_CODE, HEADER_SIZE, JENTRY_CODE_SHIFT,
    JENTRY_IS_OFF_SHIFT, JENTRY_SIZE, NUMBER_CODE, RECORD_LIMIT, SCALAR_START, STRING_CODE,
    UNUSED_CODE,
};
use crate::jentry::{is_jentry, jentry_at, payload_len, read_jentry, type_code};
use crate::number::is_number;
use crate::refusal::Refusal;
use crate::utf8::{is_ascii, is_utf8};
use crate::util::{Header, read_header};

// What a container's header says of its table: so many entries, the first of them names.
#[derive(Clone, Copy)]
struct Table {
    entries: usize,
    names: usize,
    ghost within: { (entries < 2 ^ 30) × (names ≤ entries) },
}

// Rule 5 for a table: each entry is good, and the lengths sum to the bytes left.
fn is_table(s: &[u8], table: Table) -> bool
    requires { (4 + 4 * table.entries ≤ length s.now) × (length s.now ≤ 65536) }
    ensures { result
        ≡ (table_ok s.now table.names 0 table.entries
        && eqb (lengths s.now 0 table.entries) (length s.now - (4 + 4 * table.entries))) }
{
    let mut sum: usize = 0;
    for i in 0..table.entries {
        let entry = jentry_at(s, i);
        if is_jentry(i < table.names, entry) {
            sum += payload_len(entry) as usize;
        } else {
            return false;
        }
    }
    sum == s.len() - (HEADER_SIZE + JENTRY_SIZE * table.entries)
}

// Rules 5 and 6 for one item: its entry, and its payload.
#[cycle(checks)]
fn check_item(entry: u32, payload: &[u8], allowance: u32) -> Result<(), Refusal>
    requires { length payload.now ≤ 65536 }
    ensures { result ≡ item_checked (nested allowance) entry payload.now }
{
    if entry >> JENTRY_IS_OFF_SHIFT != 0 {
        return Err(Refusal::Layout);
    }
    match type_code(entry) {
        STRING_CODE => {
            if is_utf8(payload) {
                return Ok(());
            }
            Err(Refusal::Text)
        }
        NUMBER_CODE => {
            if is_number(payload) {
                return Ok(());
            }
            Err(Refusal::Number)
        }
        CONTAINER_CODE => check_nested(payload, allowance),
        EXTENSION_CODE => Ok(()),
        UNUSED_CODE => Err(Refusal::Layout),
        _ => {
            if payload_len(entry) == 0 {
                return Ok(());
            }
            Err(Refusal::Layout)
        }
    }
}

// A payload's refusal, where the table is good: rule 5 comes before rule 6.
fn refuse_payload(s: &[u8], table: Table, refusal: Refusal) -> Result<(), Refusal>
    requires { (4 + 4 * table.entries ≤ length s.now) × (length s.now ≤ 65536) }
    ensures { result ≡ Err (payload_refusal s.now table.entries table.names refusal) }
{
    if is_table(s, table) {
        return Err(refusal);
    }
    Err(Refusal::Layout)
}

// The place behind the names, the first of them at `start`; none where an entry is not that of a name, or they go past the
// record. The place is what it is for, so that it goes by no `Parts`.
fn names_end(s: &[u8], names: usize, start: usize) -> Option<usize>
    requires { (4 * names ≤ length s.now) × (length s.now ≤ 65536) × (start ≤ length s.now) }
    ensures { result ≡ names_end s.now 0 start names }
{
    let mut place = start;
    for i in 0..names {
        let entry = jentry_at(s, i);
        if entry >> JENTRY_CODE_SHIFT != STRING_CODE {
            return None;
        }
        place += payload_len(entry) as usize;
    }
    if s.len() < place {
        return None;
    }
    Some(place)
}

// Rules 5 and 6 for the items from entry `from` on, the first of them at `start`: each in turn, its entry and its payload, down to
// its leaves. Which of the rules is broken first is not told: `refuse_payload` puts them in order. It carries the place itself, and not
// by `Parts`: it asks where each payload ends, and where the last one does.
#[cycle(checks)]
fn check_items(s: &[u8], n: usize, from: usize, start: usize, allowance: u32) -> Result<(), Refusal>
    requires { (n ≤ 2 ^ 30) × (length s.now ≤ 65536) × (start ≤ length s.now) }
    ensures { result ≡ items_checked (nested allowance) s.now from start (n - from) }
{
    let mut place = start;
    for i in from..n {
        let entry = jentry_at(s, i);
        let end = place + payload_len(entry) as usize;
        if s.len() < end {
            return Err(Refusal::Layout);
        }
        check_item(entry, &s[place..end], allowance)?;
        place = end;
    }
    if place == s.len() {
        return Ok(());
    }
    Err(Refusal::Layout)
}

// Rules 5 and 6 for all items. Names whose bytes are all ASCII are UTF-8 each, and are passed over.
// `&s[0..]`, here and below: a slice that is handed on as it came is copied whole by a 16-byte move, which waits for the two 8-byte
// stores before it, some 5 ns each time.
#[cycle(checks)]
fn check_parts(
    s: &[u8],
    table: Table,
    start: usize,
    end: usize,
    allowance: u32,
) -> Result<(), Refusal>
    requires { (length s.now ≤ 65536) × (names_end s.now 0 start table.names ≡ Some end) }
    ensures { result ≡ items_checked (nested allowance) s.now 0 start table.entries }
{
    if is_ascii(&s[start..end]) {
        return check_items(&s[0..], table.entries, table.names, end, allowance);
    }
    check_items(&s[0..], table.entries, 0, start, allowance)
}

// Rules 4 to 6 behind the depth, for a container by what its header says.
#[cycle(checks)]
fn check_body(s: &[u8], table: Table, allowance: u32) -> Result<(), Refusal>
    requires { (4 ≤ length s.now) × (length s.now ≤ 65536) }
    ensures { result ≡ checked (body (nested allowance) table.entries table.names (drop 4 s.now)) }
{
    let start = HEADER_SIZE + JENTRY_SIZE * table.entries;
    if s.len() < start {
        return Err(Refusal::Short);
    }
    let Some(end) = names_end(s, table.names, start) else {
        return Err(Refusal::Layout);
    };
    if let Err(refusal) = check_parts(s, table, start, end, allowance) {
        return refuse_payload(&s[0..], table, refusal);
    }
    Ok(())
}

// A nested container, where `allowance` levels are left.
#[cycle(checks)]
pub fn check_nested(s: &[u8], allowance: u32) -> Result<(), Refusal>
    requires { length s.now ≤ 65536 }
    ensures { result ≡ checked (nested allowance s.now) }
{
    match read_header(s)? {
        Header::Scalar(_) => Err(Refusal::Layout),
        Header::Array(n) => {
            if allowance == 0 {
                return Err(Refusal::Limit);
            }
            let table = Table {
                entries: n,
                names: 0,
            };
            check_body(&s[0..], table, allowance - 1)
        }
        Header::Object(n) => {
            if allowance == 0 {
                return Err(Refusal::Limit);
            }
            let table = Table {
                entries: n + n,
                names: n,
            };
            check_body(&s[0..], table, allowance - 1)
        }
    }
}

// Rule 3: a scalar record. That its payload ends where the record does comes before what the payload holds.
fn check_scalar(s: &[u8], count: usize) -> Result<(), Refusal>
    requires { (4 ≤ length s.now) × (length s.now ≤ 65536) }
    ensures { result ≡ checked (scalar_in count (drop 4 s.now)) }
{
    if count != 0 {
        return Err(Refusal::Layout);
    }
    if s.len() < SCALAR_START {
        return Err(Refusal::Short);
    }
    let entry = read_jentry(s, 0);
    let code = type_code(entry);
    let len = payload_len(entry) as usize;
    if code == CONTAINER_CODE {
        return Err(Refusal::Layout);
    }
    if len != s.len() - SCALAR_START {
        return Err(Refusal::Layout);
    }
    check_items(s, 1, 0, SCALAR_START, 0)
}

// Whether a record is readable, or why it is not.
pub fn check_record(s: &[u8]) -> Result<(), Refusal>
    ensures { result ≡ checked (read s.now) }
{
    if RECORD_LIMIT < s.len() {
        return Err(Refusal::Limit);
    }
    if let Header::Scalar(count) = read_header(s)? {
        return check_scalar(s, count);
    }
    check_nested(s, DEPTH_LIMIT)
}

// Whether a record nests at most so many levels deep, or why it is not even readable. The check starts with these, so that a usual
// container is gone through once; one that this refuses is checked again by itself.
pub fn check_levels(s: &[u8], levels: u32) -> Result<bool, Refusal>
    requires { levels ≤ 64 }
    ensures { result ≡ nesting_to levels (read s.now) }
{
    if RECORD_LIMIT < s.len() {
        return Err(Refusal::Limit);
    }
    if let Ok(()) = check_nested(s, levels) {
        return Ok(true);
    }
    check_record(s)?;
    if let Header::Scalar(_) = read_header(s)? {
        return Ok(true);
    }
    Ok(false)
}

// Whether a record still is no deeper than it may one level inside another, or why it is not even readable: a container of 64
// levels is too deep for that.
pub fn check_nesting(s: &[u8]) -> Result<bool, Refusal>
    ensures { result ≡ nesting (read s.now) }
{
    check_levels(s, DEPTH_LIMIT - 1)
}
