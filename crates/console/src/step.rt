// One step of a walk that is given by its places and by how many items it has left, in any bytes.
//
//   step array 4 8 1 ; 80000001 20000002 5001
//   item number 8 2 then 8 10 0
//   step array 4 8 1 ; 80000001 10000003 61C3A9
//   item string 8 3 2 then 8 11 0
use crate::decimal::read_decimal;
use crate::fault::{Failure, Fault};
use crate::hex::decode;
use crate::say::say_refused;
use crate::spell::kind_word;
use crate::text::{Words, argument, count_arguments, trim};
use crate::walk::Walk;
use layout::item::JsonbItem;
use layout::iterator::{ArrayIterator, ObjectIterator, ObjectMember};
use std::alloc::Global;
use std::io;
use std::io::Write;

// ---- the walk

// The number that a word spells.
fn number(word: Option<&[u8]>) -> Option<usize> {
    usize::try_from(read_decimal(word?).ok()?).ok()
}

// The walk that the words behind the first one give, where they are so many and no more.
fn array_walk(mut words: Words) -> Option<ArrayIterator> {
    Some(ArrayIterator {
        jentry_offset: number(words.next())?,
        item_offset: number(words.next())?,
        remaining: number(words.only())?,
    })
}

fn object_walk(mut words: Words) -> Option<ObjectIterator> {
    Some(ObjectIterator {
        key_jentry_offset: number(words.next())?,
        val_jentry_offset: number(words.next())?,
        key_offset: number(words.next())?,
        val_offset: number(words.next())?,
        remaining: number(words.only())?,
    })
}

// ---- the answer

// The place and the length of an item, and behind them, where it is a name or a string, how many characters it has.
fn say_measures<W: Write>(out: &mut W, item: JsonbItem) -> io::Result<()> {
    let JsonbItem {
        place,
        length,
        characters,
        ..
    } = item;
    write!(out, " {place} {length}")?;
    if let Some(n) = characters {
        write!(out, " {n}")?;
    }
    Ok(())
}

fn say_item<W: Write>(out: &mut W, item: JsonbItem) -> io::Result<()> {
    write!(out, " {}", kind_word(item.kind))?;
    say_measures(out, item)
}

fn say_array_item<W: Write>(out: &mut W, item: JsonbItem, next: ArrayIterator) -> io::Result<()> {
    write!(out, "item")?;
    say_item(out, item)?;
    let ArrayIterator {
        jentry_offset,
        item_offset,
        remaining,
    } = next;
    writeln!(out, " then {jentry_offset} {item_offset} {remaining}")
}

// A name is a string in any case, so that its kind is not said.
fn say_object_member<W: Write>(
    out: &mut W,
    member: ObjectMember,
    next: ObjectIterator,
) -> io::Result<()> {
    write!(out, "member")?;
    say_measures(out, member.key)?;
    say_item(out, member.val)?;
    let ObjectIterator {
        key_jentry_offset,
        val_jentry_offset,
        key_offset,
        val_offset,
        remaining,
    } = next;
    writeln!(
        out,
        " then {key_jentry_offset} {val_jentry_offset} {key_offset} {val_offset} {remaining}"
    )
}

// Takes the slice behind the walk.
fn take_slice(alloc: Global, text: &[u8]) -> Result<Vec<u8>, Failure> {
    let slice = argument(text, 1).ok_or(Fault::NoSlice)?;
    if trim(slice).is_empty() {
        return Err(Fault::NoSlice.into());
    }
    decode(alloc, slice)
}

// Takes the slice and a step in it. What the step hands out is said by the function for it, with the walk behind it.
fn take_step<W: Write, K: Walk, F: FnOnce(&mut W, K::Found, K) -> io::Result<()>>(
    alloc: Global,
    out: &mut W,
    text: &[u8],
    walk: K,
    say: F,
) -> Result<(), Failure>
    requires { F.IsAlwaysCallable say }
{
    let slice = take_slice(alloc, text)?;
    match walk.step(&slice) {
        Ok(Some((found, next))) => say(out, found, next)?,
        Ok(None) => writeln!(out, "end")?,
        Err(refusal) => say_refused(out, refusal)?,
    }
    Ok(())
}

pub(crate) fn answer_step<W: Write>(
    alloc: Global,
    out: &mut W,
    text: &[u8],
) -> Result<(), Failure> {
    if count_arguments(text) != 2 {
        return Err(Fault::NoWalk.into());
    }
    let mut words = Words(argument(text, 0).ok_or(Fault::NoWalk)?);
    match words.next() {
        Some(b"array") => {
            let walk = array_walk(words).ok_or(Fault::NotArrayWalk)?;
            take_step(alloc, out, text, walk, say_array_item)
        }
        Some(b"object") => {
            let walk = object_walk(words).ok_or(Fault::NotObjectWalk)?;
            take_step(alloc, out, text, walk, say_object_member)
        }
        _ => Err(Fault::NoWalk.into()),
    }
}
