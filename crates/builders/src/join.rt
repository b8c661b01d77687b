// Two records written as one container: the header, the entries that each gives, the payloads that each gives.
ghost use Rattle.std.specs.Prelude.{◌≡◌, ◌≤◌, drop, length};
ghost use Rattle.layout.specs.Read.{header};
ghost use Rattle.layout.specs.Patch.{patch};
ghost use Rattle.layout.specs.Room.{EndedIn};
ghost use Rattle.builders.specs.Join.{given_count, given_start};
ghost use Rattle.builders.specs.Join.{given_entries};
ghost use Rattle.builders.specs.Join.{as_one, Lies, joined, joined_length};
ghost use Rattle.builders.specs.Room.{sized};

use crate::room::check_room;
use layout::constants::{CONTAINER_CODE, HEADER_SIZE, JENTRY_SIZE};
use layout::ending::Ending;
use layout::jentry::encoded;
use layout::util::{Header, read_header, slice};
use layout::writer::{copy, put_u32};

// What a record gives to a container: the items of its table, of which a scalar record has one, or itself whole as one item.
#[derive(Clone, Copy)]
pub enum Given {
    Table(usize),
    Whole,
}

// A record and what it gives, which lies in it.
#[derive(Clone, Copy)]
pub struct Piece<'a> {
    pub record: &'a [u8],
    pub given: Given,
    ghost lies: { Lies record.now given },
}

// What a record is as one item: a scalar is taken out of its record, a container goes in whole.
pub fn as_item(s: &[u8]) -> Given
    ensures { result ≡ as_one (header s.now) }
{
    match read_header(s) {
        Ok(Header::Scalar(_)) => Given::Table(1),
        Ok(Header::Array(_)) | Ok(Header::Object(_)) | Err(_) => Given::Whole,
    }
}

// How many items are given.
#[tactic(auto, unfolding(crate::specs::Join::given_count))]
pub fn given_count(given: Given) -> usize
    ensures { result ≡ given_count given }
{
    match given {
        Given::Table(n) => n,
        Given::Whole => 1,
    }
}

impl<'a> Piece<'a> {
    // How many items are given: few, since each has an entry, and the record is short.
    fn count(&self) -> usize
        ensures is { result ≡ given_count self.now.given }
        ensures few { result ≤ 16384 }
    {
        given_count(self.given)
    }

    // Where the payloads of what is given start.
    fn start(&self) -> usize
        ensures { result ≡ given_start self.now.given }
    {
        match self.given {
            Given::Table(n) => HEADER_SIZE + JENTRY_SIZE * n,
            Given::Whole => 0,
        }
    }

    // The payloads of what is given.
    fn payloads(&self) -> &'a [u8]
        ensures are { result.now ≡ drop (given_start self.now.given) self.now.record.now }
        ensures short { length result.now ≤ 65536 }
    {
        &self.record[self.start()..]
    }

    // Stores the entries of what is given: the record's own, or that of a container.
    fn put_jentries(&self, out: &mut [u8], at: usize)
        ensures { out.new ≡ patch out.old at (given_entries self.now.record.now self.now.given) }
    {
        match self.given {
            Given::Table(n) => copy(slice(self.record, HEADER_SIZE, JENTRY_SIZE * n), out, at),
            Given::Whole => put_u32(out, at, encoded(CONTAINER_CODE, self.record.len() as u32)),
        }
    }
}

// The length of the container of what two records give.
fn joined_len(left: &Piece, right: &Piece) -> usize
    ensures { result ≡ joined_length left.now.record.now left.now.given right.now.record.now right.now.given }
{
    let count = left.count() + right.count();
    HEADER_SIZE + JENTRY_SIZE * count + left.payloads().len() + right.payloads().len()
}

// Stores the container of what two records give: the header, the entries, the payloads.
fn put_joined(header: u32, left: &Piece, right: &Piece, out: &mut [u8])
    ensures { out.new
        ≡ patch out.old 0 (joined header left.now.record.now left.now.given right.now.record.now right.now.given) }
{
    let left_count = left.count();
    let start = HEADER_SIZE + JENTRY_SIZE * (left_count + right.count());
    let left_payloads = left.payloads();
    put_u32(out, 0, header);
    left.put_jentries(out, HEADER_SIZE);
    right.put_jentries(out, HEADER_SIZE + JENTRY_SIZE * left_count);
    copy(left_payloads, out, start);
    copy(right.payloads(), out, start + left_payloads.len());
}

// Stores that container and gives its length, where it goes into `room` bytes; else nothing is stored.
pub fn write_joined(header: u32, left: &Piece, right: &Piece, out: &mut [u8], room: usize) -> Ending
    ensures { EndedIn result out.old out.new
        (sized room (joined header left.now.record.now left.now.given right.now.record.now right.now.given)) }
{
    let len = joined_len(left, right);
    check_room(len, room)?;
    put_joined(header, left, right, out);
    Ok(Some(len))
}
