//! How a row's rank is made: the first 128 bits of a spelling of the row that keeps the order of rows.

ghost use Rattle.std.specs.Prelude.{◌≡◌, ◌+◌, ◌<◌, ◌≤◌, ◌^◌};
ghost use Rattle.std.specs.List.{AllByRecursion};
ghost use Rattle.tuple_core.specs.Encoded.{value_seen};
ghost use Rattle.tuple_core.specs.declared.value.Value.{Value};
ghost use Rattle.tuple_core.specs.Ranks.{FitsRank, Puts, cut_row, cut_value, put_digit, row_rank, text_rank, value_rank};
ghost use Rattle.tuple_core.specs.Values.{FitsRow};

use crate::encoded::{EncodedRow, EncodedValues, ValueRef};

const KIND_BITS: u32 = 2;

// The kinds in their order. Where a row ends, nothing is put, which reads as 0.
const INTEGER: u64 = 1;

const TEXT: u64 = 2;

const TRUTH: u64 = 3;

// A byte is put as the number above it, and 0 ends a text.
const BYTE_BITS: u32 = 9;

// A number that is written from its highest bit on, of which the lowest bits are still free.
#[derive(Clone, Copy)]
struct Room {
    number: u128,
    free: u32,
    ghost bits: { free ≤ 128 },
    ghost within: { number + 2 ^ free ≤ 2 ^ 128 },
}

impl Room {
    fn new() -> Room
        ensures number { result.number ≡ 0 }
        ensures free { result.free ≡ 128 }
    {
        Room {
            number: 0,
            free: 128,
        }
    }

    // Puts a digit of so many bits, or as many of its high bits as there is room for.
    fn put(self, bits: u32, digit: u64) -> Room
        requires bits { (1 ≤ bits) × (bits ≤ 64) }
        requires digit { digit < 2 ^ bits }
        ensures { Puts (put_digit bits digit) self.number self.free result.number result.free }
    {
        let digit = u128::from(digit);
        if self.free < bits {
            return Room {
                number: self.number + (digit >> (bits - self.free)),
                free: 0,
            };
        }
        let free = self.free - bits;
        Room {
            number: self.number + (digit << free),
            free,
        }
    }
}

fn put_integer(number: i64, start: Room) -> Room
    ensures { Puts (value_rank (Value.Int number)) start.number start.free result.number result.free }
{
    let room = start.put(KIND_BITS, INTEGER);
    room.put(64, number.abs_diff(i64::MIN))
}

fn put_text(bytes: &[u8], start: Room) -> Room
    ensures { Puts (text_rank bytes.now) start.number start.free result.number result.free }
{
    let mut room = start;
    for byte in bytes {
        if room.free == 0 {
            return room;
        }
        room = room.put(BYTE_BITS, u64::from(*byte) + 1);
    }
    room.put(BYTE_BITS, 0)
}

fn put_value(value: ValueRef<'_>, room: Room) -> Room
    requires { FitsRank (value_seen value) }
    ensures { Puts (value_rank (value_seen value.entry)) room.number room.free result.number result.free }
{
    match value {
        ValueRef::Int(number) => put_integer(number, room),
        ValueRef::Text(bytes) => put_text(bytes, room.put(KIND_BITS, TEXT)),
        ValueRef::Bool(truth) => room.put(KIND_BITS, TRUTH).put(1, u64::from(truth)),
    }
}

// The number of the room once the values stand behind what is there.
fn number_behind(values: EncodedValues<'_>, start: Room) -> u128
    requires { AllByRecursion FitsRank values }
    ensures { result ≡ start.number + row_rank values.entry start.free }
{
    let mut room = start;
    for value in values {
        if room.free == 0 {
            return room.number;
        }
        room = put_value(value, room);
    }
    room.number
}

fn cut(value: ValueRef<'_>, skip: usize) -> ValueRef<'_>
    ensures { value_seen result ≡ cut_value skip (value_seen value.entry) }
{
    match value {
        ValueRef::Int(number) => ValueRef::Int(number),
        ValueRef::Text(bytes) => match bytes.split_at_checked(skip) {
            Some((_, rest)) => ValueRef::Text(rest),
            None => ValueRef::Text(&[]),
        },
        ValueRef::Bool(truth) => ValueRef::Bool(truth),
    }
}

impl<'a> EncodedRow<'a> {
    /// The rank of the row without the first bytes of its first value, where that is a text. Where the first texts of
    /// all rows share these bytes and two ranks differ, the rows stand as their ranks do. Equal ranks say nothing.
    pub fn rank(&self, skip: usize) -> u128
        ensures rank { result ≡ row_rank (cut_row skip self.now) 128 }
        ensures fits { FitsRow self.now }
    {
        let mut values = self.values();
        match values.next() {
            Some(first) => number_behind(values, put_value(cut(first, skip), Room::new())),
            None => 0,
        }
    }
}
