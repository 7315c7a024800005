//! Why a call refuses: the questions by name, with their numbers, the places that they name, and words.
ghost use Rattle.std.specs.Prelude.{◌≡◌};
ghost use Rattle.arbiter.specs.Refusals as Refusals;

use std::error::Error;
use std::fmt;

/// The buffer whose byte is neither 0 nor 1.
#[derive(Clone, Copy, Debug, PartialEq, Eq)]
pub enum Buffer {
    /// The requests of a cycle.
    Requests,
    /// The one-hot image of a head.
    Image,
    /// The snapshot of a state.
    Snapshot,
    /// The new value of one wire, which is a single byte.
    Wire,
    /// The request table of a matching.
    Table,
}

/// A refusal, by the question that was answered no. Those about single bytes, stations and records name the place that they refuse.
#[derive(Clone, Copy, Debug, PartialEq, Eq)]
pub enum Refusal {
    /// 1: the width is not 1 to 1,024.
    Width,
    /// 2: the width of the tree is no power of two, or 1.
    TreeWidth,
    /// 3: the pick count is not allowed.
    Picks,
    /// 4: the head, the token or the wire is not below the width, a saved head has no mark, or there is no token.
    HeadRange,
    /// 5: a buffer that is read has the wrong length.
    ReadLength,
    /// 6: a buffer that is written has the wrong length.
    WriteLength,
    /// 7: the node buffer has the wrong length.
    NodesLength,
    /// 8: the byte at this place is neither 0 nor 1.
    NotABit(Buffer, usize),
    /// 9: the acknowledge byte is neither 0 nor 1.
    Acknowledge,
    /// 10: the image has a second 1, at this place.
    SecondOne(usize),
    /// 11: the first line of an input is not readable.
    FirstLine,
    /// 12: an input is too long.
    InputLength,
    /// 13: a byte is no thermometer code for the picks.
    Code,
    /// 14: the packed byte at this place has a bit set that is no station's.
    UnusedBit(usize),
    /// 15: there are not as many waiting numbers as stations.
    WaitingLength,
    /// 16: the messages of this station would pass the most.
    Overflow(usize),
    /// 17: the node at this place is above 3.
    NodeByte(usize),
    /// 18: a new total is below 0 or above the width.
    Total,
    /// 19: the holder is no station.
    Holder,
    /// 20: there is no such station.
    Station,
    /// 21: a buffer of heads has the wrong length.
    HeadsLength,
    /// 22: the link in this record leads past the last record, or back.
    Link(usize),
    /// 23: this record has a filler byte or an unused bit that is not 0.
    Filler(usize),
}

impl Refusal {
    /// The number of the question, 1 to 23.
    pub fn number(self) -> usize
        ensures { result ≡ Refusals.number self }
    {
        match self {
            Refusal::Width => 1,
            Refusal::TreeWidth => 2,
            Refusal::Picks => 3,
            Refusal::HeadRange => 4,
            Refusal::ReadLength => 5,
            Refusal::WriteLength => 6,
            Refusal::NodesLength => 7,
            Refusal::NotABit(_, _) => 8,
            Refusal::Acknowledge => 9,
            Refusal::SecondOne(_) => 10,
            Refusal::FirstLine => 11,
            Refusal::InputLength => 12,
            Refusal::Code => 13,
            Refusal::UnusedBit(_) => 14,
            Refusal::WaitingLength => 15,
            Refusal::Overflow(_) => 16,
            Refusal::NodeByte(_) => 17,
            Refusal::Total => 18,
            Refusal::Holder => 19,
            Refusal::Station => 20,
            Refusal::HeadsLength => 21,
            Refusal::Link(_) => 22,
            Refusal::Filler(_) => 23,
        }
    }

    /// The place that is refused: that of a byte, a station or a record. It is 0 where the question names none.
    pub fn place(self) -> usize
        ensures { result ≡ Refusals.place self }
    {
        match self {
            Refusal::NotABit(_, place)
            | Refusal::SecondOne(place)
            | Refusal::UnusedBit(place)
            | Refusal::Overflow(place)
            | Refusal::NodeByte(place)
            | Refusal::Link(place)
            | Refusal::Filler(place) => place,
            _ => 0,
        }
    }

    // The words of a refusal that names no place, and none of the others.
    fn words(self) -> &'static str
        ensures { result.now ≡ Refusals.words self }
    {
        match self {
            Refusal::Width => "the width must be 1 to 1,024",
            Refusal::TreeWidth => "the tree's width must be a power of two, at least 2",
            Refusal::Picks =>
                "the picks must be 1 to 8, at most the width, and 1 for tree, bus and packed scan",
            Refusal::HeadRange =>
                "a head or wire must be below the width, a saved head needs its mark, and the bus a token",
            Refusal::ReadLength => "the buffer that is read has the wrong length",
            Refusal::WriteLength => "the buffer that is written has the wrong length",
            Refusal::NodesLength => "the node buffer must be twice as long as the width",
            Refusal::Acknowledge => "the acknowledge byte is neither 0 nor 1",
            Refusal::FirstLine =>
                "the first line must be S, T, P or B, the width and the picks, with one space between",
            Refusal::InputLength => "the input must be at most 65,536 bytes long",
            Refusal::Code => "the adder takes two thermometer codes for the picks",
            Refusal::WaitingLength => "there must be one waiting number for each station",
            Refusal::Total => "the new total of asking stations is below 0 or above the width",
            Refusal::Holder => "the holder must be none or below the width",
            Refusal::Station => "the station must be below the width",
            Refusal::HeadsLength => "a buffer of heads has the wrong length",
            _ => "",
        }
    }
}

impl fmt::Display for Buffer {
    ghost use Rattle.std.specs.Prelude.{Some};
    ghost use Rattle.arbiter.specs.Refusals.{buffer_name};

    ghost output = { λ buffer. Some (buffer_name buffer) };

    fn fmt<W: fmt::Write>(&self, f: &mut fmt::Formatter<W>) -> fmt::Result {
        f.write_str(match self {
            Buffer::Requests => "the requests",
            Buffer::Image => "the image",
            Buffer::Snapshot => "the snapshot",
            Buffer::Wire => "the new wire value",
            Buffer::Table => "the request table",
        })
    }
}

/// What is wrong, in words: `the width must be 1 to 1,024`, or `byte 7 of the requests is neither 0 nor 1`.
impl fmt::Display for Refusal {
    ghost use Rattle.std.specs.Prelude.{Some};
    ghost use Rattle.arbiter.specs.Refusals.{text};

    ghost output = { λ refusal. Some (text refusal) };

    fn fmt<W: fmt::Write>(&self, f: &mut fmt::Formatter<W>) -> fmt::Result {
        match *self {
            Refusal::NotABit(buffer, at) => write!(f, "byte {at} of {buffer} is neither 0 nor 1"),
            Refusal::SecondOne(at) => write!(f, "byte {at} of the image is a second 1"),
            Refusal::UnusedBit(at) => {
                write!(
                    f,
                    "byte {at} of the packed requests has a bit set that is no station's"
                )
            }
            Refusal::Overflow(at) => {
                write!(
                    f,
                    "more than 4,294,967,295 messages would wait at station {at}"
                )
            }
            Refusal::NodeByte(at) => write!(f, "node {at} is above 3"),
            Refusal::Link(at) => {
                write!(
                    f,
                    "the link in record {at} is past the last record, or leads back"
                )
            }
            Refusal::Filler(at) => {
                write!(
                    f,
                    "record {at} has a filler byte or an unused bit that is not 0"
                )
            }
            other => f.write_str(other.words()),
        }
    }
}

impl Error for Refusal {}
