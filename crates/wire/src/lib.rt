// Block files (document 01, "Block files"): their kinds, and their payloads read where they stand.
//
//     payload    the bytes of a payload, read from the file
#![tactic(auto)]

ghost use Rattle.std.specs.Prelude.{◌≡◌, ◌*◌, ◌/◌, ◌≤◌, length};
ghost use Rattle.wire.specs.Kind.{number_of_file, blocks_of_file};

pub mod payload;

pub use payload::{
    byte_at, next_place, payload_ahead, payload_byte, payload_four, payload_part, payload_word,
    place_after, place_of, three_from,
};

// A payload of `len` bytes, in the file whose blocks have them.
#[derive(Clone, Copy)]
pub struct FiledPayload<'a> {
    pub file: &'a [u8],
    pub len: usize,
    pub ghost inside: { len ≤ length file.now / 512 * 504 },
}

// Three bytes of a payload that stand one after the other, as those of a move. Contracts name each of them, so it is no array.
#[derive(Clone, Copy, Debug, PartialEq, Eq)]
pub struct Three {
    pub first: u8,
    pub second: u8,
    pub third: u8,
}

// Four bytes of a payload that stand one after the other, as those of a step.
#[derive(Clone, Copy, Debug, Default, PartialEq, Eq)]
pub struct Four {
    pub first: u8,
    pub second: u8,
    pub third: u8,
    pub fourth: u8,
}

// A block file's kind.
#[derive(Clone, Copy, Debug, PartialEq, Eq)]
pub enum FileKind {
    Map,
    Placing,
    Plan,
    Moves,
    Rounds,
}

impl FileKind {
    // Byte 0 of the kind's blocks.
    pub fn number(self) -> u8
        ensures { result ≡ number_of_file self }
    {
        match self {
            FileKind::Map => 1,
            FileKind::Placing => 2,
            FileKind::Plan => 3,
            FileKind::Moves => 4,
            FileKind::Rounds => 5,
        }
    }

    // How many blocks a file of the kind has at most.
    pub fn most_blocks(self) -> u16
        ensures { result ≡ blocks_of_file self }
    {
        match self {
            FileKind::Map => 9,
            FileKind::Placing => 1,
            FileKind::Plan => 64,
            FileKind::Moves | FileKind::Rounds => 128,
        }
    }
}
