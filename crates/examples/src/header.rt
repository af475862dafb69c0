//! The header of a packet, in bytes.
ghost use Rattle.chumsky.specs.Accepted.{Exactly};
ghost use Rattle.examples.specs.Header.{IsHeader};

use chumsky::Stop;
use chumsky::extra::RichBytes;
use chumsky::prelude::*;
use std::alloc::Global;

/// The header of a packet.
#[derive(Clone, Copy, Debug, PartialEq)]
pub struct Header {
    pub version: u8,
    pub flags: u8,
    /// How many bytes follow the header.
    pub length: u16,
}

/// A header of seven bytes: `PKT`, the version 1 or 2, flags, and the length, its high byte first. Of any other bytes there is no
/// output.
pub fn parse_header(alloc: Global, bytes: &[u8]) -> Result<ParseResult<Header, Rich<u8>>, Stop>
    ensures { Exactly IsHeader bytes.now result }
{
    let magic = just::<_, &[u8], RichBytes>(b"PKT");
    group((magic, one_of([1u8, 2]), any(), any(), any()))
        .map(|(_, version, flags, high, low)| Header {
            version,
            flags,
            length: u16::from_be_bytes([high, low]),
        })
        .parse(alloc, bytes)
}
