//! A static library for programs in Rust and C: it reads a date. The program in `cargo/` is linked with it.
#![tactic(auto)]

ghost use Rattle.std.specs.Prelude.{◌≡◌, ◌≤◌};
ghost use Rattle.std.specs.Str.{IsUtf8, chars};
ghost use Rattle.examples.specs.Date.{IsDate};
ghost use Rattle.examples.specs.declared.date.Date.{Date};

use examples::date::parse_date;
use std::alloc::Global;

/// What a text is that should be a date.
#[derive(Clone, Copy, Drop)]
#[repr(C)]
pub struct ReadDate {
    /// 0: a date; 1: none, and the first error's bytes are given; 2: bytes that are no UTF-8; 3: out of memory.
    pub status: u8,
    pub month: u8,
    pub day: u8,
    pub year: u16,
    pub error_start: usize,
    pub error_end: usize,
}

const NOTHING: ReadDate = ReadDate {
    status: 0,
    month: 0,
    day: 0,
    year: 0,
    error_start: 0,
    error_end: 0,
};

/// A date, as `2026-11-23`, in UTF-8. What isn't said by the status is 0.
#[unsafe(no_mangle)]
pub extern "C" fn read_date(alloc: Global, bytes: &[u8]) -> ReadDate
    ensures status { result.status ≤ 3 }
    ensures date { result.status ≡ 0 → IsDate (chars bytes.now) (record { year = result.year; month = result.month; day = result.day }) }
    ensures text { result.status ≡ 1 → IsUtf8 bytes.now }
    ensures none { result.status ≡ 1 → (date : Date) → IsDate (chars bytes.now) date → ⊥ }
    ensures other { result.status ≡ 2 → IsUtf8 bytes.now → ⊥ }
    ensures month { result.status ≡ 0 → (1 ≤ result.month) × (result.month ≤ 12) }
    ensures day { result.status ≡ 0 → (1 ≤ result.day) × (result.day ≤ 31) }
{
    let Ok(text) = std::str::from_utf8(bytes) else {
        return ReadDate {
            status: 2,
            ..NOTHING
        };
    };
    let Ok(parsed) = parse_date(alloc, text) else {
        return ReadDate {
            status: 3,
            ..NOTHING
        };
    };
    match (parsed.output, parsed.errors.first()) {
        (Some(date), _) => ReadDate {
            year: date.year,
            month: date.month,
            day: date.day,
            ..NOTHING
        },
        (None, Some(error)) => ReadDate {
            status: 1,
            error_start: error.span().start,
            error_end: error.span().end,
            ..NOTHING
        },
        (None, None) => ReadDate {
            status: 1,
            ..NOTHING
        },
    }
}

#[cfg(test)]
mod tests {
    use super::read_date;

    #[test]
    fn a_date_has_status_0(rt: HostRuntime) {
        let read = read_date(rt.alloc(), b"2026-11-23");
        assert_eq!(rt;
            (read.status, read.year, read.month, read.day),
            (0, 2026, 11, 23)
        );
    }

    #[test]
    fn an_error_has_its_bytes(rt: HostRuntime) {
        let read = read_date(rt.alloc(), b"2026-13-23");
        assert_eq!(rt; (read.status, read.error_start, read.error_end), (1, 5, 7));
    }

    #[test]
    fn other_bytes_than_utf_8_are_named(rt: HostRuntime) {
        assert_eq!(rt; read_date(rt.alloc(), b"\xff").status, 2);
    }
}
