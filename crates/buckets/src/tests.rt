//! Edges of reading a number and of printing, with expected values written by hand.
ghost use Rattle.std.specs.Prelude.{◌≤◌};
ghost use Rattle.buckets.specs.Reports.{Small};

use crate::numbers::read_number;
use crate::report::{Refusal, Sizes, refuse};
use crate::taking::{sum_up, take_line};
use std::test::Fail;
use theory::Entry;

#[test]
fn numbers_that_are_read(rt: HostRuntime) {
    assert_eq!(rt; read_number(b"0", 0), Some(0));
    assert_eq!(rt; read_number(b"9", 9), Some(9));
    assert_eq!(rt; read_number(b"10", 32), Some(10));
    assert_eq!(rt; read_number(b"960", 960), Some(960));
    assert_eq!(rt;
        read_number(b"18446744073709551615", u64::MAX),
        Some(u64::MAX)
    );
}

#[test]
fn lines_that_spell_no_number(rt: HostRuntime) {
    assert_eq!(rt; read_number(b"", 960), None);
    assert_eq!(rt; read_number(b"00", 960), None);
    assert_eq!(rt; read_number(b"07", 960), None, "a leading zero");
    assert_eq!(rt; read_number(b"+7", 960), None);
    assert_eq!(rt; read_number(b"-7", 960), None);
    assert_eq!(rt; read_number(b" 7", 960), None);
    assert_eq!(rt; read_number(b"7 ", 960), None);
    assert_eq!(rt; read_number(b"7\r", 960), None);
    assert_eq!(rt; read_number(b"7/", 960), None, "the byte before 0");
    assert_eq!(rt; read_number(b"7:", 960), None, "the byte after 9");
}

#[test]
fn numbers_that_are_too_large(rt: HostRuntime) {
    assert_eq!(rt; read_number(b"1", 0), None);
    assert_eq!(rt; read_number(b"961", 960), None);
    assert_eq!(rt; read_number(b"1000", 960), None);
    assert_eq!(rt; read_number(b"18446744073709551616", u64::MAX), None);
    assert_eq!(rt; read_number(b"99999999999999999999", u64::MAX), None);
    let digits = [b'9'; 4000];
    assert_eq!(rt; read_number(&digits[..], u64::MAX), None);
}

fn bucket(exponent: u64) -> Entry
    requires { exponent ≤ 40 }
    ensures { Small result }
{
    Entry { stamp: 1, exponent }
}

#[test]
fn sizes_oldest_first(rt: HostRuntime) -> Result<(), Fail> {
    let mut out = String::new(rt.alloc());
    let none: [Entry; 0] = [];
    let sizes = Sizes { buckets: &none };
    writeln!(out, "{sizes}")?;
    let one = [bucket(0)];
    let sizes = Sizes { buckets: &one };
    writeln!(out, "{sizes}")?;
    let buckets = [bucket(0), bucket(1), bucket(1), bucket(3), bucket(40)];
    let sizes = Sizes { buckets: &buckets };
    writeln!(out, "{sizes}")?;
    assert_eq!(rt; out.as_str(), "\n1\n1099511627776 8 2 2 1\n");
    Ok(())
}

#[test]
fn lines_that_are_taken(rt: HostRuntime) -> Result<(), Fail> {
    let mut out = String::new(rt.alloc());
    let mut board = None;
    take_line(&mut board, b"3", 1, &mut out)?;
    take_line(&mut board, b"2", 2, &mut out)?;
    take_line(&mut board, b"5", 3, &mut out)?;
    take_line(&mut board, b"961", 4, &mut out)?;
    refuse(&mut out, 5, Refusal::NoTick)?;
    sum_up(&board, &mut out)?;
    assert_eq!(rt;
        out.as_str(),
        "line 1: refused, k is an even number from 2 to 32\n2 2 1\nline 4: refused, a count is a number from 0 to 960\n\
line 5: refused, no more ticks are left\n5 arrivals stand in 3 buckets\n"
    );
    Ok(())
}
